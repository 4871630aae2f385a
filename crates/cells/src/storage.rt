ghost use Rattle.std.specs.Prelude.{◌≡◌, ◌≤◌, All, length, take};
ghost use Rattle.cells.specs.CellLists.{places_in, AllSound};
ghost use Rattle.cells.specs.Layout.{cells_in, end_of};

mod adds;
mod reads;

// What is kept of a cell: of a term also where its places begin among those of all, and how many they are.
#[derive(Clone, Copy)]
enum Entry {
    Unknown {
        set: u8,
    },
    Term {
        code: u32,
        plain: u32,
        start: u16,
        count: u8,
    },
}

/// The cells of a workspace: at most 2,048, which have at most 4,096 places together.
#[derive(Drop)]
pub struct Cells {
    // The project fixes plain arrays for a workspace (no heap, no vector type), so their lengths in use stand beside.
    entries: [Entry; 2048],
    places: [u32; 4096],
    count: usize,
    filled: usize,
    ghost whole: { length entries ≡ 2048 },
    ghost few: { count ≤ 2048 },
    ghost room: { filled ≤ 4096 },
    ghost within: { All (λ e. end_of e ≤ filled) (take count entries) },
    ghost sound: { AllSound (cells_in entries places count) },
    ghost brim: { places_in (cells_in entries places count) ≡ filled },
}
