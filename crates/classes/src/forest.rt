ghost use Rattle.std.specs.Prelude.{slice_index};
ghost use Rattle.classes.specs.Forests.{Forest};
ghost use Rattle.classes.specs.Trails.{lower_in};

mod cells;
mod links;

/// What a class has, by its representative.
#[derive(Clone, Copy, Default)]
struct Class {
    /// How many cells it has. It only says which class to put under which.
    size: u16,
    /// The number that the caller gave it.
    shape: u16,
    /// The union of the sets of its cells.
    set: u8,
}

/// An entry of the trail: what it takes to undo a link.
#[derive(Clone, Copy, Default)]
struct Entry {
    /// The class that went under another.
    lower: u16,
    /// What that other had before.
    was: Class,
}

/// Cells in classes. A class goes by its representative, the cell that is its own parent.
#[derive(Drop)]
pub struct Classes {
    // The project fixes plain arrays for a workspace (no heap, no vector type), so their lengths in use stand beside.
    // A parent is of a cell, and what a class has is of its representative alone: a record of both would keep much that means
    // nothing. So these are two arrays.
    parents: [u16; 2048],
    classes: [Class; 2048],
    /// The links made, oldest first.
    trail: [Entry; 2048],
    count: usize,
    links: usize,
    ghost forest: { Forest (slice_index parents) (lower_in trail) count links },
}
