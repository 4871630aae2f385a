ghost use Rattle.std.specs.Prelude.{◌≡◌, ℕ, ◌<◌, ◌≤◌, length, slice_get, slice_index, Some};
ghost use Rattle.cells.specs.CellLists.{places_in, code_at, places_at, IsTerm, IsSound, FirstMissing};
ghost use Rattle.cells.specs.Layout.{cell_in, plain_in, end_of};
ghost use Rattle.cells.specs.Contents.{cells_of, plain_of};
ghost use Rattle.cells.specs.Kinds.{KindAt};

use super::{Cells, Entry};
use crate::kind::Kind;

// Cells go by the numbers that callers bring, and a store grows between calls, so no type of its own can say that a number
// stands here: each call that needs it asks for it. They are cast, since `usize` has no `From<u32>`.
#[tactic(auto, using(crate::proofs::Holdings::held), unfolding(crate::specs::Contents::plain_of))]
impl Cells {
    /// How many cells there are.
    pub fn count(&self) -> usize
        ensures value { result ≡ length (cells_of self.now) }
        ensures few { result ≤ 2048 }
    {
        self.count
    }

    /// How many places the terms have together.
    pub fn filled(&self) -> usize
        ensures value { result ≡ places_in (cells_of self.now) }
        ensures few { result ≤ 4096 }
    {
        self.filled
    }

    // What is kept of the cell.
    fn entry(&self, cell: u32) -> &Entry
        requires { cell < length (cells_of self.now) }
        ensures cell { slice_get (cells_of self.now) cell ≡ Some (cell_in self.now.places result.now) }
        ensures plain { plain_of self.now cell ≡ plain_in result.now }
        ensures sound { IsSound cell (cell_in self.now.places result.now) }
        ensures ends { end_of result.now ≤ self.now.filled }
    {
        &self.entries[cell as usize]
    }

    /// What the cell is.
    pub fn kind(&self, cell: u32) -> Kind
        requires { cell < length (cells_of self.now) }
        ensures { KindAt (cells_of self.now) (plain_of self.now cell) cell result }
    {
        match *self.entry(cell) {
            Entry::Unknown { set } => Kind::Unknown(set),
            Entry::Term { plain, .. } => Kind::Term { plain },
        }
    }

    /// The code of a term.
    pub fn code(&self, cell: u32) -> u32
        requires { IsTerm (cells_of self.now) cell }
        ensures value { result ≡ code_at (cells_of self.now) cell }
        ensures small { result < 16777216 }
    {
        match *self.entry(cell) {
            Entry::Term { code, .. } => code,
            Entry::Unknown { .. } => unreachable!(),
        }
    }

    /// The cells in the places of a term, and none of an unknown.
    pub fn parts(&self, cell: u32) -> &[u32]
        requires { cell < length (cells_of self.now) }
        ensures value { result.now ≡ places_at (cells_of self.now) cell }
        ensures few { length result.now ≤ 9 }
        ensures lower { (k : ℕ) → k < length result.now → slice_index result.now k < cell }
    {
        match *self.entry(cell) {
            Entry::Unknown { .. } => &[],
            Entry::Term { start, count, .. } => {
                let start = usize::from(start);
                &self.places[start..start + usize::from(count)]
            }
        }
    }

    /// The first of the cells that does not stand here, if one does not.
    pub fn first_missing(&self, cells: &[u32]) -> Option<u32>
        ensures { FirstMissing (cells_of self.now) cells.now result }
    {
        cells
            .iter()
            .copied()
            .find(|cell| *cell as usize >= self.count)
    }
}
