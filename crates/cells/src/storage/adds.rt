ghost use Rattle.std.specs.Prelude.{◌≡◌, ℕ, ◌+◌, ◌<◌, ◌≤◌, [], ◌∷◌, ◌++◌, length};
ghost use Rattle.theory.specs.States.{unknown, term};
ghost use Rattle.cells.specs.CellLists.{places_in, AllStand};
ghost use Rattle.cells.specs.Contents.{cells_of, plain_of};

use super::{Cells, Entry};

#[tactic(auto, using(crate::proofs::Holdings::held), unfolding(crate::specs::Contents::plain_of))]
impl Cells {
    /// No cells.
    #[tactic(auto, unfolding(crate::specs::Contents::cells_of))]
    pub fn open() -> Cells
        ensures { cells_of result ≡ [] }
    {
        Cells {
            entries: [Entry::Unknown { set: 0 }; 2048],
            places: [0; 4096],
            count: 0,
            filled: 0,
        }
    }

    /// Adds an unknown whose type each class of the set admits.
    pub fn add_unknown(&mut self, set: u8)
        requires { length (cells_of self.old) < 2048 }
        ensures cells { cells_of self.new ≡ cells_of self.old ++ (unknown set ∷ []) }
        ensures others { (i : ℕ) → i < length (cells_of self.old) → plain_of self.new i ≡ plain_of self.old i }
    {
        self.entries[self.count] = Entry::Unknown { set };
        self.count += 1;
    }

    /// Adds a term of the code, which counts by the plain code, with the cells in its places.
    pub fn add_term(&mut self, code: u32, plain: u32, places: &[u32])
        requires room { (length (cells_of self.old) < 2048) × (places_in (cells_of self.old) + length places.now ≤ 4096) }
        requires small { (code < 16777216) × (length places.now ≤ 9) }
        requires stand { AllStand (cells_of self.old) places.now }
        ensures cells { cells_of self.new ≡ cells_of self.old ++ (term code places.now ∷ []) }
        ensures plain { plain_of self.new (length (cells_of self.old)) ≡ plain }
        ensures others { (i : ℕ) → i < length (cells_of self.old) → plain_of self.new i ≡ plain_of self.old i }
    {
        let start = self.filled;
        let end = start + places.len();
        self.places[start..end].copy_from_slice(places);
        // proved to fit: there are at most 4,096 places, and 9 of a term
        self.entries[self.count] = Entry::Term {
            code,
            plain,
            start: start as u16,
            count: places.len() as u8,
        };
        self.count += 1;
        self.filled = end;
    }
}
