ghost use Rattle.std.specs.Prelude.{◌≡◌, ℕ, ◌<◌};
ghost use Rattle.classes.specs.Views.{count_of, links_of, label_of, shape_of, set_of};
ghost use Rattle.classes.specs.Moves.{Added};

use crate::forest::{Class, Classes, Entry};

// Cells go by the numbers that callers bring, and cells are added between calls, so no type of its own can say that a number
// is one: each call that needs it asks for it.
impl Classes {
    /// No cells and no links.
    pub fn open() -> Classes
        ensures count { count_of result ≡ 0 }
        ensures links { links_of result ≡ 0 }
        ensures labels { (i : ℕ) → label_of result i ≡ i }
    {
        Classes {
            parents: [0; 2048],
            classes: [Class::default(); 2048],
            trail: [Entry::default(); 2048],
            count: 0,
            links: 0,
        }
    }

    /// How many cells there are.
    pub fn count(&self) -> usize
        ensures { result ≡ count_of self.now }
    {
        self.count
    }

    /// Adds a cell that is a class by itself. It gets the number that the count was.
    pub fn add(&mut self, shape: u16, set: u8)
        requires { count_of self.old < 2048 }
        ensures { Added shape set self.old self.new }
    {
        let cell = self.count;
        // proved to fit: there are at most 2,048 cells
        self.parents[cell] = cell as u16;
        self.classes[cell] = Class {
            size: 1,
            shape,
            set,
        };
        self.count += 1;
    }

    /// The representative of the cell's class.
    #[tactic(auto, using(crate::proofs::LabelLaws::own_label, crate::proofs::LabelLaws::parent_label, crate::proofs::LabelLaws::time_rises))]
    pub fn find(&self, cell: u16) -> u16
        requires { cell < count_of self.now }
        ensures value { result ≡ label_of self.now cell }
        ensures within { result < count_of self.now }
        ensures own { label_of self.now result ≡ result }
    {
        let mut at = cell;
        while self.parents[usize::from(at)] != at {
            at = self.parents[usize::from(at)];
        }
        at
    }

    /// The shape of the class, by its representative.
    #[tactic(auto, unfolding(crate::specs::Views::class_of))]
    pub fn shape(&self, class: u16) -> u16
        requires { class < count_of self.now }
        ensures { result ≡ shape_of self.now class }
    {
        self.classes[usize::from(class)].shape
    }

    /// The set of the class, by its representative.
    #[tactic(auto, unfolding(crate::specs::Views::class_of))]
    pub fn set(&self, class: u16) -> u8
        requires { class < count_of self.now }
        ensures { result ≡ set_of self.now class }
    {
        self.classes[usize::from(class)].set
    }
}
