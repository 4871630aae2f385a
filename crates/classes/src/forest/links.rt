ghost use Rattle.std.specs.Prelude.{◌≡◌, ◌<◌, ◌≤◌, ◌≢◌, nat_lt};
ghost use Rattle.classes.specs.Views.{count_of, links_of, label_of, size_of, lower_of, upper_of, old_shape_of};
ghost use Rattle.classes.specs.Moves.{Linked, Reshaped, Rewound};
ghost use Rattle.classes.specs.Rewinding.{Undone};

use crate::forest::{Class, Classes, Entry};
use crate::link::Link;

// As for cells: classes go by numbers of cells, so each call that needs it asks that a number is one.
impl Classes {
    /// How many links were made and not undone.
    pub fn links(&self) -> usize
        ensures { result ≡ links_of self.now }
    {
        self.links
    }

    /// Whether the class `x` has more cells than the class `y`.
    #[tactic(auto, unfolding(crate::specs::Views::class_of))]
    pub fn outweighs(&self, x: u16, y: u16) -> bool
        requires { (x < count_of self.now) × (y < count_of self.now) }
        ensures { result ≡ nat_lt (size_of self.now y) (size_of self.now x) }
    {
        self.classes[usize::from(x)].size > self.classes[usize::from(y)].size
    }

    /// Puts the class `x` under the class `y`, which gets the shape and the union of both sets.
    pub fn link(&mut self, x: u16, y: u16, shape: u16)
        requires cells { (x < count_of self.old) × (y < count_of self.old) }
        requires classes { (label_of self.old x ≡ x) × (label_of self.old y ≡ y) }
        requires apart { x ≢ y }
        ensures { Linked x y shape self.old self.new }
    {
        let (lower, upper) = (usize::from(x), usize::from(y));
        // Field by field, as a class is written: a read of all at once would wait for the writes.
        let was = Class {
            size: self.classes[upper].size,
            shape: self.classes[upper].shape,
            set: self.classes[upper].set,
        };
        self.trail[self.links] = Entry { lower: x, was };
        self.parents[lower] = y;
        self.classes[upper] = Class {
            // No fact bounds a size, since sizes only say which class to put under which.
            size: was.size.wrapping_add(self.classes[lower].size),
            shape,
            set: was.set | self.classes[lower].set,
        };
        self.links += 1;
    }

    /// The link with number `k`, counted from the oldest.
    #[tactic(auto, using(crate::proofs::LabelLaws::lower_within), unfolding(crate::specs::Views::entry_of, crate::specs::Views::upper_of))]
    pub fn entry(&self, k: usize) -> Link
        requires { k < links_of self.now }
        ensures lower { result.lower ≡ lower_of self.now k }
        ensures upper { result.upper ≡ upper_of self.now k }
        ensures old_shape { result.old_shape ≡ old_shape_of self.now k }
    {
        let Entry { lower, was } = self.trail[k];
        Link {
            lower,
            upper: self.parents[usize::from(lower)],
            old_shape: was.shape,
        }
    }

    /// Gives the shape to the class that another went under by the link with number `k`.
    pub fn reshape(&mut self, k: usize, shape: u16)
        requires { k < links_of self.old }
        ensures { Reshaped k shape self.old self.new }
    {
        let upper = self.entry(k).upper;
        self.classes[usize::from(upper)].shape = shape;
    }

    /// Undoes the links from the last back to number `mark`.
    pub fn rewind(&mut self, mark: usize)
        requires { mark ≤ links_of self.old }
        ensures { Rewound mark self.old self.new }
    {
        for _ in mark..self.links {
            self.undo();
        }
    }

    /// Undoes the last link.
    #[tactic(auto, using(crate::proofs::LabelLaws::lower_within, crate::proofs::LabelLaws::upper_within), unfolding(crate::specs::Views::entry_of, crate::specs::Views::upper_of))]
    fn undo(&mut self)
        requires { 0 < links_of self.old }
        ensures { Undone self.old self.new }
    {
        self.links -= 1;
        let Entry { lower, was } = self.trail[self.links];
        let upper = self.parents[usize::from(lower)];
        self.parents[usize::from(lower)] = lower;
        self.classes[usize::from(upper)] = was;
    }
}
