//! How many there are of something.
ghost use Rattle.std.specs.Prelude.{Some};
ghost use Rattle.report.specs.Counts.{with_noun_text, counts_text};

use plan::tally::Tally;
use std::fmt;

/// How many items, cells and words a plan has, as `6 items, 1 cell, 12 words`.
#[derive(Clone, Copy, Debug)]
pub struct PlanCounts {
    pub tally: Tally,
    pub words: usize,
}

impl fmt::Display for PlanCounts {
    ghost output = { λ counts. Some (counts_text counts.tally.items counts.tally.cells counts.words) };

    fn fmt<W: fmt::Write>(&self, f: &mut fmt::Formatter<W>) -> fmt::Result {
        let items = WithNoun(self.tally.items, "item", "items");
        let cells = WithNoun(self.tally.cells, "cell", "cells");
        let words = WithNoun(self.words, "word", "words");
        write!(f, "{items}, {cells}, {words}")
    }
}

// A number, and its noun in the singular and in the plural.
#[derive(Clone, Copy)]
struct WithNoun(usize, &'static str, &'static str);

impl fmt::Display for WithNoun {
    ghost output = { λ it. Some (with_noun_text it.0 it.1.now it.2.now) };

    fn fmt<W: fmt::Write>(&self, f: &mut fmt::Formatter<W>) -> fmt::Result {
        let WithNoun(count, one, many) = *self;
        if count == 1 {
            write!(f, "{count} {one}")
        } else {
            write!(f, "{count} {many}")
        }
    }
}
