//! The line that is printed for an item of a plan.
ghost use Rattle.std.specs.Prelude.{Some};
ghost use Rattle.plan.specs.Items.{item_of};
ghost use Rattle.report.specs.Items.{item_text, of_classes_text, over_cells_text};

use crate::names::{Classes, Names, Symbol};
use crate::texts::write_comma_separated;
use plan::item::Item;
use std::fmt;

/// An item, the position of its first word, and the cell that it makes (`cell` is the number of cells before it), as
/// `word 3: cell 3 is pallet over cell 2`.
#[derive(Clone, Copy, Debug)]
pub struct ItemLine<'a> {
    pub names: Names,
    pub position: usize,
    pub cell: usize,
    pub item: &'a Item<'a>,
}

impl fmt::Display for ItemLine<'_> {
    ghost output = { λ line. Some (item_text line.names line.position line.cell (item_of line.item.now)) };

    fn fmt<W: fmt::Write>(&self, f: &mut fmt::Formatter<W>) -> fmt::Result {
        let ItemLine {
            names,
            position,
            cell,
            item,
        } = *self;
        match *item {
            Item::Unknown { set } => {
                let of = OfClasses(Classes { names, set });
                write!(f, "word {position}: cell {cell} is unknown{of}")
            }
            Item::Term { code, places } => {
                let symbol = Symbol { names, code };
                let over = OverCells(places);
                write!(f, "word {position}: cell {cell} is {symbol}{over}")
            }
            Item::Link { left, right } => {
                write!(f, "word {position}: cells {left} and {right} are linked")
            }
        }
    }
}

// The classes that must admit an unknown, where there are any.
#[derive(Clone, Copy)]
struct OfClasses(Classes);

impl fmt::Display for OfClasses {
    ghost output = { λ of. Some (of_classes_text of.0.names of.0.set) };

    fn fmt<W: fmt::Write>(&self, f: &mut fmt::Formatter<W>) -> fmt::Result {
        let classes = self.0;
        if classes.set == 0 {
            return Ok(());
        }
        write!(f, " of {classes}")
    }
}

// The cells at the places of a term.
#[derive(Clone, Copy)]
struct OverCells<'a>(&'a [u32]);

impl fmt::Display for OverCells<'_> {
    ghost output = { λ over. Some (over_cells_text over.0.now) };

    fn fmt<W: fmt::Write>(&self, f: &mut fmt::Formatter<W>) -> fmt::Result {
        match self.0 {
            [] => Ok(()),
            [cell] => write!(f, " over cell {cell}"),
            cells => {
                f.write_str(" over cells ")?;
                write_comma_separated(f, cells.iter())
            }
        }
    }
}
