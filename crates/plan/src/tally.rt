ghost use Rattle.std.specs.Prelude.{◌≡◌, ◌+◌, ◌-◌, ◌^◌, min};
ghost use Rattle.plan.specs.Items.{item_of, cells_made};
ghost use Rattle.plan.specs.Tallies.{Counts};

use crate::item::Item;
use crate::reader::Reader;
use crate::refusal::PlanFault;
use alphabet::alphabet::Alphabet;

/// How many items a plan has, and how many cells they make.
#[derive(Clone, Copy, Debug, PartialEq, Eq)]
pub struct Tally {
    pub items: usize,
    pub cells: usize,
}

impl Tally {
    /// The tally with one item more, up to the greatest number that there is.
    pub fn and(self, item: &Item) -> Tally
        ensures items { result.items ≡ min (self.items + 1) (2 ^ 64 - 1) }
        ensures cells { result.cells ≡ min (self.cells + cells_made (item_of item.now)) (2 ^ 64 - 1) }
    {
        let made = match item {
            Item::Unknown { .. } | Item::Term { .. } => 1,
            Item::Link { .. } => 0,
        };
        Tally {
            items: self.items.saturating_add(1),
            cells: self.cells.saturating_add(made),
        }
    }
}

/// Reads a whole plan and counts its items and the cells that they make, or names the first item that is refused.
pub fn count_items<A: Alphabet>(alphabet: &A, words: &[u32]) -> Result<Tally, PlanFault>
    ensures { Counts (A.meaning alphabet.now) words.now result }
{
    let mut reader = Reader::open(words)?;
    let mut tally = Tally { items: 0, cells: 0 };
    while let Some(item) = reader.next(alphabet)? {
        tally = tally.and(&item);
    }
    Ok(tally)
}
