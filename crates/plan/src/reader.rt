ghost use Rattle.std.specs.Prelude.{◌≡◌, ◌^◌, ◌<◌, length};
ghost use Rattle.theory.specs.Meaning.{Meaning};
ghost use Rattle.plan.specs.Items.{first_word, written, item_of};
ghost use Rattle.plan.specs.Openings.{Opens};
ghost use Rattle.plan.specs.Answers.{HandsOut, TakesOnward};
ghost use Rattle.plan.specs.Steps.{Headed, Finds};

use crate::head::Head;
use crate::item::Item;
use crate::refusal::{PlanFault, Refusal};
use alphabet::alphabet::Alphabet;

/// The most words that a plan may have.
pub const MOST_WORDS: usize = 8192;

/// Reads a plan from the front, and keeps its position. The places of a term that it hands out are a part of the plan.
#[derive(Clone, Copy, Debug)]
pub struct Reader<'a> {
    words: &'a [u32],
    position: usize,
}

// The item that begins at the front of the words.
fn first_item<'a, A: Alphabet>(alphabet: &A, words: &'a [u32]) -> Result<Item<'a>, Refusal>
    requires { 0 < length words.now }
    ensures { Finds (A.meaning alphabet.now) words.now result }
{
    match Head::try_from(words[0])? {
        Head::Unknown(set) => Ok(Item::Unknown { set }),
        Head::Term(code) => term_after(alphabet, code, words),
        Head::Link => link_after(words),
    }
}

// The term of a code whose first word the words begin with.
fn term_after<'a, A: Alphabet>(
    alphabet: &A,
    code: u32,
    words: &'a [u32],
) -> Result<Item<'a>, Refusal>
    requires { (Headed (first_word 0x12 code) words.now) × (code < 2 ^ 24) }
    ensures { Finds (A.meaning alphabet.now) words.now result }
{
    if !alphabet.known(code) {
        return Err(Refusal::NoSuchCode(code));
    }
    // `usize` has no `From<u32>`
    let count = alphabet.places(code) as usize;
    let Some(places) = words.get(1..1 + count) else {
        return Err(Refusal::CutShort);
    };
    Ok(Item::Term { code, places })
}

// The link whose first word the words begin with.
fn link_after<'a>(words: &'a [u32]) -> Result<Item<'a>, Refusal>
    requires { Headed (first_word 0x13 0) words.now }
    ensures { (m : Meaning) → Finds m words.now result }
{
    let [_, left, right, ..] = *words else {
        return Err(Refusal::CutShort);
    };
    Ok(Item::Link { left, right })
}

// How many words the item is written in.
fn span_of(item: &Item) -> usize
    requires { length (written (item_of item.now)) < 2 ^ 64 }
    ensures { result ≡ length (written (item_of item.now)) }
{
    match item {
        Item::Unknown { .. } => 1,
        Item::Term { places, .. } => 1 + places.len(),
        Item::Link { .. } => 3,
    }
}

impl<'a> Reader<'a> {
    /// Opens a plan at its front. A plan of more than 8,192 words is refused.
    pub fn open(words: &'a [u32]) -> Result<Reader<'a>, PlanFault>
        ensures { Opens words.now result }
    {
        if words.len() > MOST_WORDS {
            return Err(PlanFault {
                position: 0,
                refusal: Refusal::TooLong,
            });
        }
        Ok(Reader { words, position: 0 })
    }

    /// How many words have been read.
    pub fn position(&self) -> usize
        ensures { result ≡ self.now.position }
    {
        self.position
    }

    /// The next item, or none at the end of the plan. Where it is refused, the reader stays where it is.
    pub fn next<A: Alphabet>(&mut self, alphabet: &A) -> Result<Option<Item<'a>>, PlanFault>
        ensures same { self.new.words.now ≡ self.old.words.now }
        ensures hands_out { HandsOut (A.meaning alphabet.now) self.old.words.now self.old.position result self.new.position }
        ensures onward { TakesOnward self.old.words.now self.old.position result self.new.position }
    {
        let words = self.words;
        let position = self.position;
        if position >= words.len() {
            return Ok(None);
        }
        let item = first_item(alphabet, &words[position..]).map_err(|refusal| PlanFault {
            position,
            refusal,
        })?;
        *self = Reader {
            words,
            position: position + span_of(&item),
        };
        Ok(Some(item))
    }
}
