//! The sentence that says why a plan is sent back.
ghost use Rattle.std.specs.Prelude.{◌≡◌, Some, slice_index};
ghost use Rattle.report.specs.Refusals.{refusal_text, reason_text};

use crate::texts::Word;
use plan::reader::MOST_WORDS;
use plan::refusal::{PlanFault, Refusal};
use std::fmt;

/// What sends a plan of these words back, in a sentence, as `refused with 3 at word 2: the alphabet has no code 96`.
#[derive(Clone, Copy, Debug)]
pub struct RefusalSentence<'a> {
    pub fault: PlanFault,
    pub words: &'a [u32],
}

impl fmt::Display for RefusalSentence<'_> {
    ghost output = { λ it. Some (refusal_text it.fault it.words.now) };

    fn fmt<W: fmt::Write>(&self, f: &mut fmt::Formatter<W>) -> fmt::Result {
        let PlanFault { position, refusal } = self.fault;
        let number = refusal.number();
        let reason = Reason(*self);
        write!(f, "refused with {number} at word {position}: {reason}")
    }
}

// What is wrong at the position of the fault.
#[derive(Clone, Copy)]
struct Reason<'a>(RefusalSentence<'a>);

impl fmt::Display for Reason<'_> {
    ghost output = { λ it. Some (reason_text it.0.fault.refusal it.0.fault.position it.0.words.now) };

    fn fmt<W: fmt::Write>(&self, f: &mut fmt::Formatter<W>) -> fmt::Result {
        let RefusalSentence { fault, words } = self.0;
        let PlanFault { position, refusal } = fault;
        match refusal {
            Refusal::TooLong => {
                let count = words.len();
                write!(
                    f,
                    "the plan has {count} words, and a plan has at most {MOST_WORDS}"
                )
            }
            Refusal::NotAnItem => {
                let word = Word(word_at(words, position));
                write!(f, "{word} is not the first word of an item")
            }
            Refusal::NoSuchCode(code) => write!(f, "the alphabet has no code {code}"),
            Refusal::CutShort => f.write_str("the plan ends inside this item"),
        }
    }
}

// The word at a position, or 0 past the end.
fn word_at(words: &[u32], position: usize) -> u32
    ensures { result ≡ slice_index words.now position }
{
    words.get(position).copied().unwrap_or(0)
}
