//! Texts that others are made of.
ghost use Rattle.std.specs.Prelude.{◌≡◌, List, ℕ, map, IsOk, Some};
ghost use Rattle.std.specs.Fmt.{HasWritten, IsPlainFormatter};
ghost use Rattle.std.specs.Iterator.{IsFinite};
ghost use Rattle.std.specs.Iterator.Runs.{WholeRun};
ghost use Rattle.report.specs.Texts.{ShownAs, comma_separated_text, text_of_word};

use std::fmt;

/// A word, shown as 0x and eight hexadecimal digits in lower case, as `0x1300000a`.
#[derive(Clone, Copy, Debug)]
pub struct Word(pub u32);

#[tactic(auto, using(crate::proofs::Hexadecimal::hexadecimal_is_padded))]
impl fmt::Display for Word {
    ghost output = { λ word. Some (text_of_word word.0) };

    fn fmt<W: fmt::Write>(&self, f: &mut fmt::Formatter<W>) -> fmt::Result {
        let word = self.0;
        write!(f, "0x{word:08x}")
    }
}

// Writes values with a comma and a space between. `text` is how each is shown.
// `Formatter::write_joined` would do this too, but its contract does not say what it writes.
pub(crate) fn write_comma_separated<W: fmt::Write, T: fmt::Display + Drop, I: Iterator<Item = T>>(
    f: &mut fmt::Formatter<W>,
    values: I,
) -> fmt::Result
    requires can { I.can_next values }
    requires ends { IsFinite (I.remaining values) }
    ensures { (text : T → List ℕ) → ShownAs T.output text → IsPlainFormatter f.old → IsOk result
        → WholeRun I.next_gives values (λ run.
        HasWritten W.write_str_gives f.old (comma_separated_text (map text run.items)) f.new) }
{
    let mut separator = "";
    for value in values {
        write!(f, "{separator}{value}")?;
        separator = ", ";
    }
    Ok(())
}
