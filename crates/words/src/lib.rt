//! The words of a text: numbers of 32 bits, in decimal or in hexadecimal after `0x`, with white space between them and
//! comments from `#` to the end of the line.
#![tactic(auto)]

mod number;

ghost use Rattle.std.specs.Prelude.{◌≡◌, ◌↔◌, true, false, ◌++◌, IsTrue, IfSome, MatchResult, slice_get, All};
ghost use Rattle.words.specs.Answer.{Refuses};
ghost use Rattle.words.specs.declared.TextError.TheVariants.{Memory};
ghost use Rattle.words.specs.Reading.{White, Solid, Inline, words, OneReading, EveryTextHasOneReading};

pub use number::number_of;
use std::alloc::{AllocFailed, Global};

/// A token that cannot be read, and the line in which it stands, from 1.
#[derive(Clone, Copy, Debug, PartialEq, Eq)]
pub struct Unreadable<'a> {
    pub line: usize,
    pub token: &'a [u8],
}

// No `Display`: the program prints an unreadable token by the sentence that `report` defines.
/// Why the words of a text cannot be given.
#[derive(Clone, Copy, Debug, PartialEq, Eq)]
pub enum TextError<'a> {
    /// The first token that cannot be read.
    Unreadable(Unreadable<'a>),
    /// There is no memory for the words.
    Memory,
}

impl<'a> From<AllocFailed<u32>> for TextError<'a> {
    ghost from_gives = { λ _ e. e ≡ Memory };

    fn from(_error: AllocFailed<u32>) -> TextError<'a> {
        TextError::Memory
    }
}

/// Whether the byte is white space: tab to carriage return, or space.
fn is_white(byte: u8) -> bool
    ensures { IsTrue result ↔ White byte }
{
    // `is_ascii_whitespace` leaves the vertical tab out.
    matches!(byte, b'\t'..=b'\r' | b' ')
}

/// Whether the byte can stand in a token.
fn is_solid(byte: u8) -> bool
    ensures { IsTrue result ↔ Solid byte }
{
    !is_white(byte) && byte != b'#'
}

/// Whether the byte can stand in a comment.
fn is_inline(byte: u8) -> bool
    ensures { IsTrue result ↔ Inline byte }
{
    byte != b'\n'
}

/// Splits the text behind its longest front whose bytes belong.
fn cut<F: Fn(u8) -> bool>(text: &[u8], belongs: F) -> (&[u8], &[u8])
    requires { F.IsAlwaysCallable belongs }
    ensures whole { text.now ≡ result.0.now ++ result.1.now }
    ensures front { All (λ b. F.post belongs b true) result.0.now }
    ensures end { IfSome (slice_get result.1.now 0) (λ b. F.post belongs b false) }
{
    // A loop: by `take_while(..).count()` each byte of a token took 1.6 times the time.
    for (i, byte) in text.iter().enumerate() {
        if !belongs(*byte) {
            return text.split_at(i);
        }
    }
    text.split_at(text.len())
}

/// The words of the text, or the first token that cannot be read; want of memory is told only where there is a word to
/// keep.
pub fn words_of<'a>(heap: Global, text: &'a [u8]) -> Result<Vec<u32>, TextError<'a>>
    ensures { MatchResult result (λ v. OneReading 1 text.now (words v.items)) (Refuses text.now) }
{
    let mut found = Vec::new(heap);
    let mut line: usize = 1;
    let mut rest = text;
    while let [first, tail @ ..] = rest {
        match *first {
            b'\n' => {
                line += 1;
                rest = tail;
            }
            b'#' => rest = cut(tail, is_inline).1,
            byte if is_white(byte) => rest = tail,
            _ => {
                let (token, after) = cut(rest, is_solid);
                let unreadable = TextError::Unreadable(Unreadable { line, token });
                let word = number_of(token).ok_or(unreadable)?;
                found.push(word)?;
                rest = after;
            }
        }
    }
    Ok(found)
}

/// Every text has one outcome: its words, or the first token that cannot be read.
pub fn every_text_has_one_reading()
    ensures { EveryTextHasOneReading }
{}

#[cfg(test)]
mod tests {
    use super::*;
    use std::process::Abort;
    use std::test::Fail;

    fn reads(rt: &(impl Abort + AllocGlobal), text: &[u8], words: &[u32]) -> Result<(), Fail> {
        let found = words_of(rt.alloc(), text)?;
        assert_eq!(rt; found.as_slice(), words);
        Ok(())
    }

    fn refuses(
        rt: &(impl Abort + AllocGlobal),
        text: &[u8],
        line: usize,
        token: &[u8],
    ) -> Result<(), Fail> {
        let fault = TextError::Unreadable(Unreadable { line, token });
        assert_eq!(rt; words_of(rt.alloc(), text).err(), Some(fault));
        Ok(())
    }

    #[test]
    fn tokens_that_spell_a_number(rt: HostRuntime) {
        assert_eq!(rt; number_of(b"4294967295"), Some(4294967295));
        assert_eq!(rt; number_of(b"0xaBcDeF09"), Some(0xabcdef09));
        assert_eq!(rt; number_of(b"0000000000000007"), Some(7));
        assert_eq!(rt; number_of(b"0x0000000000000010"), Some(16));
    }

    #[test]
    fn tokens_that_spell_none(rt: HostRuntime) {
        let tokens: [&[u8]; 9] = [
            b"4294967296",
            b"0x100000000",
            b"0x",
            b"0X10",
            b"+1",
            b"-1",
            b"1_0",
            b"1a",
            b"",
        ];
        for token in tokens {
            assert_eq!(rt; number_of(token), None);
        }
    }

    #[test]
    fn texts_of_words(rt: HostRuntime) -> Result<(), Fail> {
        reads(&rt, b"", &[])?;
        reads(&rt, b"# no word\n\n", &[])?;
        reads(&rt, b"1 0x2\r\n\t003\x0b4\x0c5\n", &[1, 2, 3, 4, 5])?;
        reads(&rt, b"6#7 \xff\n8 #9", &[6, 8])
    }

    #[test]
    fn texts_with_a_fault(rt: HostRuntime) -> Result<(), Fail> {
        refuses(&rt, b"one", 1, b"one")?;
        refuses(&rt, b"1\n# two\n\n 3 4x#5\nsix", 4, b"4x")?;
        refuses(&rt, b"1\r\n2 caf\xc3\xa9 3", 2, b"caf\xc3\xa9")
    }
}
