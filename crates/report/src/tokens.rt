//! The sentence about a word of a text that cannot be read.
ghost use Rattle.std.specs.Prelude.{◌≡◌, Some};
ghost use Rattle.std.specs.List.{flat_map};
ghost use Rattle.report.specs.Tokens.{plain, byte_text, token_text, unreadable_text};

use std::fmt;
use std::fmt::Display;
use words::Unreadable;

/// The most bytes of a token that are shown.
const MOST_SHOWN: usize = 40;

/// A word of a text that cannot be read. At most its first 40 bytes are shown, and a byte that is not printable ASCII, a
/// quotation mark or a backslash as `\x` and two hexadecimal digits.
#[derive(Clone, Copy, Debug)]
pub struct UnreadableSentence<'a>(pub Unreadable<'a>);

impl fmt::Display for UnreadableSentence<'_> {
    ghost output = { λ it. Some (unreadable_text it.0.line it.0.token.now) };

    fn fmt<W: fmt::Write>(&self, f: &mut fmt::Formatter<W>) -> fmt::Result {
        let Unreadable { line, token } = self.0;
        let shown = Shown(token);
        write!(
            f,
            "line {line}: cannot read \"{shown}\" as a word (decimal, or hexadecimal after 0x, below 4294967296)"
        )
    }
}

// The first bytes of a token, and three dots where more were cut.
#[derive(Clone, Copy)]
struct Shown<'a>(&'a [u8]);

impl fmt::Display for Shown<'_> {
    ghost output = { λ it. Some (token_text it.0.now) };

    fn fmt<W: fmt::Write>(&self, f: &mut fmt::Formatter<W>) -> fmt::Result {
        let token = self.0;
        if token.len() <= MOST_SHOWN {
            return Escaped(token).fmt(f);
        }
        let start = Escaped(&token[0..MOST_SHOWN]);
        write!(f, "{start}...")
    }
}

// Bytes, one after another.
#[derive(Clone, Copy)]
struct Escaped<'a>(&'a [u8]);

impl fmt::Display for Escaped<'_> {
    ghost output = { λ it. Some (flat_map byte_text it.0.now) };

    fn fmt<W: fmt::Write>(&self, f: &mut fmt::Formatter<W>) -> fmt::Result {
        for byte in self.0 {
            EscapedByte(*byte).fmt(f)?;
        }
        Ok(())
    }
}

// A byte as it stands or, unless it is plain, by its number.
#[derive(Clone, Copy)]
struct EscapedByte(u8);

#[tactic(auto, using(crate::proofs::Hexadecimal::hexadecimal_is_padded))]
impl fmt::Display for EscapedByte {
    ghost output = { λ it. Some (byte_text it.0) };

    fn fmt<W: fmt::Write>(&self, f: &mut fmt::Formatter<W>) -> fmt::Result {
        let byte = self.0;
        if is_plain(byte) {
            f.write_char(char::from(byte))
        } else {
            write!(f, "\\x{byte:02x}")
        }
    }
}

// Printable ASCII, but for the quotation mark and the backslash.
fn is_plain(byte: u8) -> bool
    ensures { result ≡ plain byte }
{
    matches!(byte, b' '..=b'~') && byte != b'"' && byte != b'\\'
}
