//! The number that a token spells.
ghost use Rattle.std.specs.Prelude.{◌<◌, ◌≤◌, SomeIff};
ghost use Rattle.std.specs.Char.{digit_value};
ghost use Rattle.words.specs.Spelling.{Digit, Finds, Numeral, Spells};

/// The number that the token spells, in decimal or in hexadecimal after `0x`: `None` where it spells none that is
/// below 2^32.
// Out of line: laid into the loop over a text, the same instructions took up to 1.7 times the time on long numbers.
#[inline(never)]
pub fn number_of(token: &[u8]) -> Option<u32>
    ensures { Finds (Spells token.now) result }
{
    match token.strip_prefix(b"0x") {
        Some(digits) => numeral_value(16, digits),
        None => numeral_value(10, token),
    }
}

/// The number that the digits write in the base: `None` where there is none of them, one is no digit of the base, or
/// the number is not below 2^32.
#[tactic(auto, using(crate::proofs::Numerals::numerals))]
fn numeral_value(base: u32, digits: &[u8]) -> Option<u32>
    requires some { 0 < base }
    requires at_most_hexadecimal { base ≤ 16 }
    ensures { Finds (Numeral base digits.now) result }
{
    if digits.is_empty() {
        return None;
    }
    // `u32::from_str_radix` would read a plus sign too. A `try_fold` was tried: its last goal stays open, and it is no shorter.
    let mut value: u32 = 0;
    for byte in digits {
        let digit = value_of_digit(base, *byte)?;
        value = value.checked_mul(base)?.checked_add(digit)?;
    }
    Some(value)
}

/// The value of the byte as a digit of the base.
// By `char::to_digit`, which goes through all letters before it looks at the base, long numbers took up to 1.3 times the time.
// Above base 16 the library's digits go on with g, and those of a numeral do not.
fn value_of_digit(base: u32, byte: u8) -> Option<u32>
    requires { base ≤ 16 }
    ensures found { Finds (λ d. Digit byte d × (d < base)) result }
    ensures value { SomeIff result (digit_value byte < base) (digit_value byte) }
{
    let value = match byte {
        b'0'..=b'9' => byte - b'0',
        b'a'..=b'f' => byte - b'a' + 10,
        b'A'..=b'F' => byte - b'A' + 10,
        _ => return None,
    };
    let value = u32::from(value);
    if value < base { Some(value) } else { None }
}
