ghost use Rattle.plan.specs.Steps.{Sees};

use crate::refusal::Refusal;

// What the first word of an item says.
#[derive(Clone, Copy)]
pub enum Head {
    Unknown(u8),
    Term(u32),
    Link,
}

impl TryFrom<u32> for Head {
    type Error = Refusal;

    ghost try_from_gives = { Sees };

    fn try_from(word: u32) -> Result<Head, Refusal> {
        match word.to_be_bytes() {
            [0x11, 0, 0, set] => Ok(Head::Unknown(set)),
            [0x12, high, middle, low] => Ok(Head::Term(u32::from_be_bytes([0, high, middle, low]))),
            [0x13, 0, 0, 0] => Ok(Head::Link),
            _ => Err(Refusal::NotAnItem),
        }
    }
}
