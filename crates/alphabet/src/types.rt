ghost use Rattle.std.specs.Prelude.{◌≡◌, refl};
ghost use Rattle.theory.specs.Meaning.{Chosen, Lowest};
ghost use Rattle.alphabet.specs.Types.{types, HasSymbol};
ghost use Rattle.std.proofs.Common.{rules};

use crate::alphabet::Alphabet;
use crate::layering::Layering;

/// The alphabet of the types of scripts.
#[derive(Clone, Copy, Debug, PartialEq, Eq)]
pub struct Types;

/// The symbols of types.
#[derive(Clone, Copy, Debug, PartialEq, Eq)]
pub enum Symbol {
    Number,
    Bool,
    Text,
    Undefined,
    Pair,
    List,
    Array,
    Function { parameters: u32 },
}

/// The symbol of a code, if it has one.
pub fn symbol_of(code: u32) -> Option<Symbol>
    ensures { HasSymbol code result }
{
    match code {
        0 => Some(Symbol::Number),
        1 => Some(Symbol::Bool),
        2 => Some(Symbol::Text),
        3 => Some(Symbol::Undefined),
        4 => Some(Symbol::Pair),
        5 => Some(Symbol::List),
        6 => Some(Symbol::Array),
        16..=24 => Some(Symbol::Function {
            parameters: code - 16,
        }),
        _ => None,
    }
}

impl Alphabet for Types {
    ghost meaning = { λ _. types };

    // the leaf is a number, code 0
    ghost lawful = { λ _. record {
      plain_known = Prim.search rules;
      plain_plain = Prim.search rules;
      plain_places = Prim.search rules;
      plain_classes = Prim.search rules;
      few_places = Prim.search rules;
      small_codes = Prim.search rules;
      eight_classes = Prim.search rules;
      other_plain = Prim.search rules;
      other_places = Prim.search rules;
      other_classes = Prim.search rules;
      has_leaf = (0, record { is_known = refl; is_plain = refl; bare = refl });
      layered = Prim.search rules;
    } };

    fn known(&self, code: u32) -> bool {
        symbol_of(code).is_some()
    }

    fn plain(&self, code: u32) -> u32 {
        code
    }

    fn places(&self, code: u32) -> u32 {
        match symbol_of(code) {
            Some(Symbol::Pair) => 2,
            Some(Symbol::List | Symbol::Array) => 1,
            Some(Symbol::Function { parameters }) => parameters + 1,
            _ => 0,
        }
    }

    fn classes(&self, code: u32) -> u8 {
        match symbol_of(code) {
            Some(Symbol::Number | Symbol::Text) => 0x01,
            _ => 0x00,
        }
    }

    fn layering(&self) -> Option<Layering> {
        Some(Layering { pair: 4, list: 5 })
    }

    fn some(&self, set: u8) -> Option<u32>
        ensures chosen { Chosen types set result }
        ensures lowest { Lowest types set result }
    {
        match set {
            0x00 | 0x01 => Some(0),
            _ => None,
        }
    }
}
