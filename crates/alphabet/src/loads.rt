ghost use Rattle.std.specs.Prelude.{refl};
ghost use Rattle.theory.specs.Meaning.{Chosen, Lowest};
ghost use Rattle.alphabet.specs.Loads.{loads, HasFamily};
ghost use Rattle.std.proofs.Common.{rules};

use crate::alphabet::Alphabet;
use crate::layering::Layering;

/// The alphabet of loads. The low 4 bits of a code are a carrier's mark, the rest is the family.
#[derive(Clone, Copy, Debug, PartialEq, Eq)]
pub struct Loads;

/// The families of loads.
#[derive(Clone, Copy, Debug, PartialEq, Eq)]
pub enum Family {
    Tote,
    Carton,
    Pallet,
    Cage,
    Kit,
}

/// The family of a code, if it has one.
pub fn family_of(code: u32) -> Option<Family>
    ensures { HasFamily code result }
{
    match code / 16 {
        1 => Some(Family::Tote),
        2 => Some(Family::Carton),
        3 => Some(Family::Pallet),
        4 => Some(Family::Cage),
        5 => Some(Family::Kit),
        _ => None,
    }
}

impl Alphabet for Loads {
    ghost meaning = { λ _. loads };

    // the leaf is a tote, code 16
    ghost lawful = { λ _. record {
      plain_known = Prim.search rules;
      plain_plain = Prim.search rules;
      plain_places = Prim.search rules;
      plain_classes = Prim.search rules;
      few_places = Prim.search rules;
      small_codes = Prim.search rules;
      eight_classes = Prim.search rules;
      other_plain = Prim.search rules;
      other_places = Prim.search rules;
      other_classes = Prim.search rules;
      has_leaf = (16, record { is_known = refl; is_plain = refl; bare = refl });
      layered = Prim.search rules;
    } };

    fn known(&self, code: u32) -> bool {
        family_of(code).is_some()
    }

    fn plain(&self, code: u32) -> u32 {
        match family_of(code) {
            Some(_) => code - code % 16,
            None => code,
        }
    }

    fn places(&self, code: u32) -> u32 {
        match family_of(code) {
            Some(Family::Pallet | Family::Cage) => 1,
            Some(Family::Kit) => 3,
            _ => 0,
        }
    }

    fn classes(&self, code: u32) -> u8 {
        match family_of(code) {
            Some(Family::Tote | Family::Carton) => 0x01,
            Some(Family::Pallet | Family::Cage) => 0x02,
            _ => 0x00,
        }
    }

    fn layering(&self) -> Option<Layering> {
        None
    }

    fn some(&self, set: u8) -> Option<u32>
        ensures chosen { Chosen loads set result }
        ensures lowest { Lowest loads set result }
    {
        match set {
            0x00 | 0x01 => Some(16),
            0x02 => Some(48),
            _ => None,
        }
    }
}
