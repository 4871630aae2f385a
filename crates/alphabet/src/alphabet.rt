ghost use Rattle.std.specs.Prelude.{◌≡◌};
ghost use Rattle.theory.specs.Meaning.{Meaning, Lawful, Chosen};
ghost use Rattle.alphabet.specs.Named.{named};

use crate::layering::Layering;

/// An alphabet says which symbols there are, each by its code, a number of 24 bits.
///
/// What it means is fixed: which codes are known, the plain code of each, its number of places, the classes that
/// admit it, and the layering. It is asked for each part, and answers by its meaning. No question is refused or
/// changes the meaning. Codes and sets are plain numbers, since alphabets of others answer the same six questions.
pub trait Alphabet {
    ghost meaning: { Self → Meaning };

    /// Whether the code is that of a symbol.
    fn known(&self, code: u32) -> bool
        ensures { result ≡ (meaning self.now).known code };

    /// The plain code of the symbol; of a code that is not known, the code itself.
    fn plain(&self, code: u32) -> u32
        ensures { result ≡ (meaning self.now).plain code };

    /// How many places the symbol has; 0 of a code that is not known.
    fn places(&self, code: u32) -> u32
        ensures { result ≡ (meaning self.now).places code };

    /// The set of the classes that admit the symbol, bit k for class k; empty of a code that is not known.
    fn classes(&self, code: u32) -> u8
        ensures { result ≡ (meaning self.now).classes code };

    /// The two codes called Pair and List, where they are named.
    fn layering(&self) -> Option<Layering>
        ensures { named result ≡ (meaning self.now).layering };

    /// A known plain code that every class of the set admits, or none where no known code is admitted by all of them;
    /// for the empty set a code without places.
    fn some(&self, set: u8) -> Option<u32>
        ensures { Chosen (meaning self.now) set result };

    // What each alphabet must keep, whatever it means.
    ghost lawful: { (s : Self) → Lawful (meaning s) };
}
