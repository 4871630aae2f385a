//! The names of codes and classes.
ghost use Rattle.std.specs.Prelude.{◌≡◌, ◌<◌, Some, codes};
ghost use Rattle.std.specs.Fmt.{WritesOnOk};
ghost use Rattle.theory.specs.Meaning.{has};
ghost use Rattle.report.specs.Names.{symbol_text, class_text, classes_text, ParsesNames};

use crate::texts::write_comma_separated;
use alphabet::loads::{Family, family_of};
use alphabet::types::{self, symbol_of};
use std::error::Error;
use std::fmt;
use std::str::FromStr;

/// Which names are printed for codes and classes.
#[derive(Clone, Copy, Debug, PartialEq, Eq)]
pub enum Names {
    /// The names of the types of scripts.
    Types,
    /// The names of loads.
    Loads,
}

/// Why a word cannot be read as names: it is that of none.
#[derive(Clone, Copy, Debug, PartialEq, Eq)]
pub struct UnknownNames;

impl fmt::Display for UnknownNames {
    ghost output = { λ _. Some (codes "the names are loads or types") };

    fn fmt<W: fmt::Write>(&self, f: &mut fmt::Formatter<W>) -> fmt::Result {
        f.write_str("the names are loads or types")
    }
}

impl Error for UnknownNames {}

/// Reads the word by which names are asked for, as on a command line.
impl FromStr for Names {
    type Err = UnknownNames;

    ghost from_str_gives = { ParsesNames };

    fn from_str(word: &str) -> Result<Names, UnknownNames> {
        match word {
            "types" => Ok(Names::Types),
            "loads" => Ok(Names::Loads),
            _ => Err(UnknownNames),
        }
    }
}

/// The symbol of a code. A code that is no symbol's is shown as a number.
#[derive(Clone, Copy, Debug)]
pub struct Symbol {
    pub names: Names,
    pub code: u32,
}

impl fmt::Display for Symbol {
    ghost output = { λ symbol. Some (symbol_text symbol.names symbol.code) };

    fn fmt<W: fmt::Write>(&self, f: &mut fmt::Formatter<W>) -> fmt::Result {
        match self.names {
            Names::Types => write_type(f, self.code),
            Names::Loads => write_load(f, self.code),
        }
    }
}

fn write_type<W: fmt::Write>(f: &mut fmt::Formatter<W>, code: u32) -> fmt::Result
    ensures { WritesOnOk W.write_str_gives f.old result (symbol_text Names.Types code) f.new }
{
    let symbol = symbol_of(code);
    match symbol {
        Some(types::Symbol::Number) => f.write_str("number"),
        Some(types::Symbol::Bool) => f.write_str("bool"),
        Some(types::Symbol::Text) => f.write_str("string"),
        Some(types::Symbol::Undefined) => f.write_str("undefined"),
        Some(types::Symbol::Pair) => f.write_str("Pair"),
        Some(types::Symbol::List) => f.write_str("List"),
        Some(types::Symbol::Array) => f.write_str("Array"),
        Some(types::Symbol::Function { parameters }) => write!(f, "F{parameters}"),
        None => write!(f, "code {code}"),
    }
}

fn write_load<W: fmt::Write>(f: &mut fmt::Formatter<W>, code: u32) -> fmt::Result
    ensures { WritesOnOk W.write_str_gives f.old result (symbol_text Names.Loads code) f.new }
{
    let family = match family_of(code) {
        Some(Family::Tote) => "tote",
        Some(Family::Carton) => "carton",
        Some(Family::Pallet) => "pallet",
        Some(Family::Cage) => "cage",
        Some(Family::Kit) => "kit",
        None => return write!(f, "code {code}"),
    };
    match code % 16 {
        0 => f.write_str(family),
        mark => write!(f, "{family} mark {mark}"),
    }
}

/// The classes of a set, lowest first, with a comma and a space between.
#[derive(Clone, Copy, Debug)]
pub struct Classes {
    pub names: Names,
    pub set: u8,
}

impl fmt::Display for Classes {
    ghost output = { λ classes. Some (classes_text classes.names classes.set) };

    fn fmt<W: fmt::Write>(&self, f: &mut fmt::Formatter<W>) -> fmt::Result {
        let Classes { names, set } = *self;
        let classes = (0..8)
            .filter(|class| contains(set, *class))
            .map(|class| Class { names, class });
        write_comma_separated(f, classes)
    }
}

fn contains(set: u8, class: u8) -> bool
    requires { class < 8 }
    ensures { result ≡ has set class }
{
    (set >> class) % 2 == 1
}

// A class.
#[derive(Clone, Copy)]
struct Class {
    names: Names,
    class: u8,
}

impl fmt::Display for Class {
    ghost output = { λ it. Some (class_text it.names it.class) };

    fn fmt<W: fmt::Write>(&self, f: &mut fmt::Formatter<W>) -> fmt::Result {
        let class = self.class;
        match (self.names, class) {
            (Names::Types, 0) => f.write_str("addable"),
            (Names::Loads, 0) => f.write_str("belt"),
            (Names::Loads, 1) => f.write_str("floor"),
            _ => write!(f, "class {class}"),
        }
    }
}
