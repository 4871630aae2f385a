use crate::alphabet::Alphabet;
use crate::layering::Layering;
use crate::loads::{Family, Loads, family_of};
use crate::types::{Symbol, Types, symbol_of};
use std::process::Abort;

// The codes that a row speaks of, and what an alphabet answers about each of them. The plain code is `plain`, or the
// code itself where that is none.
struct Row {
    from: u32,
    to: u32,
    known: bool,
    plain: Option<u32>,
    places: u32,
    classes: u8,
}

const TYPES: [Row; 11] = [
    Row {
        from: 0,
        to: 0,
        known: true,
        plain: None,
        places: 0,
        classes: 1,
    },
    Row {
        from: 1,
        to: 1,
        known: true,
        plain: None,
        places: 0,
        classes: 0,
    },
    Row {
        from: 2,
        to: 2,
        known: true,
        plain: None,
        places: 0,
        classes: 1,
    },
    Row {
        from: 3,
        to: 3,
        known: true,
        plain: None,
        places: 0,
        classes: 0,
    },
    Row {
        from: 4,
        to: 4,
        known: true,
        plain: None,
        places: 2,
        classes: 0,
    },
    Row {
        from: 5,
        to: 6,
        known: true,
        plain: None,
        places: 1,
        classes: 0,
    },
    Row {
        from: 7,
        to: 15,
        known: false,
        plain: None,
        places: 0,
        classes: 0,
    },
    Row {
        from: 16,
        to: 16,
        known: true,
        plain: None,
        places: 1,
        classes: 0,
    },
    Row {
        from: 24,
        to: 24,
        known: true,
        plain: None,
        places: 9,
        classes: 0,
    },
    Row {
        from: 25,
        to: 40,
        known: false,
        plain: None,
        places: 0,
        classes: 0,
    },
    Row {
        from: 0x0100_0000,
        to: 0x0100_0018,
        known: false,
        plain: None,
        places: 0,
        classes: 0,
    },
];

const LOADS: [Row; 8] = [
    Row {
        from: 0,
        to: 15,
        known: false,
        plain: None,
        places: 0,
        classes: 0,
    },
    Row {
        from: 16,
        to: 31,
        known: true,
        plain: Some(16),
        places: 0,
        classes: 1,
    },
    Row {
        from: 32,
        to: 47,
        known: true,
        plain: Some(32),
        places: 0,
        classes: 1,
    },
    Row {
        from: 48,
        to: 63,
        known: true,
        plain: Some(48),
        places: 1,
        classes: 2,
    },
    Row {
        from: 64,
        to: 79,
        known: true,
        plain: Some(64),
        places: 1,
        classes: 2,
    },
    Row {
        from: 80,
        to: 95,
        known: true,
        plain: Some(80),
        places: 3,
        classes: 0,
    },
    Row {
        from: 96,
        to: 112,
        known: false,
        plain: None,
        places: 0,
        classes: 0,
    },
    Row {
        from: 0x0100_0010,
        to: 0x0100_0060,
        known: false,
        plain: None,
        places: 0,
        classes: 0,
    },
];

fn check_row<A: Alphabet>(rt: &impl Abort, alphabet: &A, row: &Row) {
    for code in row.from..=row.to {
        let plain = row.plain.unwrap_or(code);
        assert_eq!(rt; alphabet.known(code), row.known);
        assert_eq!(rt; alphabet.plain(code), plain);
        assert_eq!(rt; alphabet.places(code), row.places);
        assert_eq!(rt; alphabet.classes(code), row.classes);
    }
}

#[test]
fn each_type_code(rt: HostRuntime) {
    for row in &TYPES {
        check_row(&rt, &Types, row);
    }
    for parameters in 0..=8 {
        let code = 16 + parameters;
        assert!(rt; Types.known(code));
        assert_eq!(rt; Types.plain(code), code);
        assert_eq!(rt; Types.places(code), parameters + 1);
        assert_eq!(rt; Types.classes(code), 0);
    }
    assert_eq!(rt; Types.layering(), Some(Layering { pair: 4, list: 5 }));
}

#[test]
fn each_load_code(rt: HostRuntime) {
    for row in &LOADS {
        check_row(&rt, &Loads, row);
    }
    assert!(rt; Loads.layering().is_none());
}

#[test]
fn some_for_each_set(rt: HostRuntime) {
    for set in 0..=255 {
        let type_code = if set <= 1 { Some(0) } else { None };
        let load_code = match set {
            0 | 1 => Some(16),
            2 => Some(48),
            _ => None,
        };
        assert_eq!(rt; Types.some(set), type_code);
        assert_eq!(rt; Loads.some(set), load_code);
    }
}

#[test]
fn symbols_and_families(rt: HostRuntime) {
    assert_eq!(rt; symbol_of(0), Some(Symbol::Number));
    assert_eq!(rt; symbol_of(6), Some(Symbol::Array));
    assert_eq!(rt; symbol_of(7), None);
    assert_eq!(rt; symbol_of(24), Some(Symbol::Function { parameters: 8 }));
    assert_eq!(rt; family_of(15), None);
    assert_eq!(rt; family_of(31), Some(Family::Tote));
    assert_eq!(rt; family_of(95), Some(Family::Kit));
    assert_eq!(rt; family_of(96), None);
}
