use crate::counts::PlanCounts;
use crate::items::ItemLine;
use crate::names::{Classes, Names, Symbol, UnknownNames};
use crate::refusals::RefusalSentence;
use crate::texts::Word;
use crate::tokens::UnreadableSentence;
use plan::item::Item;
use plan::refusal::{PlanFault, Refusal};
use plan::tally::Tally;
use std::fmt::Display;
use std::process::Abort;
use std::test::Fail;
use words::Unreadable;

// A code or a set, and its text.
type Row = (u32, &'static str);

const TYPES: [Row; 26] = [
    (0, "number"),
    (1, "bool"),
    (2, "string"),
    (3, "undefined"),
    (4, "Pair"),
    (5, "List"),
    (6, "Array"),
    (7, "code 7"),
    (8, "code 8"),
    (9, "code 9"),
    (10, "code 10"),
    (11, "code 11"),
    (12, "code 12"),
    (13, "code 13"),
    (14, "code 14"),
    (15, "code 15"),
    (16, "F0"),
    (17, "F1"),
    (18, "F2"),
    (19, "F3"),
    (20, "F4"),
    (21, "F5"),
    (22, "F6"),
    (23, "F7"),
    (24, "F8"),
    (25, "code 25"),
];

const LOADS: [Row; 14] = [
    (15, "code 15"),
    (16, "tote"),
    (17, "tote mark 1"),
    (31, "tote mark 15"),
    (32, "carton"),
    (47, "carton mark 15"),
    (48, "pallet"),
    (51, "pallet mark 3"),
    (63, "pallet mark 15"),
    (64, "cage"),
    (79, "cage mark 15"),
    (80, "kit"),
    (95, "kit mark 15"),
    (96, "code 96"),
];

// The text that is printed is the one that is wanted.
fn says(
    rt: &(impl Abort + AllocGlobal),
    shown: impl Display + Drop,
    wanted: &str,
) -> Result<(), Fail> {
    let text = shown.to_string(rt.alloc())?;
    assert_eq!(rt; text.as_str(), wanted);
    Ok(())
}

#[test]
fn names(rt: HostRuntime) {
    assert_eq!(rt; "types".parse::<Names>(), Ok(Names::Types));
    assert_eq!(rt; "loads".parse::<Names>(), Ok(Names::Loads));
    assert_eq!(rt; "Loads".parse::<Names>(), Err(UnknownNames));
    assert_eq!(rt; "".parse::<Names>(), Err(UnknownNames));
}

#[test]
fn unknown_names(rt: HostRuntime) -> Result<(), Fail> {
    says(&rt, UnknownNames, "the names are loads or types")
}

#[test]
fn type_symbols(rt: HostRuntime) -> Result<(), Fail> {
    for (code, text) in TYPES {
        let names = Names::Types;
        says(&rt, Symbol { names, code }, text)?;
    }
    Ok(())
}

#[test]
fn load_symbols(rt: HostRuntime) -> Result<(), Fail> {
    for (code, text) in LOADS {
        let names = Names::Loads;
        says(&rt, Symbol { names, code }, text)?;
    }
    Ok(())
}

fn classes(names: Names, set: u8) -> Classes {
    Classes { names, set }
}

#[test]
fn sets(rt: HostRuntime) -> Result<(), Fail> {
    says(&rt, classes(Names::Types, 0), "")?;
    says(&rt, classes(Names::Types, 1), "addable")?;
    says(&rt, classes(Names::Types, 2), "class 1")?;
    says(&rt, classes(Names::Loads, 2), "floor")?;
    says(&rt, classes(Names::Loads, 3), "belt, floor")?;
    says(&rt, classes(Names::Loads, 4), "class 2")?;
    let all = "belt, floor, class 2, class 3, class 4, class 5, class 6, class 7";
    says(&rt, classes(Names::Loads, 255), all)
}

fn line<'a>(position: usize, cell: usize, item: &'a Item<'a>) -> ItemLine<'a> {
    ItemLine {
        names: Names::Loads,
        position,
        cell,
        item,
    }
}

fn term(code: u32, places: &[u32]) -> Item<'_> {
    Item::Term { code, places }
}

#[test]
fn items(rt: HostRuntime) -> Result<(), Fail> {
    says(
        &rt,
        line(0, 0, &Item::Unknown { set: 0 }),
        "word 0: cell 0 is unknown",
    )?;
    says(
        &rt,
        line(1, 1, &Item::Unknown { set: 3 }),
        "word 1: cell 1 is unknown of belt, floor",
    )?;
    says(
        &rt,
        line(2, 2, &term(19, &[])),
        "word 2: cell 2 is tote mark 3",
    )?;
    says(
        &rt,
        line(3, 3, &term(48, &[2])),
        "word 3: cell 3 is pallet over cell 2",
    )?;
    says(
        &rt,
        line(5, 4, &term(81, &[2, 3, 2])),
        "word 5: cell 4 is kit mark 1 over cells 2, 3, 2",
    )?;
    says(
        &rt,
        line(9, 5, &Item::Link { left: 1, right: 4 }),
        "word 9: cells 1 and 4 are linked",
    )
}

fn counts(items: usize, cells: usize, words: usize) -> PlanCounts {
    PlanCounts {
        tally: Tally { items, cells },
        words,
    }
}

#[test]
fn numbers(rt: HostRuntime) -> Result<(), Fail> {
    says(&rt, counts(6, 5, 12), "6 items, 5 cells, 12 words")?;
    says(&rt, counts(1, 1, 1), "1 item, 1 cell, 1 word")?;
    says(&rt, counts(0, 0, 0), "0 items, 0 cells, 0 words")?;
    says(&rt, Word(0x1300_000a), "0x1300000a")?;
    says(&rt, Word(0), "0x00000000")?;
    says(&rt, Word(u32::MAX), "0xffffffff")
}

fn refused(position: usize, refusal: Refusal, words: &[u32]) -> RefusalSentence<'_> {
    let fault = PlanFault { position, refusal };
    RefusalSentence { fault, words }
}

#[test]
fn refusals(rt: HostRuntime) -> Result<(), Fail> {
    let words = [0x1100_0000, 0x1400_0000];
    says(
        &rt,
        refused(0, Refusal::TooLong, &[0; 8193]),
        "refused with 10 at word 0: the plan has 8193 words, and a plan has at most 8192",
    )?;
    says(
        &rt,
        refused(1, Refusal::NotAnItem, &words),
        "refused with 9 at word 1: 0x14000000 is not the first word of an item",
    )?;
    says(
        &rt,
        refused(2, Refusal::NotAnItem, &words),
        "refused with 9 at word 2: 0x00000000 is not the first word of an item",
    )?;
    says(
        &rt,
        refused(2, Refusal::NoSuchCode(96), &words),
        "refused with 3 at word 2: the alphabet has no code 96",
    )?;
    says(
        &rt,
        refused(7, Refusal::CutShort, &words),
        "refused with 10 at word 7: the plan ends inside this item",
    )
}

fn unreadable(line: usize, token: &[u8]) -> UnreadableSentence<'_> {
    UnreadableSentence(Unreadable { line, token })
}

#[test]
fn unreadable_words(rt: HostRuntime) -> Result<(), Fail> {
    let plain =
        "line 3: cannot read \"12x4\" as a word (decimal, or hexadecimal after 0x, below 4294967296)";
    says(&rt, unreadable(3, b"12x4"), plain)?;
    let odd =
        "line 1: cannot read \"\\xc3\\xa9 ~\\x22\\x5c\\x7f\\x1f\" as a word (decimal, or hexadecimal after 0x, below 4294967296)";
    says(&rt, unreadable(1, b"\xc3\xa9 ~\"\\\x7f\x1f"), odd)?;
    let whole =
        "line 1: cannot read \"7777777777777777777777777777777777777777\" as a word (decimal, or hexadecimal after 0x, below 4294967296)";
    says(&rt, unreadable(1, &[b'7'; 40]), whole)?;
    let cut =
        "line 1: cannot read \"7777777777777777777777777777777777777777...\" as a word (decimal, or hexadecimal after 0x, below 4294967296)";
    says(&rt, unreadable(1, &[b'7'; 50]), cut)
}
