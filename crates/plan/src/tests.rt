use crate::item::Item;
use crate::reader::Reader;
use crate::refusal::{PlanFault, Refusal};
use crate::tally::{Tally, count_items};
use alphabet::alphabet::Alphabet;
use alphabet::loads::Loads;
use alphabet::types::Types;
use std::process::Abort;
use std::test::Fail;

// The fault at which reading a plan stops, or the number of its items.
fn read<A: Alphabet>(alphabet: &A, words: &[u32]) -> Result<usize, PlanFault> {
    Ok(count_items(alphabet, words)?.items)
}

fn refused(position: usize, refusal: Refusal) -> Result<usize, PlanFault> {
    Err(PlanFault { position, refusal })
}

fn check_read<A: Alphabet>(
    rt: &impl Abort,
    alphabet: &A,
    words: &[u32],
    wanted: Result<usize, PlanFault>,
) {
    assert_eq!(rt; read(alphabet, words), wanted);
}

#[test]
fn items_of_a_plan(rt: HostRuntime) -> Result<(), Fail> {
    let words = [
        0x1100_0002,
        0x1200_0053,
        7,
        0,
        0xffff_ffff,
        0x1300_0000,
        4,
        1,
    ];
    let items = [
        (1, Item::Unknown { set: 2 }),
        (
            5,
            Item::Term {
                code: 0x53,
                places: &[7, 0, 0xffff_ffff],
            },
        ),
        (8, Item::Link { left: 4, right: 1 }),
    ];
    let mut reader = Reader::open(&words)?;
    for (next, item) in items {
        assert_eq!(rt; reader.next(&Loads)?, Some(item));
        assert_eq!(rt; reader.position(), next);
    }
    assert_eq!(rt; reader.next(&Loads)?, None);
    assert_eq!(rt; reader.position(), 8);
    Ok(())
}

#[test]
fn words_that_begin_no_item(rt: HostRuntime) {
    let others = [
        0,
        0x1100_0100,
        0x1180_0000,
        0x1300_0001,
        0x1400_0000,
        0x10ff_ffff,
        0xffff_ffff,
    ];
    for word in others {
        check_read(
            &rt,
            &Loads,
            &[0x1100_0000, word, 0, 0],
            refused(1, Refusal::NotAnItem),
        );
    }
}

#[test]
fn codes_that_are_not_known(rt: HostRuntime) {
    for code in [0, 15, 96, 0x00ff_ffff] {
        check_read(
            &rt,
            &Loads,
            &[0x1200_0000 + code],
            refused(0, Refusal::NoSuchCode(code)),
        );
    }
    check_read(
        &rt,
        &Loads,
        &[0x1200_000f + 0x50],
        refused(0, Refusal::CutShort),
    );
    check_read(
        &rt,
        &Types,
        &[0x1200_0007, 0, 0],
        refused(0, Refusal::NoSuchCode(7)),
    );
    check_read(&rt, &Types, &[0x1200_0000], Ok(1));
}

#[test]
fn items_cut_at_each_word(rt: HostRuntime) {
    let kit = [0x1200_0050, 0, 1, 2, 0x1300_0000, 3, 4];
    for length in 0..=kit.len() {
        let wanted = match length {
            0 => Ok(0),
            1..=3 => refused(0, Refusal::CutShort),
            4 => Ok(1),
            5..=6 => refused(4, Refusal::CutShort),
            _ => Ok(2),
        };
        check_read(&rt, &Loads, &kit[0..length], wanted);
    }
    let function = [0x1200_0018, 0, 0, 0, 0, 0, 0, 0, 0, 0];
    for length in 1..10 {
        check_read(
            &rt,
            &Types,
            &function[0..length],
            refused(0, Refusal::CutShort),
        );
    }
    check_read(&rt, &Types, &function, Ok(1));
}

#[test]
fn the_longest_plan(rt: HostRuntime) {
    let words = [0x1100_0000; 8193];
    check_read(&rt, &Loads, &words[0..8192], Ok(8192));
    check_read(&rt, &Loads, &words, refused(0, Refusal::TooLong));
}

#[test]
fn numbers_and_values(rt: HostRuntime) {
    let refusals = [
        (Refusal::NotAnItem, 9, (0, 0)),
        (Refusal::NoSuchCode(96), 3, (96, 0)),
        (Refusal::CutShort, 10, (0, 0)),
        (Refusal::TooLong, 10, (0, 0)),
    ];
    for (refusal, number, values) in refusals {
        assert_eq!(rt; refusal.number(), number);
        assert_eq!(rt; refusal.values(), values);
    }
}

#[test]
fn items_are_counted(rt: HostRuntime) -> Result<(), Fail> {
    let words = [0x1100_0000, 0x1200_0030, 0, 0x1300_0000, 0, 1, 0x1100_0001];
    assert_eq!(rt; count_items(&Loads, &words)?, Tally { items: 4, cells: 3 });
    assert_eq!(rt; count_items(&Loads, &[])?, Tally { items: 0, cells: 0 });
    assert!(rt; count_items(&Loads, &words[0..5]).is_err());
    Ok(())
}
