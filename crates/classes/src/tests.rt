ghost use Rattle.std.specs.Prelude.{◌≡◌, ◌<◌, IfSome};
ghost use Rattle.classes.specs.Views.{count_of, label_of};

use crate::{Classes, Link};

/// Cells 0, 1, .., each with its number for a shape and one bit for a set.
fn cells(n: u16) -> Classes {
    let mut classes = Classes::open();
    for i in 0..n {
        if classes.count() < 2048 {
            classes.add(i, 1 << (i % 8));
        }
    }
    classes
}

/// The representative of a cell, if there is that cell.
fn label(classes: &Classes, cell: u16) -> Option<u16>
    ensures within { IfSome result (λ class. class < count_of classes.now) }
    ensures own { IfSome result (λ class. label_of classes.now class ≡ class) }
{
    if usize::from(cell) < classes.count() {
        Some(classes.find(cell))
    } else {
        None
    }
}

/// The set of a cell's class.
fn union(classes: &Classes, cell: u16) -> Option<u8> {
    let class = label(classes, cell)?;
    Some(classes.set(class))
}

/// The shape of a cell's class.
fn shape(classes: &Classes, cell: u16) -> Option<u16> {
    let class = label(classes, cell)?;
    Some(classes.shape(class))
}

/// Links the classes of two cells, unless one is no cell or they are one class.
fn join(classes: &mut Classes, a: u16, b: u16, shape: u16) {
    let (Some(x), Some(y)) = (label(classes, a), label(classes, b)) else {
        return;
    };
    if x != y {
        classes.link(x, y, shape);
    }
}

fn rewind(classes: &mut Classes, mark: usize) {
    if mark <= classes.links() {
        classes.rewind(mark);
    }
}

#[test]
fn chains_both_ways(rt: HostRuntime) {
    let mut classes = cells(6);
    join(&mut classes, 0, 1, 10);
    join(&mut classes, 0, 2, 20);
    join(&mut classes, 5, 4, 30);
    join(&mut classes, 3, 5, 40);
    assert_eq!(rt; label(&classes, 0), Some(2));
    assert_eq!(rt; label(&classes, 1), Some(2));
    assert_eq!(rt; label(&classes, 3), Some(4));
    assert_eq!(rt; shape(&classes, 1), Some(20));
    assert_eq!(rt; shape(&classes, 5), Some(40));
    assert_eq!(rt; union(&classes, 0), Some(7));
    assert_eq!(rt; union(&classes, 3), Some(56));
}

#[test]
fn rewinds_to_marks(rt: HostRuntime) {
    let mut classes = cells(4);
    join(&mut classes, 0, 1, 10);
    join(&mut classes, 1, 2, 20);
    join(&mut classes, 2, 3, 30);
    assert_eq!(rt; union(&classes, 0), Some(15));
    assert!(rt; classes.links() > 2);
    let last = Link {
        lower: 2,
        upper: 3,
        old_shape: 3,
    };
    assert_eq!(rt; classes.entry(2), last);
    classes.reshape(2, 77);
    assert_eq!(rt; shape(&classes, 0), Some(77));
    rewind(&mut classes, 1);
    assert_eq!(rt; label(&classes, 0), Some(1));
    assert_eq!(rt; label(&classes, 2), Some(2));
    assert_eq!(rt; shape(&classes, 1), Some(10));
    assert_eq!(rt; shape(&classes, 3), Some(3));
    assert_eq!(rt; union(&classes, 1), Some(3));
    rewind(&mut classes, 0);
    assert_eq!(rt; label(&classes, 0), Some(0));
    assert_eq!(rt; union(&classes, 1), Some(2));
    assert_eq!(rt; classes.links(), 0);
}

#[test]
fn weighs_classes(rt: HostRuntime) {
    let mut classes = cells(3);
    join(&mut classes, 0, 1, 10);
    assert!(rt; classes.count() > 2);
    assert!(rt; classes.outweighs(1, 2));
    assert!(rt; !classes.outweighs(2, 1));
    rewind(&mut classes, 0);
    assert!(rt; classes.count() > 2);
    assert!(rt; !classes.outweighs(1, 2));
}

#[test]
fn all_cells_in_one_class(rt: HostRuntime) {
    let mut classes = cells(2048);
    for i in 1..2048 {
        join(&mut classes, 0, i, 0);
    }
    assert_eq!(rt; classes.links(), 2047);
    assert_eq!(rt; label(&classes, 0), Some(2047));
    assert_eq!(rt; label(&classes, 1000), Some(2047));
    assert_eq!(rt; union(&classes, 7), Some(255));
    rewind(&mut classes, 1);
    assert_eq!(rt; label(&classes, 0), Some(1));
    assert_eq!(rt; label(&classes, 2047), Some(2047));
}
