ghost use Rattle.std.specs.Prelude.{◌≡◌, ℕ, ◌<◌, ◌≤◌, List, [], ◌∷◌, length, Some, None, slice_index_or, option_to_list, IsTrue, nat_lt};
ghost use Rattle.std.specs.List.{list_all};
ghost use Rattle.walk.specs.Rows.{place_edge, row_edges};

use crate::graph::Graph;
use crate::state::{Frame, Walk};

type Row = (Option<u16>, Option<u16>);

// A graph that has for each node a row of two places; a place that leads to no row has no edge.
#[derive(Clone, Copy)]
struct Rows<'a> {
    rows: &'a [Row],
    ghost few: { length rows.now ≤ 2048 },
}

impl Rows<'_> {
    fn edge_of(&self, place: Option<u16>) -> Option<u16>
        ensures { option_to_list result ≡ place_edge (length self.now.rows.now) place }
    {
        place.filter(|next| usize::from(*next) < self.rows.len())
    }
}

impl Graph for Rows<'_> {
    ghost size = { λ g. length g.rows.now };

    ghost edges = { λ g x. row_edges (length g.rows.now) (slice_index_or g.rows.now x (None, None)) };

    fn edge(&self, node: u16, k: u8) -> Option<u16> {
        let (first, second) = self.rows[usize::from(node)];
        let first = self.edge_of(first);
        let second = self.edge_of(second);
        match k {
            0 => first.or(second),
            1 => first.and(second),
            _ => None,
        }
    }
}

// Walks from each start, until the walk comes round.
fn walk_all(rows: &[Row], starts: &[u16]) -> (Walk, Result<(), u16>)
    requires few { length rows.now ≤ 2048 }
    requires nodes { IsTrue (list_all (λ start. nat_lt start (length rows.now)) starts.now) }
{
    let graph = Rows { rows };
    let mut walk = Walk::new();
    for start in starts {
        let walked = walk.from(&graph, *start);
        if walked.is_err() {
            return (walk, walked);
        }
    }
    (walk, Ok(()))
}

#[test]
fn chain(rt: HostRuntime) {
    let (walk, walked) = walk_all(&[(Some(1), None), (Some(2), None), (None, None)], &[0]);
    assert_eq!(rt; walked, Ok(()));
    assert!(rt; walk.done() == 3);
    assert_eq!(rt; walk.order_at(0), 2);
    assert_eq!(rt; walk.order_at(1), 1);
    assert_eq!(rt; walk.order_at(2), 0);
    assert_eq!(rt; walk.depth(), 0);
}

#[test]
fn diamond(rt: HostRuntime) {
    let (walk, walked) = walk_all(
        &[
            (Some(1), Some(2)),
            (Some(3), None),
            (Some(3), None),
            (None, None),
        ],
        &[0],
    );
    assert_eq!(rt; walked, Ok(()));
    assert!(rt; walk.done() == 4);
    assert_eq!(rt; walk.order_at(0), 3);
    assert_eq!(rt; walk.order_at(1), 1);
    assert_eq!(rt; walk.order_at(2), 2);
    assert_eq!(rt; walk.order_at(3), 0);
}

#[test]
fn self_loop(rt: HostRuntime) {
    let (walk, walked) = walk_all(&[(Some(0), None)], &[0]);
    assert_eq!(rt; walked, Err(0));
    assert!(rt; walk.depth() == 1);
    assert_eq!(rt; walk.stack_at(0), Frame { node: 0, edge: 0 });
}

// The stack goes from 0 by its second edge into the cycle of 1, 2 and 3.
#[test]
fn cycle_from_outside(rt: HostRuntime) {
    let rows = [
        (Some(4), Some(1)),
        (Some(2), None),
        (Some(3), None),
        (Some(4), Some(1)),
        (None, None),
    ];
    let (walk, walked) = walk_all(&rows, &[0]);
    assert_eq!(rt; walked, Err(1));
    assert!(rt; walk.depth() == 4);
    assert_eq!(rt; walk.stack_at(0), Frame { node: 0, edge: 1 });
    assert_eq!(rt; walk.stack_at(1), Frame { node: 1, edge: 0 });
    assert_eq!(rt; walk.stack_at(2), Frame { node: 2, edge: 0 });
    assert_eq!(rt; walk.stack_at(3), Frame { node: 3, edge: 1 });
    assert!(rt; walk.is_done(4));
    assert!(rt; !walk.is_done(0));
}

#[test]
fn two_starts(rt: HostRuntime) {
    let (walk, walked) = walk_all(
        &[(Some(1), None), (None, None), (Some(0), Some(1))],
        &[0, 0, 2],
    );
    assert_eq!(rt; walked, Ok(()));
    assert!(rt; walk.done() == 3);
    assert_eq!(rt; walk.order_at(0), 1);
    assert_eq!(rt; walk.order_at(1), 0);
    assert_eq!(rt; walk.order_at(2), 2);
}

#[test]
fn longest_chain(rt: HostRuntime) {
    let mut rows = [(None, None); 2048];
    for i in 0..2047 {
        rows[usize::from(i)].0 = Some(i + 1);
    }
    let (walk, walked) = walk_all(&rows, &[0]);
    assert_eq!(rt; walked, Ok(()));
    assert!(rt; walk.done() == 2048);
    assert_eq!(rt; walk.order_at(0), 2047);
    assert_eq!(rt; walk.order_at(2047), 0);
}
