//! The cells of a workspace, in fixed memory.
#![tactic(auto)]

pub mod kind;
pub mod storage;

#[cfg(test)]
mod tests {
    use crate::kind::Kind;
    use crate::storage::Cells;
    use std::process::Abort;

    fn unknown(rt: &impl Abort, cells: &mut Cells, set: u8) {
        assert!(rt; cells.count() < 2048);
        cells.add_unknown(set);
    }

    fn term(rt: &impl Abort, cells: &mut Cells, code: u32, plain: u32, places: &[u32]) {
        assert!(rt; cells.count() < 2048);
        assert!(rt; places.len() <= 9);
        assert!(rt; cells.filled() + places.len() <= 4096);
        assert!(rt; code < 0x0100_0000);
        assert_eq!(rt; cells.first_missing(places), None);
        cells.add_term(code, plain, places);
    }

    fn reads(rt: &impl Abort, cells: &Cells, cell: u32, kind: Kind, parts: &[u32]) {
        // `usize` has no `From<u32>`
        assert!(rt; (cell as usize) < cells.count());
        assert_eq!(rt; cells.kind(cell), kind);
        assert_eq!(rt; cells.parts(cell), parts);
    }

    #[test]
    fn cells_are_read_back(rt: HostRuntime) {
        let mut cells = Cells::open();
        unknown(&rt, &mut cells, 255);
        term(
            &rt,
            &mut cells,
            0x00ff_ffff,
            0xffff_ffff,
            &[0, 0, 0, 0, 0, 0, 0, 0, 0],
        );
        term(&rt, &mut cells, 0, 7, &[1, 0]);
        assert_eq!(rt; cells.filled(), 11);
        reads(&rt, &cells, 0, Kind::Unknown(255), &[]);
        reads(
            &rt,
            &cells,
            1,
            Kind::Term { plain: 0xffff_ffff },
            &[0, 0, 0, 0, 0, 0, 0, 0, 0],
        );
        reads(&rt, &cells, 2, Kind::Term { plain: 7 }, &[1, 0]);
    }

    #[test]
    fn the_code_of_a_term_is_read_back(rt: HostRuntime) {
        let mut cells = Cells::open();
        unknown(&rt, &mut cells, 1);
        term(&rt, &mut cells, 0x00ff_ffff, 7, &[0]);
        reads(&rt, &cells, 1, Kind::Term { plain: 7 }, &[0]);
        assert!(rt; 1 < cells.count());
        if let Kind::Term { .. } = cells.kind(1) {
            assert_eq!(rt; cells.code(1), 0x00ff_ffff);
        }
    }

    #[test]
    fn first_cell_that_does_not_stand(rt: HostRuntime) {
        let mut cells = Cells::open();
        unknown(&rt, &mut cells, 1);
        assert_eq!(rt; cells.first_missing(&[0, 0]), None);
        assert_eq!(rt; cells.first_missing(&[0, 2, 1]), Some(2));
    }

    #[test]
    fn there_is_room_for_2048_cells(rt: HostRuntime) {
        let mut cells = Cells::open();
        for _ in 0..2047 {
            unknown(&rt, &mut cells, 3);
        }
        term(&rt, &mut cells, 1, 1, &[2046]);
        assert_eq!(rt; cells.count(), 2048);
        reads(&rt, &cells, 2047, Kind::Term { plain: 1 }, &[2046]);
    }

    #[test]
    fn there_is_room_for_4096_places(rt: HostRuntime) {
        let mut cells = Cells::open();
        unknown(&rt, &mut cells, 3);
        for _ in 0..455 {
            term(&rt, &mut cells, 1, 1, &[0, 0, 0, 0, 0, 0, 0, 0, 0]);
        }
        term(&rt, &mut cells, 2, 2, &[455]);
        assert_eq!(rt; cells.filled(), 4096);
        reads(&rt, &cells, 456, Kind::Term { plain: 2 }, &[455]);
    }
}
