// Tests of floors: over a cell that holds one number, over a pair of two cells, and over a line that is full.
#![tactic(auto)]

#[cfg(test)]
mod tests {
    use boards::board::Board;
    use boards::outcome::Outcome;
    use floor::{ClosedFloor, OpenFloor};
    use floor_model::line::Line;
    use keys::piece_code::PieceCode;
    use keys::refusal::Refusal;
    use line_model::node::Node;
    use line_model::seat::Seat;
    use pair::pair::Pair;
    use plain_model::line_op::{LineAnswer, LineOp};
    use plain_model::side::Side;
    use std::process::Abort;
    use std::test::Fail;
    use swap_cell::swap_cell::SwapCell;

    const BLANK: Line<usize, usize> = Line {
        station: 0,
        turn: 0,
        operation: 0,
        answer: 0,
    };

    fn line(station: usize, turn: usize, operation: usize, answer: usize) -> Line<usize, usize> {
        Line {
            station,
            turn,
            operation,
            answer,
        }
    }

    #[test]
    fn openings(rt: HostRuntime) {
        let ledger = [BLANK; 3];
        let mut cell = SwapCell::new(2);
        assert_eq!(rt;
            OpenFloor::check_open(&cell, 0, &ledger),
            Err(Refusal::LedgerLimit)
        );
        assert_eq!(rt;
            OpenFloor::check_open(&cell, 1025, &ledger),
            Err(Refusal::LedgerLimit)
        );
        assert_eq!(rt;
            OpenFloor::check_open(&cell, 4, &ledger),
            Err(Refusal::ShortTable)
        );
        assert_eq!(rt; OpenFloor::check_open(&cell, 3, &ledger), Ok(()));
        assert!(rt; cell.begin(2, &7));
        assert_eq!(rt;
            OpenFloor::check_open(&cell, 3, &ledger),
            Err(Refusal::NotFree)
        );
    }

    #[test]
    fn starts(rt: HostRuntime) {
        let mut floor = OpenFloor::open(SwapCell::new(3), 2);
        assert_eq!(rt; floor.start(0, &7), Err(Refusal::NoSuchStation));
        assert_eq!(rt; floor.start(4, &7), Err(Refusal::NoSuchStation));
        assert_eq!(rt; floor.start(1, &7), Ok(()));
        assert_eq!(rt; floor.start(1, &8), Err(Refusal::NotFree));
        assert_eq!(rt; floor.start(2, &8), Ok(()));
        assert_eq!(rt; floor.start(3, &9), Err(Refusal::LedgerFull));
        assert_eq!(rt; floor.written(), 0);
        assert_eq!(rt; floor.turn(1), Some(1));
        assert_eq!(rt; floor.turn(3), Some(0));
        assert_eq!(rt; floor.turn(4), None);
    }

    #[test]
    fn touches_and_collects(rt: HostRuntime) {
        let mut ledger = [BLANK; 2];
        let mut short = [BLANK; 1];
        let mut floor = OpenFloor::open(SwapCell::new(2), 2);
        assert_eq!(rt; floor.touch(3, &mut short), Err(Refusal::ShortTable));
        assert_eq!(rt; floor.touch(3, &mut ledger), Err(Refusal::NoSuchStation));
        assert_eq!(rt; floor.touch(1, &mut ledger), Err(Refusal::StillFree));
        assert_eq!(rt; floor.collect(3), Err(Refusal::NoSuchStation));
        assert_eq!(rt; floor.collect(1), Err(Refusal::StillFree));
        assert_eq!(rt; floor.start(1, &7), Ok(()));
        assert_eq!(rt; floor.collect(1), Err(Refusal::StillWaiting));
        assert_eq!(rt;
            floor.touch(1, &mut ledger),
            Ok((Outcome::CountedReady, Some(0)))
        );
        assert_eq!(rt; floor.touch(1, &mut ledger), Err(Refusal::AlreadyReady));
        assert_eq!(rt; floor.collect(1), Ok(0));
    }

    #[test]
    fn lines_and_closing(rt: HostRuntime) -> Result<(), Fail> {
        let mut ledger = [BLANK; 4];
        let mut floor = OpenFloor::open(SwapCell::new(2), 3);
        assert_eq!(rt; floor.start(1, &7), Ok(()));
        assert_eq!(rt; floor.start(2, &8), Ok(()));
        assert_eq!(rt;
            floor.touch(2, &mut ledger),
            Ok((Outcome::CountedReady, Some(0)))
        );
        assert_eq!(rt;
            floor.touch(1, &mut ledger),
            Ok((Outcome::CountedReady, Some(8)))
        );
        assert_eq!(rt; floor.check_close(), Err(Refusal::StationsBusy));
        assert_eq!(rt; floor.collect(1), Ok(8));
        assert_eq!(rt; floor.start(1, &9), Ok(()));
        assert_eq!(rt;
            floor.touch(1, &mut ledger),
            Ok((Outcome::CountedReady, Some(7)))
        );
        assert_eq!(rt; floor.collect(1), Ok(7));
        assert_eq!(rt; floor.collect(2), Ok(0));
        assert_eq!(rt; floor.check_close(), Ok(()));
        closed(&rt, floor.close(), &ledger)
    }

    // The floor of the last test, closed: its three lines, and the number that the cell holds.
    fn closed(
        rt: &impl Abort,
        floor: ClosedFloor<SwapCell>,
        ledger: &[Line<usize, usize>],
    ) -> Result<(), Fail> {
        assert_eq!(rt; floor.lines(&[BLANK; 2]), Err(Refusal::ShortTable));
        let written = floor.lines(ledger)?;
        assert!(rt; written.len() == 3);
        assert_eq!(rt; written[0], line(2, 1, 8, 0));
        assert_eq!(rt; written[1], line(1, 1, 7, 8));
        assert_eq!(rt; written[2], line(1, 2, 9, 7));
        let mut none: [usize; 0] = [];
        assert_eq!(rt; floor.show(&mut none), Err(Refusal::ShortList));
        let mut list = [5, 6];
        assert_eq!(rt; floor.show(&mut list), Ok(()));
        assert_eq!(rt; list, [9, 6]);
        Ok(())
    }

    // A floor over two cells side by side, which serves as many stations as the smaller.
    #[test]
    fn pairs(rt: HostRuntime) {
        let blank = Line {
            station: 0,
            turn: 0,
            operation: Side::First(0),
            answer: Side::First(0),
        };
        let mut ledger = [blank; 2];
        let mut floor = OpenFloor::open(Pair::new(SwapCell::new(2), SwapCell::new(3)), 2);
        assert_eq!(rt;
            floor.start(3, &Side::Second(7)),
            Err(Refusal::NoSuchStation)
        );
        assert_eq!(rt; floor.start(1, &Side::First(7)), Ok(()));
        assert_eq!(rt; floor.start(2, &Side::Second(8)), Ok(()));
        assert_eq!(rt;
            floor.touch(2, &mut ledger),
            Ok((Outcome::CountedReady, Some(Side::Second(0))))
        );
        assert_eq!(rt;
            floor.touch(1, &mut ledger),
            Ok((Outcome::CountedReady, Some(Side::First(0))))
        );
        assert!(rt; floor.written() == 2);
        assert!(rt; ledger[0].station == 2 && ledger[0].operation == Side::Second(8));
        assert!(rt; ledger[1].station == 1 && ledger[1].operation == Side::First(7));
        let mut list = [Side::First(1); 3];
        assert_eq!(rt; floor.show(&mut list), Ok(()));
        assert_eq!(rt; list, [Side::First(7), Side::Second(8), Side::First(1)]);
    }

    // A line of a ledger prints as an entry, its station before its turn.
    #[test]
    fn lines_print(rt: HostRuntime) -> Result<(), Fail> {
        let line = Line {
            station: 2,
            turn: 1,
            operation: LineOp::<PieceCode>::Take,
            answer: LineAnswer::<PieceCode>::Empty,
        };
        assert!(rt; line.to_string(rt.alloc())?.as_str() == "(entry 2 1 (take) (empty))");
        Ok(())
    }

    // A line with one node has no space for a second put, and has for a take.
    #[test]
    fn space(rt: HostRuntime) -> Result<(), Fail> {
        let node = Node {
            element: 0u8,
            next: None,
        };
        let nodes = vec![in rt.alloc(); node; 2]?;
        let seats = vec![in rt.alloc(); Seat::<u8>::Free; 3]?;
        assert_eq!(rt; line::Line::check(3, 1, &nodes, &seats), Ok(()));
        let mut floor = OpenFloor::open(line::Line::new(3, 1, nodes, seats), 8);
        assert_eq!(rt; floor.start(1, &LineOp::Put(5)), Ok(()));
        assert_eq!(rt; floor.start(2, &LineOp::Put(6)), Err(Refusal::NoSpace));
        assert_eq!(rt; floor.start(2, &LineOp::Take), Ok(()));
        Ok(())
    }
}
