// Tests of the line.
#![tactic(auto)]

#[cfg(test)]
mod tests {
    use boards::board::Board;
    use boards::outcome::Outcome;
    use keys::refusal::Refusal;
    use line::Line;
    use line_model::node::Node;
    use line_model::seat::Seat;
    use plain_model::line_op::{LineAnswer, LineOp};
    use std::alloc::{AllocError, Global};
    use std::process::Abort;
    use std::test::Fail;

    // Tables as they may be handed in: longer than needed, and full of what others left.
    fn node_table(heap: Global, places: usize) -> Result<Vec<Node<u8>>, AllocError> {
        vec![in heap; Node {
            element: 99u8,
            next: Some(700)
        }; places]
    }

    fn station_table(heap: Global, places: usize) -> Result<Vec<Seat<u8>>, AllocError> {
        vec![in heap; Seat::Ready(LineOp::Take, LineAnswer::Took(99u8)); places]
    }

    fn make(heap: Global, stations: usize, nodes: usize) -> Result<Line<u8>, Fail> {
        let node_table = node_table(heap, 520)?;
        let station_table = station_table(heap, 20)?;
        Line::check(stations, nodes, &node_table, &station_table).map_err(|_| Fail::new(
            "refused",
        ))?;
        Ok(Line::new(stations, nodes, node_table, station_table))
    }

    // So many touches of the station are told `going`.
    fn goes(rt: &impl Abort, line: &mut Line<u8>, station: usize, times: u8) {
        for _ in 0..times {
            tells(rt, line, station, Outcome::Going, None);
        }
    }

    // The next touch of the station tells this.
    fn tells(
        rt: &impl Abort,
        line: &mut Line<u8>,
        station: usize,
        outcome: Outcome,
        answer: Option<LineAnswer<u8>>,
    ) {
        let (told, given) = line.touch(station);
        assert!(rt; told == outcome);
        assert!(rt; given == answer);
    }

    fn put(rt: &impl Abort, line: &mut Line<u8>, station: usize, element: u8) {
        assert!(rt; line.begin(station, &LineOp::Put(element)));
        goes(rt, line, station, 3);
        tells(rt, line, station, Outcome::Counted, Some(LineAnswer::Put));
        tells(rt, line, station, Outcome::Ready, Some(LineAnswer::Put));
        line.release(station);
    }

    fn take(rt: &impl Abort, line: &mut Line<u8>, station: usize, element: u8) {
        assert!(rt; line.begin(station, &LineOp::Take));
        goes(rt, line, station, 3);
        tells(
            rt,
            line,
            station,
            Outcome::CountedReady,
            Some(LineAnswer::Took(element)),
        );
        line.release(station);
    }

    // A take that read Head before another take moved it, and then finds Tail behind a put: eleven touches more.
    #[test]
    fn late_take(rt: HostRuntime) -> Result<(), Fail> {
        let mut line = make(rt.alloc(), 3, 8)?;
        assert!(rt; line.begin(1, &LineOp::Take));
        goes(&rt, &mut line, 1, 1);
        put(&rt, &mut line, 2, 7);
        take(&rt, &mut line, 2, 7);
        assert!(rt; line.begin(3, &LineOp::Put(8)));
        goes(&rt, &mut line, 3, 3);
        tells(&rt, &mut line, 3, Outcome::Counted, Some(LineAnswer::Put));
        goes(&rt, &mut line, 1, 10);
        tells(
            &rt,
            &mut line,
            1,
            Outcome::CountedReady,
            Some(LineAnswer::Took(8)),
        );
        Ok(())
    }

    // The one node is used and not used again.
    #[test]
    fn no_space(rt: HostRuntime) -> Result<(), Fail> {
        let mut line = make(rt.alloc(), 3, 1)?;
        assert!(rt; line.space(&LineOp::Put(6)));
        put(&rt, &mut line, 1, 5);
        take(&rt, &mut line, 2, 5);
        assert!(rt; !line.space(&LineOp::Put(6)));
        assert!(rt; !line.begin(1, &LineOp::Put(6)));
        assert!(rt; line.begin(1, &LineOp::Take));
        Ok(())
    }

    // A put that finds Tail behind moves it on for another station, whose last touch then finds it moved.
    #[test]
    fn put_helps(rt: HostRuntime) -> Result<(), Fail> {
        let mut line = make(rt.alloc(), 2, 4)?;
        assert!(rt; line.begin(1, &LineOp::Put(1)));
        goes(&rt, &mut line, 1, 3);
        tells(&rt, &mut line, 1, Outcome::Counted, Some(LineAnswer::Put));
        assert!(rt; line.begin(2, &LineOp::Put(2)));
        goes(&rt, &mut line, 2, 7);
        tells(&rt, &mut line, 2, Outcome::Counted, Some(LineAnswer::Put));
        tells(&rt, &mut line, 1, Outcome::Ready, Some(LineAnswer::Put));
        tells(&rt, &mut line, 2, Outcome::Ready, Some(LineAnswer::Put));
        assert_eq!(rt; line.items(), 2);
        line.release(1);
        line.release(2);
        take(&rt, &mut line, 1, 1);
        take(&rt, &mut line, 2, 2);
        Ok(())
    }

    // A take that finds Tail behind moves it on, and takes what a put has counted and not yet finished.
    #[test]
    fn take_helps(rt: HostRuntime) -> Result<(), Fail> {
        let mut line = make(rt.alloc(), 2, 4)?;
        assert!(rt; line.begin(1, &LineOp::Put(1)));
        goes(&rt, &mut line, 1, 3);
        tells(&rt, &mut line, 1, Outcome::Counted, Some(LineAnswer::Put));
        assert!(rt; line.begin(2, &LineOp::Take));
        goes(&rt, &mut line, 2, 7);
        tells(
            &rt,
            &mut line,
            2,
            Outcome::CountedReady,
            Some(LineAnswer::Took(1)),
        );
        tells(&rt, &mut line, 1, Outcome::Ready, Some(LineAnswer::Put));
        assert_eq!(rt; line.items(), 0);
        Ok(())
    }

    // Asking and showing, and a list that is too short.
    #[test]
    fn shows(rt: HostRuntime) -> Result<(), Fail> {
        let mut line = make(rt.alloc(), 16, 512)?;
        put(&rt, &mut line, 16, 3);
        put(&rt, &mut line, 1, 4);
        assert_eq!(rt; line.items(), 2);
        assert!(rt; line.item(0) == Some(3));
        assert!(rt; line.item(1) == Some(4));
        assert!(rt; line.item(2) == None);
        let mut short = [0u8; 1];
        assert!(rt; !line.show(&mut short));
        assert_eq!(rt; short[0], 0);
        let mut list = [0u8; 3];
        assert!(rt; line.show(&mut list));
        assert!(rt; list == [3, 4, 0]);
        Ok(())
    }

    fn refusal(
        heap: Global,
        stations: usize,
        nodes: usize,
        places: usize,
        seats: usize,
    ) -> Result<Option<Refusal>, Fail> {
        let node_table = node_table(heap, places)?;
        let station_table = station_table(heap, seats)?;
        Ok(Line::check(stations, nodes, &node_table, &station_table).err())
    }

    // Each size at its edges, and the refusals in their order.
    #[test]
    fn refuses(rt: HostRuntime) -> Result<(), Fail> {
        let heap = rt.alloc();
        assert!(rt; refusal(heap, 0, 0, 0, 0)? == Some(Refusal::StationCount));
        assert!(rt; refusal(heap, 17, 1, 2, 17)? == Some(Refusal::StationCount));
        assert!(rt; refusal(heap, 1, 1, 2, 1)? == None);
        assert!(rt; refusal(heap, 16, 512, 513, 16)? == None);
        assert!(rt; refusal(heap, 1, 0, 0, 0)? == Some(Refusal::LineSize));
        assert!(rt; refusal(heap, 1, 513, 600, 1)? == Some(Refusal::LineSize));
        assert!(rt; refusal(heap, 1, 1, 1, 1)? == Some(Refusal::ShortTable));
        assert!(rt; refusal(heap, 16, 512, 513, 15)? == Some(Refusal::ShortTable));
        assert!(rt; refusal(heap, 16, 512, 512, 16)? == Some(Refusal::ShortTable));
        Ok(())
    }
}
