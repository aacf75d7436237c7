// Tests of pairs: two cells, and a pair with a third cell.
#![tactic(auto)]

#[cfg(test)]
mod tests {
    use boards::board::Board;
    use boards::outcome::Outcome;
    use boards::station::Station;
    use keys::refusal::Refusal;
    use pair::pair::Pair;
    use plain_model::side::Side;
    use swap_cell::swap_cell::SwapCell;

    // Each station works at its side, and a station that is at work takes nothing at the other.
    #[test]
    fn stations_work_at_both_sides(rt: HostRuntime) {
        let mut pair = Pair::new(SwapCell::new(2), SwapCell::new(3));
        assert!(rt; pair.begin(1, &Side::First(5)));
        assert!(rt; pair.begin(2, &Side::Second(7)));
        assert!(rt; !pair.begin(1, &Side::Second(9)));
        assert!(rt; pair.station(2) == Station::Uncounted(Side::Second(7)));
        assert!(rt; pair.touch(1) == (Outcome::CountedReady, Some(Side::First(0))));
        assert!(rt; pair.touch(2) == (Outcome::CountedReady, Some(Side::Second(0))));
        assert!(rt; pair.touch(1) == (Outcome::Idle, None));
        assert!(rt; pair.station(1) == Station::Ready(Side::First(5), Side::First(0)));
        pair.release(1);
        assert!(rt; pair.begin(1, &Side::Second(9)));
        assert!(rt; pair.touch(1) == (Outcome::CountedReady, Some(Side::Second(7))));
    }

    // The pair serves as many stations as its smaller side, whichever that is, and no other.
    #[test]
    fn missing_stations_are_idle(rt: HostRuntime) {
        let mut pair = Pair::new(SwapCell::new(3), SwapCell::new(2));
        assert!(rt; pair.stations() == 2);
        assert!(rt; pair.bound() == 1);
        assert!(rt; !pair.begin(0, &Side::First(5)));
        assert!(rt; !pair.begin(3, &Side::First(5)));
        assert!(rt; pair.touch(0) == (Outcome::Idle, None));
        assert!(rt; pair.touch(3) == (Outcome::Idle, None));
        pair.release(0);
        pair.release(3);
        assert!(rt; pair.station(3) == Station::Free);
        assert!(rt; pair.item(0) == Some(Side::First(0)));
    }

    // A list that is too short stays as it is; in a longer one the places past the contents do.
    #[test]
    fn shows_the_first_side_first(rt: HostRuntime) {
        let mut pair = Pair::new(SwapCell::new(1), SwapCell::new(1));
        assert!(rt; pair.begin(1, &Side::Second(7)));
        assert!(rt; pair.touch(1) == (Outcome::CountedReady, Some(Side::Second(0))));
        assert!(rt; pair.items() == 2);
        assert!(rt; pair.item(1) == Some(Side::Second(7)));
        assert!(rt; pair.item(2).is_none());
        let mut short = [Side::Second(8)];
        assert!(rt; !pair.show(&mut short));
        assert!(rt; short[0] == Side::Second(8));
        let mut long = [Side::Second(8); 3];
        assert!(rt; pair.show(&mut long));
        assert!(rt; long[0] == Side::First(0));
        assert!(rt; long[1] == Side::Second(7));
        assert!(rt; long[2] == Side::Second(8));
    }

    // Boards are not paired while a station of either is at work.
    #[test]
    fn check_wants_free_stations(rt: HostRuntime) {
        let mut busy = SwapCell::new(4);
        let free = SwapCell::new(2);
        assert!(rt; Pair::<SwapCell, SwapCell>::check(&free, &busy).is_ok());
        assert!(rt; busy.begin(4, &1));
        assert!(rt; Pair::<SwapCell, SwapCell>::check(&free, &busy) == Err(Refusal::NotFree));
        assert!(rt; Pair::<SwapCell, SwapCell>::check(&busy, &free) == Err(Refusal::NotFree));
        assert!(rt; Refusal::NotFree.number() == Some(7));
    }

    // A pair is a board, so it can be a side.
    #[test]
    fn a_pair_is_a_side(rt: HostRuntime) {
        let inner = Pair::new(SwapCell::new(5), SwapCell::new(4));
        let mut pair = Pair::new(inner, SwapCell::new(3));
        assert!(rt; pair.stations() == 3);
        assert!(rt; pair.begin(1, &Side::First(Side::Second(6))));
        assert!(rt; pair.begin(2, &Side::Second(2)));
        assert!(rt; pair.begin(3, &Side::First(Side::First(4))));
        assert!(rt; !pair.begin(4, &Side::First(Side::First(4))));
        assert!(rt; pair.touch(1) == (Outcome::CountedReady, Some(Side::First(Side::Second(0)))));
        assert!(rt; pair.touch(2) == (Outcome::CountedReady, Some(Side::Second(0))));
        assert!(rt; pair.touch(3) == (Outcome::CountedReady, Some(Side::First(Side::First(0)))));
        let mut list = [Side::Second(0); 3];
        assert!(rt; pair.show(&mut list));
        assert!(rt;
            list == [
                Side::First(Side::First(4)),
                Side::First(Side::Second(6)),
                Side::Second(2),
            ]
        );
    }
}
