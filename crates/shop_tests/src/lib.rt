// Tests of a shop: its sizes, and what is made where memory is not lacking.
#![tactic(auto)]

#[cfg(test)]
mod tests {
    use boards::board::Board;
    use keys::refusal::Refusal;
    use keys::size_label::{LetterSize, SizeLabel};
    use shop::making::{make_line, make_nest};
    use shop::opening::open_shop;
    use shop::sizes::Sizes;
    use std::test::Fail;

    const SMALLEST: SizeLabel = SizeLabel::Letter(LetterSize::Xs);

    const SIZES: Sizes = Sizes {
        stations: 16,
        limit: 3,
        nest_nodes: 512,
        line_nodes: 1,
    };

    // Each size is refused just outside its range, and the first of those that are refused is told.
    #[test]
    fn sizes(rt: HostRuntime) {
        assert_eq!(rt; SIZES.check(), Ok(()));
        let stations = Sizes {
            stations: 17,
            limit: 0,
            ..SIZES
        };
        assert_eq!(rt; stations.check(), Err(Refusal::StationCount));
        let limit = Sizes {
            limit: 1025,
            nest_nodes: 0,
            ..SIZES
        };
        assert_eq!(rt; limit.check(), Err(Refusal::LedgerLimit));
        let nest_nodes = Sizes {
            nest_nodes: 513,
            line_nodes: 0,
            ..SIZES
        };
        assert_eq!(rt; nest_nodes.check(), Err(Refusal::NestSize));
        let line_nodes = Sizes {
            line_nodes: 513,
            ..SIZES
        };
        assert_eq!(rt; line_nodes.check(), Err(Refusal::LineSize));
    }

    #[test]
    fn boards(rt: HostRuntime) -> Result<(), Fail> {
        let nest = make_nest(rt.alloc(), 16, 512, SMALLEST)?;
        assert_eq!(rt; nest.stations(), 16);
        assert_eq!(rt; nest.items(), 0);
        let line = make_line(rt.alloc(), 1, 1, 7u8)?;
        assert_eq!(rt; line.stations(), 1);
        assert_eq!(rt; line.items(), 0);
        Ok(())
    }

    #[test]
    fn opening(rt: HostRuntime) -> Result<(), Fail> {
        let shop = open_shop(rt.alloc(), SIZES, SMALLEST, 7u8)?;
        assert_eq!(rt; shop.floor.limit(), 3);
        assert_eq!(rt; shop.floor.board().stations(), 16);
        assert_eq!(rt; shop.ledger.len(), 3);
        Ok(())
    }
}
