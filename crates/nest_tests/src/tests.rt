// Stations that cross each other's way, the limits of making, and the asking calls.
use boards::board::Board;
use boards::outcome::Outcome;
use boards::station::Station;
use keys::key::Key;
use keys::piece_code::PieceCode;
use keys::refusal::Refusal;
use keys::size_label::{LetterSize, SizeLabel};
use nest::Nest;
use nest_model::cell::Cell;
use nest_model::node::Node;
use nest_model::work::Work;
use plain_model::nest_op::{NestAnswer, NestOp};
use std::alloc::Global;
use std::test::Fail;

const M: SizeLabel = SizeLabel::Letter(LetterSize::M);

const L: SizeLabel = SizeLabel::Letter(LetterSize::L);

// A nest over tables that are longer than needed and filled with what must not matter.
fn made<K: Key + Clone>(
    heap: Global,
    stations: usize,
    size: usize,
    key: K,
) -> Result<Nest<K>, Fail> {
    let cell = Cell {
        next: Some(0),
        mark: true,
    };
    let nodes = vec![in heap; Node { key, cell }; 8]?;
    let works = vec![in heap; Work::Free; 4]?;
    Nest::<K>::check(stations, size, &nodes, &works)?;
    Ok(Nest::<K>::new(stations, size, nodes, works))
}

// Does each of so many touches of a station say `going`?
fn goes<K: Key>(nest: &mut Nest<K>, station: usize, touches: usize) -> bool {
    (0..touches).all(|_| nest.touch(station) == (Outcome::Going, None))
}

// Does the next touch of a station say `counted ready` with the answer?
fn answers<K: Key>(nest: &mut Nest<K>, station: usize, answer: NestAnswer) -> bool {
    nest.touch(station) == (Outcome::CountedReady, Some(answer))
}

// Does an operation go for so many touches and then have the answer? The station is free again.
fn does<K: Key>(
    nest: &mut Nest<K>,
    station: usize,
    op: NestOp<K>,
    going: usize,
    answer: NestAnswer,
) -> bool {
    let done = nest.begin(station, &op)
        && goes(nest, station, going)
        && answers(nest, station, answer);
    nest.release(station);
    done
}

#[test]
fn a_find_walks_past_a_dropped_node(rt: HostRuntime) -> Result<(), Fail> {
    let mut nest = made(rt.alloc(), 1, 1, L)?;
    assert!(rt; does(&mut nest, 1, NestOp::Add(M), 1, NestAnswer::Added));
    assert!(rt; does(&mut nest, 1, NestOp::Drop(M), 2, NestAnswer::Dropped));
    assert!(rt; does(&mut nest, 1, NestOp::Find(M), 4, NestAnswer::No));
    assert!(rt; !nest.space(&NestOp::Add(M)) && nest.space(&NestOp::Find(M)));
    Ok(())
}

#[test]
fn an_add_behind_a_node_that_is_dropped_starts_again(rt: HostRuntime) -> Result<(), Fail> {
    let mut nest = made(rt.alloc(), 2, 3, L)?;
    assert!(rt; does(&mut nest, 1, NestOp::Add(M), 1, NestAnswer::Added));
    assert!(rt; nest.begin(1, &NestOp::Drop(M)) && goes(&mut nest, 1, 2));
    assert!(rt; nest.begin(2, &NestOp::Add(L)) && goes(&mut nest, 2, 2));
    assert!(rt; answers(&mut nest, 1, NestAnswer::Dropped));
    assert!(rt; goes(&mut nest, 2, 1));
    assert!(rt; matches!(nest.station(2), Station::Uncounted(_)));
    assert!(rt; goes(&mut nest, 2, 5) && answers(&mut nest, 2, NestAnswer::Added));
    assert!(rt; nest.items() == 1 && nest.item(0) == Some(L));
    Ok(())
}

#[test]
fn an_add_of_a_key_that_is_being_dropped(rt: HostRuntime) -> Result<(), Fail> {
    let mut nest = made(rt.alloc(), 2, 3, L)?;
    assert!(rt; does(&mut nest, 1, NestOp::Add(M), 1, NestAnswer::Added));
    assert!(rt; nest.begin(1, &NestOp::Drop(M)) && goes(&mut nest, 1, 2));
    assert!(rt; does(&mut nest, 2, NestOp::Add(M), 1, NestAnswer::There));
    assert!(rt; answers(&mut nest, 1, NestAnswer::Dropped));
    assert!(rt; nest.items() == 0);
    Ok(())
}

#[test]
fn a_drop_loses_to_another(rt: HostRuntime) -> Result<(), Fail> {
    let mut nest = made(rt.alloc(), 2, 3, L)?;
    assert!(rt; does(&mut nest, 1, NestOp::Add(M), 1, NestAnswer::Added));
    assert!(rt; nest.begin(1, &NestOp::Drop(M)) && goes(&mut nest, 1, 2));
    assert!(rt; does(&mut nest, 2, NestOp::Drop(M), 2, NestAnswer::Dropped));
    assert!(rt; goes(&mut nest, 1, 5) && answers(&mut nest, 1, NestAnswer::Missing));
    Ok(())
}

#[test]
fn keys_are_listed_in_their_order(rt: HostRuntime) -> Result<(), Fail> {
    let first = PieceCode::new('A', 999)?;
    let second = PieceCode::new('B', 1)?;
    let mut nest = made(rt.alloc(), 1, 2, first)?;
    let mut short = [second; 1];
    let mut list = [second; 3];
    assert!(rt; nest.items() == 0);
    assert!(rt; does(&mut nest, 1, NestOp::Add(second), 1, NestAnswer::Added));
    assert!(rt; does(&mut nest, 1, NestOp::Add(first), 1, NestAnswer::Added));
    assert!(rt;
        nest.item(0) == Some(first) && nest.item(1) == Some(second) && nest.item(2).is_none()
    );
    assert!(rt; !nest.show(&mut short) && short == [second]);
    assert!(rt; nest.show(&mut list) && list == [first, second, second]);
    Ok(())
}

// Is the number of the refusal this one, of a nest over tables of these lengths?
fn refused(
    heap: Global,
    stations: usize,
    size: usize,
    nodes: usize,
    works: usize,
) -> Result<Option<u8>, Fail> {
    let cell = Cell {
        next: None,
        mark: false,
    };
    let nodes = vec![in heap; Node { key: M, cell }; nodes]?;
    let works = vec![in heap; Work::Free; works]?;
    let checked = Nest::<SizeLabel>::check(stations, size, &nodes, &works);
    Ok(checked.err().and_then(|refusal| refusal.number()))
}

#[test]
fn sizes_out_of_range_are_refused(rt: HostRuntime) -> Result<(), Fail> {
    let heap = rt.alloc();
    assert!(rt; refused(heap, 0, 0, 0, 0)? == Some(1) && refused(heap, 17, 1, 3, 17)? == Some(1));
    assert!(rt;
        refused(heap, 16, 0, 3, 0)? == Some(3) && refused(heap, 1, 513, 600, 1)? == Some(3)
    );
    assert!(rt; refused(heap, 1, 1, 2, 1)? == Some(5) && refused(heap, 2, 1, 3, 1)? == Some(5));
    assert!(rt; refused(heap, 16, 512, 514, 16)?.is_none() && refused(heap, 1, 1, 3, 1)?.is_none());
    Ok(())
}
