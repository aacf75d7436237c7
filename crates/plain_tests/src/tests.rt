// The ends of every range, the orders at their edges, and the plain machines on short days.
use keys::cut_ticket::CutTicket;
use keys::key::Key;
use keys::piece_code::PieceCode;
use keys::plot_order::PlotOrder;
use keys::refusal::Refusal;
use keys::size_label::{LetterSize, SizeLabel, WaistSize};
use plain::plain_line::PlainLine;
use plain::plain_machine::PlainMachine;
use plain::plain_nest::PlainNest;
use plain::replay::replay;
use plain_model::line_op::{LineAnswer, LineOp};
use plain_model::nest_op::{NestAnswer, NestOp};
use std::collections::BTreeSet;
use std::test::Fail;

fn waist(waist: u32, leg: u32) -> Result<SizeLabel, Refusal> {
    Ok(SizeLabel::Waist(WaistSize::new(waist, leg)?))
}

// Was a call sent back with the number?
fn sent_back<T: Drop>(res: Result<T, Refusal>, number: u8) -> bool {
    match res {
        Ok(_) => false,
        Err(refusal) => refusal.number() == Some(number),
    }
}

#[test]
fn numbers_out_of_range_are_sent_back(rt: HostRuntime) {
    assert!(rt; sent_back(WaistSize::new(39, 76), 14));
    assert!(rt; sent_back(WaistSize::new(161, 76), 14));
    assert!(rt; WaistSize::new(40, 76).is_ok());
    assert!(rt; WaistSize::new(160, 76).is_ok());
    assert!(rt; sent_back(WaistSize::new(82, 49), 14));
    assert!(rt; sent_back(WaistSize::new(82, 111), 14));
    assert!(rt; WaistSize::new(82, 50).is_ok() && WaistSize::new(82, 110).is_ok());
}

#[test]
fn codes_out_of_range_are_sent_back(rt: HostRuntime) {
    assert!(rt; sent_back(PieceCode::new('A', 0), 14));
    assert!(rt; sent_back(PieceCode::new('Z', 1000), 14));
    assert!(rt; sent_back(PieceCode::new('a', 12), 14));
    assert!(rt; sent_back(PieceCode::new('[', 12), 14));
    assert!(rt; PieceCode::new('A', 1).is_ok() && PieceCode::new('Z', 999).is_ok());
}

#[test]
fn elements_out_of_range_are_sent_back(rt: HostRuntime) -> Result<(), Fail> {
    let size = SizeLabel::Letter(LetterSize::M);
    assert!(rt; sent_back(CutTicket::new(size, 0), 14));
    assert!(rt; sent_back(CutTicket::new(size, 201), 14));
    assert!(rt; CutTicket::new(size, 1).is_ok() && CutTicket::new(size, 200).is_ok());
    let piece = PieceCode::new('A', 12)?;
    assert!(rt; sent_back(PlotOrder::new(piece, 0), 14));
    assert!(rt; sent_back(PlotOrder::new(piece, 51), 14));
    assert!(rt; PlotOrder::new(piece, 1).is_ok() && PlotOrder::new(piece, 50).is_ok());
    Ok(())
}

#[test]
fn keys_at_the_edges_are_in_order(rt: HostRuntime) -> Result<(), Fail> {
    let largest = SizeLabel::Letter(LetterSize::Xxl);
    assert!(rt; largest.is_before(&waist(40, 50)?));
    assert!(rt; !waist(40, 50)?.is_before(&largest));
    assert!(rt; waist(82, 110)?.is_before(&waist(83, 50)?));
    assert!(rt; !largest.is_before(&largest));
    assert!(rt; PieceCode::new('A', 999)?.is_before(&PieceCode::new('B', 1)?));
    Ok(())
}

#[test]
fn sorted_sets_keep_the_order(rt: HostRuntime) -> Result<(), Fail> {
    let mut sizes = BTreeSet::new(rt.alloc());
    sizes.insert(waist(82, 76)?)?;
    sizes.insert(SizeLabel::Letter(LetterSize::Xxl))?;
    sizes.insert(waist(40, 50)?)?;
    sizes.insert(waist(82, 76)?)?;
    assert!(rt; sizes.len() == 3);
    assert!(rt; sizes.first().copied() == Some(SizeLabel::Letter(LetterSize::Xxl)));
    assert!(rt; sizes.last().copied() == Some(waist(82, 76)?));
    Ok(())
}

#[test]
fn keys_and_elements_print_as_forms(rt: HostRuntime) -> Result<(), Fail> {
    let heap = rt.alloc();
    let regular = waist(82, 76)?;
    let piece = PieceCode::new('A', 12)?;
    assert!(rt; SizeLabel::Letter(LetterSize::M).to_string(heap)?.as_str() == "(letter m)");
    assert!(rt; CutTicket::new(regular, 40)?.to_string(heap)?.as_str() == "(ticket (w 82 76) 40)");
    assert!(rt; PlotOrder::new(piece, 3)?.to_string(heap)?.as_str() == "(order (piece A 12) 3)");
    Ok(())
}

#[test]
fn a_nest_answers_in_turn(rt: HostRuntime) -> Result<(), Fail> {
    let heap = rt.alloc();
    let small = SizeLabel::Letter(LetterSize::S);
    let regular = waist(82, 76)?;
    let ops = [
        NestOp::Add(regular),
        NestOp::Add(small),
        NestOp::Add(regular),
        NestOp::Find(small),
        NestOp::Drop(small),
        NestOp::Drop(small),
        NestOp::Find(small),
    ];
    let mut nest = PlainNest::new(heap);
    let first = replay(&mut nest, &ops[0..2], heap)?;
    assert!(rt; first.as_slice() == [NestAnswer::Added, NestAnswer::Added].as_slice());
    assert!(rt; nest.keys() == [small, regular].as_slice());
    let rest = replay(&mut nest, &ops[2..7], heap)?;
    assert!(rt;
        rest.as_slice()
            == [
                NestAnswer::There,
                NestAnswer::Yes,
                NestAnswer::Dropped,
                NestAnswer::Missing,
                NestAnswer::No,
            ]
            .as_slice()
    );
    assert!(rt; nest.keys() == [regular].as_slice());
    Ok(())
}

#[test]
fn a_line_gives_its_elements_back_in_order(rt: HostRuntime) -> Result<(), Fail> {
    let mut line = PlainLine::new(rt.alloc());
    assert!(rt; line.apply(&LineOp::Put(7u8))? == LineAnswer::Put);
    assert!(rt; line.apply(&LineOp::Put(9))? == LineAnswer::Put);
    assert!(rt; line.elements() == [7, 9].as_slice());
    assert!(rt; line.apply(&LineOp::Take)? == LineAnswer::Took(7));
    assert!(rt; line.apply(&LineOp::Take)? == LineAnswer::Took(9));
    assert!(rt; line.apply(&LineOp::Take)? == LineAnswer::Empty);
    Ok(())
}
