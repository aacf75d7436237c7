// Lines that are no form, forms with numbers in and out of range, and openings.
use forms::call::line_call;
use forms::opening::line_opening;
use forms_model::call::Call;
use forms_model::opening::{Kind, Opening};
use keys::refusal::Refusal;
use lex::fault::{Fault, FaultKind, Stop};
use lex::line::ScriptLine;
use lex::token::Place;
use std::alloc::Global;
use std::test::Fail;
use trades::trade::{Cutting, Pattern, Trade};

// What is told of line 3 where it is read as a start: that it is one, its refusal, or its fault.
fn start<T: Trade>(heap: Global, line: &[u8]) -> Result<Option<Refusal>, Stop> {
    match line_call::<T>(
        heap,
        ScriptLine {
            number: 3,
            bytes: line,
        },
    )? {
        Call::Start(_, Err(refusal)) => Ok(Some(refusal)),
        _ => Ok(None),
    }
}

fn no_form() -> Result<Option<Refusal>, Stop> {
    Err(Stop::Faulty(Fault {
        kind: FaultKind::NoForm,
        place: Place { line: 3, byte: 1 },
    }))
}

#[test]
fn other_lines_are_no_forms(rt: HostRuntime) {
    let heap = rt.alloc();
    assert_eq!(rt; start::<Cutting>(heap, b""), no_form());
    assert_eq!(rt; start::<Cutting>(heap, b"touch 1"), no_form());
    assert_eq!(rt; start::<Cutting>(heap, b"(touch)"), no_form());
    assert_eq!(rt; start::<Cutting>(heap, b"(touch 1"), no_form());
    assert_eq!(rt; start::<Cutting>(heap, b"(touch one)"), no_form());
    assert_eq!(rt; start::<Cutting>(heap, b"(touch 1) (touch 2)"), no_form());
    assert_eq!(rt;
        start::<Cutting>(heap, b"(floor cutting 1 1 1 1)"),
        no_form()
    );
    assert_eq!(rt;
        start::<Cutting>(heap, b"(start 1 (add (letter xm)))"),
        no_form()
    );
    assert_eq!(rt;
        start::<Cutting>(heap, b"(start 1 (add (piece A 1)))"),
        no_form()
    );
    assert_eq!(rt;
        start::<Cutting>(heap, b"(start 1 (add (w 39 50)) 2)"),
        no_form()
    );
}

#[test]
fn the_forms_of_the_other_trade_are_none(rt: HostRuntime) {
    let heap = rt.alloc();
    assert_eq!(rt;
        start::<Pattern>(heap, b"(start 1 (add (piece a 1)))"),
        no_form()
    );
    assert_eq!(rt;
        start::<Pattern>(heap, b"(start 1 (add (piece AB 1)))"),
        no_form()
    );
    assert_eq!(rt;
        start::<Pattern>(heap, b"(start 1 (add (letter m)))"),
        no_form()
    );
    assert_eq!(rt;
        start::<Pattern>(heap, b"(start 1 (put (piece A 0)))"),
        no_form()
    );
}

#[test]
fn numbers_in_range_are_taken(rt: HostRuntime) {
    let heap = rt.alloc();
    assert_eq!(rt;
        start::<Cutting>(heap, b"(start 1 (add (w 40 50)))"),
        Ok(None)
    );
    assert_eq!(rt;
        start::<Cutting>(heap, b" ( start 99999(drop (w 160 110) )) "),
        Ok(None)
    );
    assert_eq!(rt;
        start::<Cutting>(heap, b"(start 0 (put (ticket (letter xxl) 200)))"),
        Ok(None)
    );
    assert_eq!(rt; start::<Cutting>(heap, b"(start 1 (take))"), Ok(None));
    assert_eq!(rt;
        start::<Pattern>(heap, b"(start 1 (find (piece Z 999)))"),
        Ok(None)
    );
    assert_eq!(rt;
        start::<Pattern>(heap, b"(start 1 (put (order (piece A 1) 50)))"),
        Ok(None)
    );
}

#[test]
fn numbers_out_of_range_are_refused(rt: HostRuntime) {
    let heap = rt.alloc();
    let refused = Ok(Some(Refusal::OutOfRange));
    assert_eq!(rt;
        start::<Cutting>(heap, b"(start 1 (add (w 39 50)))"),
        refused
    );
    assert_eq!(rt;
        start::<Cutting>(heap, b"(start 1 (add (w 161 50)))"),
        refused
    );
    assert_eq!(rt;
        start::<Cutting>(heap, b"(start 1 (add (w 40 49)))"),
        refused
    );
    assert_eq!(rt;
        start::<Cutting>(heap, b"(start 1 (add (w 40 111)))"),
        refused
    );
    assert_eq!(rt;
        start::<Cutting>(heap, b"(start 1 (put (ticket (w 39 50) 201)))"),
        refused
    );
    assert_eq!(rt;
        start::<Cutting>(heap, b"(start 1 (put (ticket (letter m) 0)))"),
        refused
    );
    assert_eq!(rt;
        start::<Pattern>(heap, b"(start 1 (find (piece A 1000)))"),
        refused
    );
    assert_eq!(rt;
        start::<Pattern>(heap, b"(start 1 (put (order (piece A 1) 51)))"),
        refused
    );
}

// The first line of a script.
fn first(bytes: &[u8]) -> ScriptLine<'_> {
    ScriptLine { number: 1, bytes }
}

#[test]
fn an_opening_has_its_numbers_as_written(rt: HostRuntime) -> Result<(), Fail> {
    let opening = line_opening(rt.alloc(), first(b"(floor pattern 2 4 99999 0)"))?;
    assert_eq!(rt;
        opening,
        Opening {
            kind: Kind::Pattern,
            stations: 2,
            limit: 4,
            nodes: 99999,
            line_nodes: 0,
        }
    );
    match line_opening(rt.alloc(), first(b"(floor sewing 2 4 3 2)")) {
        Err(Stop::Faulty(fault)) => {
            assert_eq!(rt;
                fault,
                Fault {
                    kind: FaultKind::NoForm,
                    place: Place { line: 1, byte: 1 },
                }
            );
            Ok(())
        },
        _ => Err(Fail::new("no fault")),
    }
}
