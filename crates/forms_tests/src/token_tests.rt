// The tokens of lines: each fault at its place.
use lex::fault::{Fault, FaultKind, Stop};
use lex::line::{Lines, ScriptLine, first_line};
use lex::token::Place;
use lex::tokens::tokens;
use std::alloc::Global;

// How many tokens a line has, or its fault.
fn outcome(heap: Global, line: &[u8]) -> Result<usize, Stop> {
    let tokens = tokens(
        heap,
        ScriptLine {
            number: 7,
            bytes: line,
        },
    )?;
    Ok(tokens.len())
}

fn at(kind: FaultKind, byte: usize) -> Result<usize, Stop> {
    Err(Stop::Faulty(Fault {
        kind,
        place: Place { line: 7, byte },
    }))
}

#[test]
fn every_other_byte_is_a_fault(rt: HostRuntime) {
    for byte in 0..=255u8 {
        let line = [b'(', byte];
        let fine = byte.is_ascii_alphanumeric() || byte == b' ' || byte == b'(' || byte == b')';
        let fault = outcome(rt.alloc(), &line) == at(FaultKind::OtherByte, 2);
        assert!(rt; fault != fine);
    }
}

#[test]
fn other_runs_are_faults(rt: HostRuntime) {
    assert_eq!(rt;
        outcome(rt.alloc(), b"(touch 01)"),
        at(FaultKind::OtherRun, 8)
    );
    assert_eq!(rt;
        outcome(rt.alloc(), b"(touch 100000)"),
        at(FaultKind::OtherRun, 8)
    );
    assert_eq!(rt;
        outcome(rt.alloc(), b" abcdefghi"),
        at(FaultKind::OtherRun, 2)
    );
    assert_eq!(rt;
        outcome(rt.alloc(), b"(w 82cm 76)"),
        at(FaultKind::OtherRun, 4)
    );
    assert_eq!(rt; outcome(rt.alloc(), b"( abcdefg8 0 99999 a1)"), Ok(6));
}

#[test]
fn the_leftmost_fault_is_told(rt: HostRuntime) {
    assert_eq!(rt;
        outcome(rt.alloc(), b"(a 01 -)"),
        at(FaultKind::OtherRun, 4)
    );
    assert_eq!(rt;
        outcome(rt.alloc(), b"(a - 01)"),
        at(FaultKind::OtherByte, 4)
    );
}

#[test]
fn lines_are_cut_at_newlines(rt: HostRuntime) {
    let (line, rest) = first_line(b"a\n\nb");
    assert!(rt; line == b"a".as_slice());
    let (line, rest) = first_line(rest);
    assert!(rt; line.is_empty());
    let (line, rest) = first_line(rest);
    assert!(rt; line == b"b".as_slice());
    assert!(rt; rest.is_empty());
    let (_, rest) = first_line(b"a\n");
    assert!(rt; rest.is_empty());
}

#[test]
fn lines_are_numbered(rt: HostRuntime) {
    let mut lines = Lines::new(b"a\n\nb");
    for (number, length) in [(1, 1), (2, 0), (3, 1)] {
        let read = lines.next();
        assert!(rt; read.is_some_and(|line| line.number == number && line.bytes.len() == length));
    }
    assert!(rt; lines.next().is_none());
    assert!(rt; Lines::new(b"").next().is_none());
}
