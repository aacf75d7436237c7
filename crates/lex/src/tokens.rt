// The tokens of a line.
ghost use Rattle.std.specs.Prelude.{◌≡◌, ◌+◌, ◌-◌, ◌<◌, ◌≤◌, length};
ghost use Rattle.lex.specs.Tokens.{part_lexeme, read_part, placed, extent, tokens_of, Reads};

use crate::fault::{Fault, FaultKind, Stop};
use crate::line::ScriptLine;
use crate::run::{run_length, run_token};
use crate::token::{Place, Token};
use std::alloc::Global;

// What a part of a line is: a space is nothing, a bracket or a run is a token, or else there is a fault.
fn part_token<'s>(part: &'s [u8], place: Place) -> Result<Option<Token<'s>>, Fault>
    ensures { read_part result ≡ part_lexeme place part.now }
{
    match part {
        [] | [b' ', ..] => Ok(None),
        [b'(', ..] => Ok(Some(Token::Open(place))),
        [b')', ..] => Ok(Some(Token::Close(place))),
        [first, ..] if first.is_ascii_alphanumeric() => Ok(Some(run_token(part, place)?)),
        _ => Err(Fault {
            kind: FaultKind::OtherByte,
            place,
        }),
    }
}

// How many bytes of those after the first belong to its part: the rest of a run, or none.
fn extent(first: u8, after: &[u8]) -> usize
    ensures { result ≡ extent first after.now }
{
    if first.is_ascii_alphanumeric() {
        run_length(after)
    } else {
        0
    }
}

// The tokens of a line of the script, or its leftmost byte or run that is none.
pub fn tokens<'s>(heap: Global, line: ScriptLine<'s>) -> Result<Vec<Token<'s>>, Stop>
    ensures { Reads result (tokens_of line.entry.number line.entry.bytes.now) }
{
    let mut found = Vec::new(heap);
    let mut rest = line.bytes;
    while let [first, after @ ..] = rest {
        let place = line.place_of(rest);
        let (part, next) = rest.split_at(extent(*first, after) + 1);
        if let Some(token) = part_token(part, place)? {
            found.push(token)?;
        }
        rest = next;
    }
    Ok(found)
}
