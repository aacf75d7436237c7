// The lines of a script.
ghost use Rattle.std.specs.Prelude.{◌≡◌, ◌+◌, ◌-◌, ◌^◌, ◌<◌, ◌≤◌, drop, length};
ghost use Rattle.std.specs.List.{prefix_len};
ghost use Rattle.lex.specs.Lines.{in_line, first_of, after_first};

use crate::token::Place;

// A line of a script: its number, counted from 1, and its bytes without a newline.
#[derive(Clone, Copy)]
pub struct ScriptLine<'s> {
    pub number: usize,
    pub bytes: &'s [u8],
}

impl<'s> ScriptLine<'s> {
    ghost use Rattle.lex.specs.Tokens.{placed};

    // Where the bytes that are left of the line begin.
    pub(crate) fn place_of(self, rest: &[u8]) -> Place
        requires { (length rest.now ≤ length self.bytes.now) × (0 < length rest.now) }
        ensures { result ≡ placed self.entry.number (length self.entry.bytes.now - length rest.now + 1) }
    {
        Place {
            line: self.number,
            byte: self.bytes.len() - rest.len() + 1,
        }
    }
}

// The lines that are left of a script, with the number of the next one.
#[derive(Drop)]
pub struct Lines<'s> {
    pub rest: &'s [u8],
    pub number: usize,
    // there are no more lines than bytes, so their numbers fit
    ghost counted: { number + length rest.now < 2 ^ 64 },
}

impl<'s> Lines<'s> {
    // All lines of a script.
    pub fn new(script: &'s [u8]) -> Self
        ensures rest { result.rest.now ≡ script.now }
        ensures number { result.number ≡ 1 }
    {
        Lines {
            rest: script,
            number: 1,
        }
    }
}

impl<'s> Iterator for Lines<'s> {
    type Item = ScriptLine<'s>;

    ghost use Rattle.std.specs.Iterator.{at_most};
    ghost use Rattle.lex.specs.NextLine.{GivesLine};

    ghost next_gives = { GivesLine };

    ghost remaining = { λ lines. at_most (length lines.rest.now) };

    #[tactic(auto, using(crate::proofs::Lines::after_shorter, crate::proofs::Lines::lines_first))]
    fn next(&mut self) -> Option<ScriptLine<'s>> {
        if self.rest.is_empty() {
            return None;
        }
        let (bytes, rest) = first_line(self.rest);
        let line = ScriptLine {
            number: self.number,
            bytes,
        };
        self.rest = rest;
        self.number += 1;
        Some(line)
    }
}

// How many bytes stand before the first newline.
fn line_length(bytes: &[u8]) -> usize
    ensures within { result ≤ length bytes.now }
    ensures length { result ≡ prefix_len in_line bytes.now }
{
    bytes.iter().take_while(|byte| **byte != b'\n').count()
}

// All but the newline at the front, where there is one.
fn past_newline<'s>(after: &'s [u8]) -> &'s [u8]
    ensures { result.now ≡ drop 1 after.now }
{
    match after {
        [] => after,
        [_, rest @ ..] => rest,
    }
}

// The first line without its newline, which may be absent, and the bytes after it.
pub fn first_line<'s>(script: &'s [u8]) -> (&'s [u8], &'s [u8])
    ensures line { result.0.now ≡ first_of script.now }
    ensures after { result.1.now ≡ after_first script.now }
{
    let (line, after) = script.split_at(line_length(script));
    (line, past_newline(after))
}
