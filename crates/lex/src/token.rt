// The tokens of a script.

// Where a token stands: its line in the script and its first byte in that line, both counted from 1.
#[derive(Clone, Copy, PartialEq, Eq, Debug)]
pub struct Place {
    pub line: usize,
    pub byte: usize,
}

// A round bracket, a word or a number. Each token is a part of the script: a word and a number borrow their bytes
// from it, and a number has its value beside them.
#[derive(Clone, Copy)]
pub enum Token<'s> {
    Open(Place),
    Close(Place),
    Word(&'s [u8], Place),
    Number(&'s [u8], u32, Place),
}
