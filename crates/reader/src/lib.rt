// Tokens, read one after another.
#![tactic(auto)]

ghost use Rattle.std.specs.Prelude.{◌≡◌, map};
ghost use Rattle.std.specs.Str.{bytes_eq};
ghost use Rattle.lex.specs.Runs.{lexeme};
ghost use Rattle.forms_model.specs.Reading.{Took, TookBy, token_at, open_at, close_at, word_at, number_at, keyword_at, alone};

pub mod form;

use lex::token::Token;
use std::marker::Model;

// The tokens that are still to be read. Each reading takes a form from their front, or answers `None` where they are
// no such form; what is then left does not matter, since the line is at fault.
#[derive(Drop)]
pub struct Reader<'t, 's> {
    pub rest: &'t [Token<'s>],
}

// A contract sees the tokens as values.
impl<'t, 's> Model for Reader<'t, 's> {
    ghost use Rattle.std.specs.Prelude.{List, map};
    ghost use Rattle.lex.specs.Runs.{Lexeme, lexeme};

    ghost Value = { List Lexeme };

    ghost view = { λ reader. map lexeme reader.rest.now };
}

impl<'t, 's> Reader<'t, 's> {
    // All tokens of a line.
    pub fn new(tokens: &'t [Token<'s>]) -> Self
        ensures { result ≡ map lexeme tokens.now }
    {
        Reader { rest: tokens }
    }

    fn token(&mut self) -> Option<Token<'s>>
        ensures { TookBy lexeme result (token_at self.old) self.new }
    {
        let [first, rest @ ..] = self.rest else {
            return None;
        };
        self.rest = rest;
        Some(*first)
    }

    // Callers write `open()?` and `close()?` round a form: a method that takes a closure in their place would save one
    // line of each form, and each closure would need a contract of its own.
    pub fn open(&mut self) -> Option<()>
        ensures { Took result (open_at self.old) self.new }
    {
        match self.token()? {
            Token::Open(_) => Some(()),
            _ => None,
        }
    }

    pub fn close(&mut self) -> Option<()>
        ensures { Took result (close_at self.old) self.new }
    {
        match self.token()? {
            Token::Close(_) => Some(()),
            _ => None,
        }
    }

    // Reads a word and answers its bytes.
    pub fn word(&mut self) -> Option<&'s [u8]>
        ensures { TookBy (λ x. x.now) result (word_at self.old) self.new }
    {
        match self.token()? {
            Token::Word(bytes, _) => Some(bytes),
            _ => None,
        }
    }

    // Reads a number and answers its value.
    pub fn number(&mut self) -> Option<u32>
        ensures { Took result (number_at self.old) self.new }
    {
        match self.token()? {
            Token::Number(_, value, _) => Some(value),
            _ => None,
        }
    }

    // Reads a word that has to be `name`.
    pub fn keyword(&mut self, name: &[u8]) -> Option<()>
        ensures { Took result (keyword_at name.now self.old) self.new }
    {
        spells(self.word()?, name).then_some(())
    }

    // What was read, where no token is left.
    pub fn finish<A: Copy>(&self, read: A) -> Option<A>
        ensures { result ≡ alone read self.now }
    {
        self.rest.is_empty().then_some(read)
    }
}

// Has the word the bytes of the name?
pub fn spells(word: &[u8], name: &[u8]) -> bool
    ensures { result ≡ bytes_eq word.now name.now }
{
    word == name
}
