// How operations and answers print: as the forms of a script.
ghost use Rattle.std.specs.Prelude.{Some};
ghost use Rattle.plain_model.specs.Printed.{nest_op_text, nest_answer_text, line_op_text, line_answer_text, side_text};
ghost use Rattle.std.proofs.Common.{rules};

use crate::line_op::{LineAnswer, LineOp};
use crate::nest_op::{NestAnswer, NestOp};
use crate::side::Side;
use keys::text::Text;
use std::fmt;

impl<K: Text> fmt::Display for NestOp<K> {
    ghost output = { λ o. Some (nest_op_text K.Text.bytes o) };

    fn fmt<W: fmt::Write>(&self, f: &mut fmt::Formatter<W>) -> fmt::Result {
        match self {
            NestOp::Add(key) => write!(f, "(add {key})"),
            NestOp::Drop(key) => write!(f, "(drop {key})"),
            NestOp::Find(key) => write!(f, "(find {key})"),
        }
    }
}

impl fmt::Display for NestAnswer {
    ghost output = { λ a. Some (nest_answer_text a) };

    fn fmt<W: fmt::Write>(&self, f: &mut fmt::Formatter<W>) -> fmt::Result {
        match self {
            NestAnswer::Added => write!(f, "(added)"),
            NestAnswer::There => write!(f, "(there)"),
            NestAnswer::Dropped => write!(f, "(dropped)"),
            NestAnswer::Missing => write!(f, "(missing)"),
            NestAnswer::Yes => write!(f, "(yes)"),
            NestAnswer::No => write!(f, "(no)"),
        }
    }
}

impl<E: Text> fmt::Display for LineOp<E> {
    ghost output = { λ o. Some (line_op_text E.Text.bytes o) };

    fn fmt<W: fmt::Write>(&self, f: &mut fmt::Formatter<W>) -> fmt::Result {
        match self {
            LineOp::Put(element) => write!(f, "(put {element})"),
            LineOp::Take => write!(f, "(take)"),
        }
    }
}

impl<E: Text> fmt::Display for LineAnswer<E> {
    ghost output = { λ a. Some (line_answer_text E.Text.bytes a) };

    fn fmt<W: fmt::Write>(&self, f: &mut fmt::Formatter<W>) -> fmt::Result {
        match self {
            LineAnswer::Put => write!(f, "(put)"),
            LineAnswer::Took(element) => write!(f, "(took {element})"),
            LineAnswer::Empty => write!(f, "(empty)"),
        }
    }
}

impl<A: Text, B: Text> fmt::Display for Side<A, B> {
    ghost output = { λ s. Some (side_text A.Text.bytes B.Text.bytes s) };

    fn fmt<W: fmt::Write>(&self, f: &mut fmt::Formatter<W>) -> fmt::Result {
        match self {
            Side::First(a) => write!(f, "{a}"),
            Side::Second(b) => write!(f, "{b}"),
        }
    }
}

impl<K: Text> Text for NestOp<K> {
    ghost bytes = { nest_op_text K.Text.bytes };

    ghost shows = { Prim.search rules };
}

impl Text for NestAnswer {
    ghost bytes = { nest_answer_text };

    ghost shows = { Prim.search rules };
}

impl<E: Text> Text for LineOp<E> {
    ghost bytes = { line_op_text E.Text.bytes };

    ghost shows = { Prim.search rules };
}

impl<E: Text> Text for LineAnswer<E> {
    ghost bytes = { line_answer_text E.Text.bytes };

    ghost shows = { Prim.search rules };
}

impl<A: Text, B: Text> Text for Side<A, B> {
    ghost bytes = { side_text A.Text.bytes B.Text.bytes };

    ghost shows = { Prim.search rules };
}
