// How replies print.
ghost use Rattle.std.specs.Prelude.{Some};
ghost use Rattle.script_model.specs.Replies.{reply_text};

use crate::reply::Reply;
use boards::outcome::Outcome;
use keys::text::Text;
use std::fmt;

impl<A: Text> fmt::Display for Reply<A> {
    ghost output = { λ r. Some (reply_text A.Text.bytes r) };

    fn fmt<W: fmt::Write>(&self, f: &mut fmt::Formatter<W>) -> fmt::Result {
        match self {
            Reply::Opened => write!(f, "(opened)"),
            Reply::Started => write!(f, "(started)"),
            Reply::Touched(Outcome::Idle) => write!(f, "(idle)"),
            Reply::Touched(Outcome::Going) => write!(f, "(going)"),
            Reply::Touched(Outcome::Counted) => write!(f, "(counted)"),
            Reply::Touched(Outcome::CountedReady) => write!(f, "(counted ready)"),
            Reply::Touched(Outcome::Ready) => write!(f, "(ready)"),
            Reply::Collected(answer) => write!(f, "{answer}"),
            Reply::Closed => write!(f, "(closed)"),
            Reply::Refused(reason) => match reason.number() {
                Some(number) => write!(f, "(refused {number})"),
                None => write!(f, "(refused)"),
            },
        }
    }
}
