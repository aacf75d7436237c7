// What a form of a script is answered with.
use boards::outcome::Outcome;
use keys::refusal::Refusal;

// The reply to a form, in which A is the kind of a collected answer. A fault is no reply: it ends the run.
#[derive(Clone, Copy, PartialEq, Eq, Debug)]
pub enum Reply<A> {
    Opened,
    Started,
    Touched(Outcome),
    Collected(A),
    Closed,
    // the call was sent back
    Refused(Refusal),
}
