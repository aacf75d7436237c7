// How the run of a script ends.
use keys::refusal::Refusal;
use lex::fault::Fault;

// A run ends with its report, at a floor form that is sent back, or at the script's first fault.
#[derive(Clone, Copy, PartialEq, Eq, Debug)]
pub enum Ending {
    Reported,
    NotOpened(Refusal),
    Faulty(Fault),
}
