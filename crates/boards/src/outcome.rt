// What a touch tells.

// What one touch did. An answer goes with the last three and with no other.
#[derive(Clone, Copy, PartialEq, Eq, Debug)]
pub enum Outcome {
    // the station does not wait, and nothing changed
    Idle,
    // the operation is still under way
    Going,
    // the operation took effect at this touch
    Counted,
    // the operation took effect at this touch, and its answer can be collected
    CountedReady,
    // the answer of an operation that took effect before can be collected
    Ready,
}
