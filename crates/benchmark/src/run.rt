// What is told of one run of a workload.
use crate::checksum::Checksum;
use std::time::Duration;

// How many touches there were, the checksum of what they told and left, and their time in nanoseconds.
#[derive(Clone, Copy)]
pub struct Run {
    pub touches: usize,
    pub sum: u64,
    pub nanoseconds: u64,
}

impl Run {
    pub fn new(touches: usize, sum: Checksum, time: Duration) -> Run {
        Run {
            touches,
            sum: sum.value(),
            nanoseconds: u64::try_from(time.as_nanos()).unwrap_or(u64::MAX),
        }
    }

    // Nanoseconds a touch, in hundredths. They are no float, since `as` has to lose nothing.
    pub fn hundredths(&self) -> u64 {
        self.nanoseconds
            .saturating_mul(100)
            .checked_div(self.touches as u64)
            .unwrap_or(0)
    }
}
