// Numbers that look random and are the same in every run.

// The xorshift generator of 64 bits. Its state is never 0.
#[derive(Clone, Copy)]
pub struct Generator {
    state: u64,
}

impl Generator {
    pub fn new() -> Generator {
        Generator {
            state: 0x9e3779b97f4a7c15,
        }
    }

    pub fn draw(&mut self) -> u64 {
        let mut x = self.state;
        x ^= x << 13;
        x ^= x >> 7;
        x ^= x << 17;
        self.state = x;
        x
    }

    // A number below `bound`, which is below 2^32.
    pub fn below(&mut self, bound: u64) -> u64 {
        (self.draw() >> 32).wrapping_mul(bound) >> 32
    }

    // One of the numbers from 1 to `stations`.
    pub fn station(&mut self, stations: usize) -> usize {
        (self.below(stations as u64) as usize).wrapping_add(1)
    }
}
