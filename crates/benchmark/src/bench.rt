// How a workload is run and told.
use crate::run::Run;
use std::cmp::min_by_key;

// Each workload is run once, or, where the time is told too, several times for the fastest.
#[derive(Clone, Copy)]
pub struct Bench {
    pub timed: bool,
}

impl Bench {
    // The fastest run. Each draws the same numbers.
    fn best<F: Fn() -> anyhow::Result<Run>>(&self, workload: &F) -> anyhow::Result<Run>
        requires { F.IsAlwaysCallable workload.now }
    {
        let more = if self.timed { 9 } else { 0 };
        let mut best = workload()?;
        for _ in 0..more {
            best = min_by_key(best, workload()?, |run| run.nanoseconds);
        }
        Ok(best)
    }

    // Runs a workload and prints its name, the number of touches, the checksum and, if it is asked for, the nanoseconds a touch.
    pub fn tell<F: Fn() -> anyhow::Result<Run>>(
        &self,
        rt: &HostRuntime,
        name: &str,
        workload: F,
    ) -> anyhow::Result<()>
    where
        F: Drop,
        requires { F.IsAlwaysCallable workload }
    {
        let run = self.best(&workload)?;
        let touches = run.touches;
        let sum = run.sum;
        if self.timed {
            let time = run.hundredths();
            let whole = time / 100;
            let part = time % 100;
            println!(rt; "{name} {touches} {sum:016x} {whole}.{part:02}")?;
        } else {
            println!(rt; "{name} {touches} {sum:016x}")?;
        }
        Ok(())
    }
}
