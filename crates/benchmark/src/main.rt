// The time of a touch. For each workload its name, the number of touches and a checksum are printed; with the argument
// `times` each is run several times, and the nanoseconds a touch of the fastest run are printed too.
#![tactic(auto)]

mod bench;
mod busy;
mod checksum;
mod day;
mod generator;
mod host;
mod making;
mod requests;
mod run;
mod show;
mod walk;

use bench::Bench;
use busy::{busy_line, busy_nest, busy_pair};
use day::{short_operations, whole_day};
use host::draw;
use making::LARGEST;
use shop::sizes::Sizes;
use show::show_pair;
use std::env;
use walk::{bare_walk, find_last};

// Nests by their nodes, how many nests there are, and how many touches each of them gets: enough for most nodes to be
// taken, and about 100,000 in all.
const NESTS: [(usize, usize, usize); 3] = [(8, 512, 192), (64, 32, 3072), (512, 1, 131072)];

fn tell_nests(rt: &HostRuntime, bench: &Bench) -> anyhow::Result<()> {
    for (nest_nodes, number, touches) in NESTS {
        for stations in [1, 4, 16] {
            let name = format!(in rt.alloc(); "nest-{stations}-stations-{nest_nodes}-nodes")?;
            let sizes = Sizes {
                stations,
                nest_nodes,
                ..LARGEST
            };
            bench.tell(rt, &name, || busy_nest(rt, sizes, number, touches))?;
        }
    }
    Ok(())
}

fn main(rt: HostRuntime) -> anyhow::Result<()> {
    let timed = env::args(&rt)?.any(|argument| argument.as_str() == "times");
    let bench = Bench { timed };
    // what a host does around a touch
    bench.tell(&rt, "host", || draw(&rt, 100_000))?;
    tell_nests(&rt, &bench)?;
    bench.tell(&rt, "line", || busy_line(&rt))?;
    bench.tell(&rt, "pair", || busy_pair(&rt))?;
    bench.tell(&rt, "whole-day", || whole_day(&rt))?;
    bench.tell(&rt, "short-operations", || short_operations(&rt))?;
    bench.tell(&rt, "bare-walk", || bare_walk(&rt))?;
    bench.tell(&rt, "find-last", || find_last(&rt))?;
    bench.tell(&rt, "show-pair", || show_pair(&rt))
}
