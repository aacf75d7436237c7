// Boards whose stations are all at work: a nest, a line, and a pair of the two.
use crate::host::work_on_each;
use crate::making::{LARGEST, make_line, make_nest, make_pair};
use crate::requests::{LineRequests, NestRequests, ShopRequests};
use crate::run::Run;
use shop::sizes::Sizes;

// So many nests with keys as many as nodes, and so many touches of each.
pub fn busy_nest(
    rt: &HostRuntime,
    sizes: Sizes,
    number: usize,
    touches: usize,
) -> anyhow::Result<Run> {
    // pushed one by one: made by `try_resize_with` their touches took 3 to 7% more time
    let mut nests = Vec::new(rt.alloc());
    for _ in 0..number {
        nests.push(make_nest(rt.alloc(), sizes)?)?;
    }
    let keys = sizes.nest_nodes as u64;
    work_on_each(rt, &mut nests, NestRequests { keys }, touches)
}

// Lines of 512 nodes with 4 stations.
pub fn busy_line(rt: &HostRuntime) -> anyhow::Result<Run> {
    let sizes = Sizes {
        stations: 4,
        ..LARGEST
    };
    let mut lines = Vec::new(rt.alloc());
    lines.try_resize_with(20, || make_line(rt.alloc(), sizes))?;
    work_on_each(rt, &mut lines, LineRequests, 5000)
}

// Pairs of a nest of 64 nodes and a line of 512 with 4 stations.
pub fn busy_pair(rt: &HostRuntime) -> anyhow::Result<Run> {
    let sizes = Sizes {
        stations: 4,
        nest_nodes: 64,
        ..LARGEST
    };
    let mut pairs = Vec::new(rt.alloc());
    pairs.try_resize_with(32, || make_pair(rt.alloc(), sizes))?;
    let requests = ShopRequests {
        nest: NestRequests { keys: 64 },
    };
    work_on_each(rt, &mut pairs, requests, 3072)
}
