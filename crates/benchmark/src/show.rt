// Listings of a pair.
use crate::checksum::{Checksum, Coded};
use crate::generator::Generator;
use crate::host::alone;
use crate::making::{LARGEST, make_pair};
use crate::requests::{key, ticket};
use crate::run::Run;
use boards::board::Board;
use keys::cut_ticket::CutTicket;
use keys::size_label::SizeLabel;
use line::Line;
use nest::Nest;
use pair::pair::Pair;
use plain_model::line_op::LineOp;
use plain_model::nest_op::NestOp;
use plain_model::side::Side;
use shop::sizes::Sizes;
use std::time::Instant;

// Hangs 200 keys and queues 200 tickets.
fn fill(pair: &mut Pair<Nest<SizeLabel>, Line<CutTicket>>, sum: &mut Checksum) {
    let mut numbers = Generator::new();
    for number in 0..200 {
        let _ = alone(pair, &Side::First(NestOp::Add(key(number))), sum);
        if let Some(ticket) = ticket(&mut numbers) {
            let _ = alone(pair, &Side::Second(LineOp::Put(ticket)), sum);
        }
    }
}

// Shows of a pair with 200 keys and 200 tickets. A touch is here an item that was shown.
pub fn show_pair(rt: &HostRuntime) -> anyhow::Result<Run> {
    let sizes = Sizes {
        stations: 1,
        nest_nodes: 200,
        line_nodes: 200,
        ..LARGEST
    };
    let mut pair = make_pair(rt.alloc(), sizes)?;
    let mut sum = Checksum::new();
    fill(&mut pair, &mut sum);
    let blank = Side::First(key(0));
    let mut list: Vec<Side<SizeLabel, CutTicket>> = vec![in rt.alloc(); blank; 400]?;
    let start = Instant::now(rt)?;
    for _ in 0..10 {
        let shown = pair.show(&mut list);
        sum.add(u64::from(shown));
    }
    let time = start.elapsed(rt)?;
    for item in list.iter() {
        sum.add(item.code());
    }
    Ok(Run::new(4000, sum, time))
}
