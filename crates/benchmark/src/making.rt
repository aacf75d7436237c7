// The boards of the workloads.
use crate::requests::{SMALLEST, SMALLEST_TICKET};
use keys::cut_ticket::CutTicket;
use keys::refusal::Refusal;
use keys::size_label::SizeLabel;
use line::Line;
use nest::Nest;
use pair::pair::Pair;
use shop::making::{make_line as make_line_of, make_nest as make_nest_of};
use shop::sizes::Sizes;
use std::alloc::Global;

// The largest sizes that a floor can have.
pub const LARGEST: Sizes = Sizes {
    stations: 16,
    limit: 1024,
    nest_nodes: 512,
    line_nodes: 512,
};

// The empty nest of a floor with these sizes.
pub fn make_nest(heap: Global, sizes: Sizes) -> Result<Nest<SizeLabel>, Refusal> {
    sizes.check()?;
    make_nest_of(heap, sizes.stations, sizes.nest_nodes, SMALLEST)
}

// The empty line of a floor with these sizes.
pub fn make_line(heap: Global, sizes: Sizes) -> Result<Line<CutTicket>, Refusal> {
    sizes.check()?;
    make_line_of(heap, sizes.stations, sizes.line_nodes, SMALLEST_TICKET)
}

// The empty board of a floor with these sizes: a nest and a line side by side.
pub fn make_pair(
    heap: Global,
    sizes: Sizes,
) -> Result<Pair<Nest<SizeLabel>, Line<CutTicket>>, Refusal> {
    Ok(Pair::new(make_nest(heap, sizes)?, make_line(heap, sizes)?))
}
