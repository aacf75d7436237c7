// Making a line over tables handed in.
ghost use Rattle.std.specs.Prelude.{◌≡◌, [], length, replicate, vec_len};
ghost use Rattle.boards.specs.Board.{Fresh};
ghost use Rattle.line_model.specs.Meaning.{means};
ghost use Rattle.line_model.specs.Sound.{Sound};
ghost use Rattle.line_model.specs.Fresh.{checked, fine, front, fresh, unlinked};

use crate::Line;
use keys::refusal::Refusal;
use line_model::node::Node;
use line_model::seat::Seat;

// Sets every next cell to none.
fn unlink<E: Copy>(nodes: &mut [Node<E>])
    ensures all { nodes.new ≡ unlinked nodes.old }
    ensures again { nodes.new ≡ unlinked nodes.new }
{
    for node in nodes.iter_mut() {
        node.next = None;
    }
}

impl<E: Copy> Line<E> {
    // Tells whether a line of so many stations and nodes can be made over the two tables: 1 to 16 stations, 1 to 512
    // nodes, a node table with one place more for the dummy, and a station table with a place for each station. Numbers
    // and tables are handed in one by one, by a rule of the boards: `check` borrows the tables that `new` then takes.
    pub fn check(
        stations: usize,
        nodes: usize,
        node_table: &[Node<E>],
        station_table: &[Seat<E>],
    ) -> Result<(), Refusal>
        ensures { result ≡ checked stations nodes (length node_table.now) (length station_table.now) }
    {
        if !(1..=16).contains(&stations) {
            return Err(Refusal::StationCount);
        }
        if !(1..=512).contains(&nodes) {
            return Err(Refusal::LineSize);
        }
        if node_table.len() <= nodes || station_table.len() < stations {
            return Err(Refusal::ShortTable);
        }
        Ok(())
    }

    // An empty line that uses the front of the two tables, whatever they held. The dummy is the first node.
    pub fn new(
        stations: usize,
        nodes: usize,
        node_table: Vec<Node<E>>,
        station_table: Vec<Seat<E>>,
    ) -> Line<E>
        requires { checked stations nodes (vec_len node_table) (vec_len station_table) ≡ fine }
        ensures made { result ≡ fresh stations nodes node_table.items }
        ensures sound { Sound result }
        ensures unused { Fresh means [] result }
    {
        let mut table = node_table;
        let mut seats = station_table;
        unlink(&mut table);
        seats.fill(Seat::Free);
        Line::over(stations, nodes, table, seats)
    }

    // The same over tables whose next cells are none and whose seats are free: the places that are not needed go.
    fn over(
        stations: usize,
        nodes: usize,
        node_table: Vec<Node<E>>,
        station_table: Vec<Seat<E>>,
    ) -> Line<E>
        requires sizes { checked stations nodes (vec_len node_table) (vec_len station_table) ≡ fine }
        requires links { node_table.items ≡ unlinked node_table.items }
        requires free { station_table.items ≡ replicate (vec_len station_table) Seat.Free }
        ensures made { result ≡ front stations nodes node_table.items }
        ensures sound { Sound result }
        ensures unused { Fresh means [] result }
    {
        let mut table = node_table;
        let mut seats = station_table;
        table.truncate(nodes + 1);
        seats.truncate(stations);
        Line {
            nodes: table,
            taken: 1,
            head: 0,
            tail: 0,
            seats,
        }
    }
}
