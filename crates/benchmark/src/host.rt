// A host that keeps every station of a board at work.
use crate::checksum::{Checksum, Coded};
use crate::generator::Generator;
use crate::requests::Requests;
use crate::run::Run;
use boards::board::Board;
use boards::outcome::Outcome;
use std::time::Instant;

// Where the operations come from, the numbers that are drawn, and the checksum of what was told.
#[derive(Drop)]
pub struct Host<R: Drop> {
    pub requests: R,
    pub numbers: Generator,
    pub sum: Checksum,
}

impl<R: Requests + Drop> Host<R> {
    pub fn new(requests: R) -> Host<R> {
        Host {
            requests,
            numbers: Generator::new(),
            sum: Checksum::new(),
        }
    }

    // Hands the next operation to a station.
    #[inline]
    fn begin<B: Board<Op = R::Op>>(&mut self, board: &mut B, station: usize) {
        let op = self.requests.next(&mut self.numbers);
        if board.space(&op) {
            let _ = board.begin(station, &op);
        } else {
            let _ = board.begin(station, &self.requests.instead(&op));
        }
    }

    // One touch of one station. A station that is ready gets its next operation at once.
    #[inline]
    fn touch<B: Board<Op = R::Op>>(&mut self, board: &mut B, station: usize)
    where
        B::Answer: Coded,
    {
        let (outcome, answer) = board.touch(station);
        self.sum.add_touch(&outcome, &answer);
        if is_ready(&outcome) {
            board.release(station);
            self.begin(board, station);
        }
    }

    // So many touches of stations drawn one after another.
    #[inline]
    fn work<B: Board<Op = R::Op>>(&mut self, board: &mut B, touches: usize)
    where
        B::Answer: Coded,
    {
        let stations = board.stations();
        for station in 1..=stations {
            self.begin(board, station);
        }
        for _ in 0..touches {
            let station = self.numbers.station(stations);
            self.touch(board, station);
        }
    }
}

// So many touches of each of the boards. The time is that of the touches, with begins and releases.
pub fn work_on_each<B: Board, R: Requests<Op = B::Op> + Drop>(
    rt: &HostRuntime,
    boards: &mut Vec<B>,
    requests: R,
    touches: usize,
) -> anyhow::Result<Run>
where
    B::Answer: Coded,
    B::Item: Coded,
{
    let mut host = Host::new(requests);
    let start = Instant::now(rt)?;
    for board in boards.iter_mut() {
        host.work(board, touches);
    }
    let time = start.elapsed(rt)?;
    for board in boards.iter() {
        add_contents(board, &mut host.sum);
    }
    Ok(Run::new(touches.saturating_mul(boards.len()), host.sum, time))
}

// Can the answer be collected?
pub fn is_ready(outcome: &Outcome) -> bool {
    matches!(outcome, Outcome::CountedReady | Outcome::Ready)
}

// Adds what the board holds to the checksum.
pub fn add_contents<B: Board>(board: &B, sum: &mut Checksum)
where
    B::Item: Coded,
{
    for item in (0..board.items()).filter_map(|place| board.item(place)) {
        sum.add(item.code());
    }
}

// One operation of station 1, from its begin to its release. Tells how many touches it took. Only the last of them goes
// into the checksum, so that a find does no more around its touches than the bare walk around its steps.
pub fn alone<B: Board>(board: &mut B, op: &B::Op, sum: &mut Checksum) -> usize
where
    B::Answer: Coded,
{
    let _ = board.begin(1, op);
    // no operation of one station takes more
    for touches in 1..1001 {
        let (outcome, answer) = board.touch(1);
        if is_ready(&outcome) {
            sum.add_touch(&outcome, &answer);
            board.release(1);
            return touches;
        }
    }
    0
}

// The numbers that a host draws and adds up for so many touches, without the touches.
pub fn draw(rt: &HostRuntime, touches: usize) -> anyhow::Result<Run> {
    let mut numbers = Generator::new();
    let mut sum = Checksum::new();
    let start = Instant::now(rt)?;
    for _ in 0..touches {
        sum.add(numbers.station(4) as u64);
    }
    let time = start.elapsed(rt)?;
    Ok(Run::new(touches, sum, time))
}
