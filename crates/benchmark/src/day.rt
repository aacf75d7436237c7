// Days on the floor of a shop, until the ledger is full.
use crate::checksum::{Checksum, Coded};
use crate::generator::Generator;
use crate::host::{add_contents, is_ready};
use crate::making::LARGEST;
use crate::requests::{
    FindRequests, NestRequests, Requests, SMALLEST, SMALLEST_TICKET, ShopOp, ShopRequests,
};
use crate::run::Run;
use boards::board::Board;
use boards::outcome::Outcome;
use keys::cut_ticket::CutTicket;
use keys::refusal::Refusal;
use keys::size_label::SizeLabel;
use shop::opening::{Shop as ShopOf, open_shop};
use shop::sizes::Sizes;
use std::time::Instant;

type Shop = ShopOf<SizeLabel, CutTicket>;

// So many shops with 1,024 lines, 512 nodes for keys and 512 for tickets.
fn open_shops(rt: &HostRuntime, number: usize, stations: usize) -> anyhow::Result<Vec<Shop>> {
    let sizes = Sizes {
        stations,
        ..LARGEST
    };
    // pushed one by one, as the nests of the other workloads
    let mut shops = Vec::new(rt.alloc());
    for _ in 0..number {
        shops.push(open_shop(rt.alloc(), sizes, SMALLEST, SMALLEST_TICKET)?)?;
    }
    Ok(shops)
}

// Requests, numbers and checksum are apart here: as methods of a host that has all three, a whole day took 59 to 91
// nanoseconds a touch in place of 55.

// Starts the next operation at a station. Says whether there was still a line for it.
fn start<R: Requests<Op = ShopOp>>(
    shop: &mut Shop,
    station: usize,
    requests: &R,
    numbers: &mut Generator,
) -> bool {
    let op = requests.next(numbers);
    match shop.floor.start(station, &op) {
        Ok(()) => true,
        Err(Refusal::NoSpace) => shop.floor.start(station, &requests.instead(&op)).is_ok(),
        Err(_) => false,
    }
}

// Collects the answer of a station and adds it to the checksum.
fn collect(shop: &mut Shop, station: usize, sum: &mut Checksum) {
    if let Ok(answer) = shop.floor.collect(station) {
        sum.add(answer.code());
    }
}

// Touches a station, and tells what the touch did.
fn touch(shop: &mut Shop, station: usize, sum: &mut Checksum) -> Option<Outcome> {
    match shop.floor.touch(station, &mut shop.ledger) {
        Ok((outcome, answer)) => {
            sum.add_touch(&outcome, &answer);
            Some(outcome)
        }
        Err(_) => None,
    }
}

// Starts an operation at every station. Tells how many stations there are.
fn start_all<R: Requests<Op = ShopOp>>(
    shop: &mut Shop,
    requests: &R,
    numbers: &mut Generator,
) -> usize {
    let stations = shop.floor.board().stations();
    for station in 1..=stations {
        let _ = start(shop, station, requests, numbers);
    }
    stations
}

// A day: stations drawn one after another are touched, and each starts again until the ledger is full. Tells how many
// touches were taken.
fn day<R: Requests<Op = ShopOp>>(
    shop: &mut Shop,
    requests: &R,
    numbers: &mut Generator,
    sum: &mut Checksum,
) -> usize {
    let stations = start_all(shop, requests, numbers);
    let mut working = stations;
    let mut touches: usize = 0;
    // two things are counted at once, in a day whose end no range knows; no day takes more calls
    for _ in 0..10_000_000 {
        if working == 0 {
            break;
        }
        let station = numbers.station(stations);
        if let Some(outcome) = touch(shop, station, sum) {
            touches = touches.saturating_add(1);
            if is_ready(&outcome) {
                collect(shop, station, sum);
                if !start(shop, station, requests, numbers) {
                    working = working.saturating_sub(1);
                }
            }
        }
    }
    touches
}

// Adds the ledger and what the board holds to the checksum.
fn add_shop(shop: &Shop, sum: &mut Checksum) -> Result<(), Refusal> {
    for line in shop.floor.lines(&shop.ledger)? {
        sum.add(line.station as u64);
        sum.add(line.turn as u64);
        sum.add(line.operation.code());
        sum.add(line.answer.code());
    }
    add_contents(shop.floor.board(), sum);
    Ok(())
}

// A day in each of the shops. The time is that of the touches, with starts and collects.
fn days<R: Requests<Op = ShopOp>>(
    rt: &HostRuntime,
    shops: &mut Vec<Shop>,
    requests: &R,
) -> anyhow::Result<Run> {
    let mut numbers = Generator::new();
    let mut sum = Checksum::new();
    let mut touches: usize = 0;
    let start = Instant::now(rt)?;
    for shop in shops.iter_mut() {
        touches = touches.saturating_add(day(shop, requests, &mut numbers, &mut sum));
    }
    let time = start.elapsed(rt)?;
    for shop in shops.iter() {
        add_shop(shop, &mut sum)?;
    }
    Ok(Run::new(touches, sum, time))
}

// Days of 4 stations with every kind of operation.
pub fn whole_day(rt: &HostRuntime) -> anyhow::Result<Run> {
    let mut shops = open_shops(rt, 4, 4)?;
    let requests = ShopRequests {
        nest: NestRequests { keys: 512 },
    };
    days(rt, &mut shops, &requests)
}

// Days of 16 stations with finds in an empty nest alone, so that a start and a collect come with each touch.
pub fn short_operations(rt: &HostRuntime) -> anyhow::Result<Run> {
    let mut shops = open_shops(rt, 16, 16)?;
    days(rt, &mut shops, &FindRequests)
}
