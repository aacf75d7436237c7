// A day in two shops, from the morning's hanging to the closing summary: sizes hang in the nest, tickets queue in the
// line, one size runs out of cloth, and the tickets are taken in turn.
#![tactic(auto)]

use anyhow::anyhow;
use boards::board::Board;
use boards::outcome::Outcome;
use keys::cut_ticket::CutTicket;
use keys::key::Key;
use keys::piece_code::PieceCode;
use keys::plot_order::PlotOrder;
use keys::refusal::Refusal;
use keys::size_label::{LetterSize, SizeLabel, WaistSize};
use keys::text::Text;
use plain_model::line_op::{LineAnswer, LineOp};
use plain_model::nest_op::{NestAnswer, NestOp};
use plain_model::side::Side;
use shop::opening::{Shop, open_shop};
use shop::sizes::Sizes;

// The sizes of each of the two shops.
const SIZES: Sizes = Sizes {
    stations: 3,
    limit: 64,
    nest_nodes: 8,
    line_nodes: 8,
};

// What became of an element that was taken.
#[derive(Clone, Copy, PartialEq, Eq)]
enum Fate {
    Spread,
    SetAside,
}

// Touches the station, if it waits. Says whether it still waits. A station that is ready is no error here, so this is a
// match and no `?`.
fn advance<K: Key, E: Copy>(shop: &mut Shop<K, E>, station: usize) -> Result<bool, Refusal> {
    match shop.floor.touch(station, &mut shop.ledger) {
        Ok((outcome, _)) => Ok(!matches!(outcome, Outcome::CountedReady | Outcome::Ready)),
        Err(Refusal::AlreadyReady) => Ok(false),
        Err(refusal) => Err(refusal),
    }
}

// Lets the stations from 1 to a number touch in turn until none of them waits.
fn finish<K: Key, E: Copy>(shop: &mut Shop<K, E>, stations: usize) -> anyhow::Result<()> {
    // no operation of a day this short needs more rounds
    for _ in 0..1000 {
        let mut waits = false;
        for station in 1..=stations {
            waits |= advance(shop, station)?;
        }
        if !waits {
            return Ok(());
        }
    }
    Err(anyhow!("an operation takes too long"))
}

// Collects the answer of a station's operation and prints both.
fn collect<K: Key + Text, E: Copy + Text>(
    rt: &HostRuntime,
    shop: &mut Shop<K, E>,
    station: usize,
    op: &Side<NestOp<K>, LineOp<E>>,
) -> anyhow::Result<Side<NestAnswer, LineAnswer<E>>> {
    let answer = shop.floor.collect(station)?;
    println!(rt; "{op} {answer}")?;
    Ok(answer)
}

// One station does an operation while the others rest.
fn alone<K: Key + Text, E: Copy + Text>(
    rt: &HostRuntime,
    shop: &mut Shop<K, E>,
    op: Side<NestOp<K>, LineOp<E>>,
) -> anyhow::Result<Side<NestAnswer, LineAnswer<E>>> {
    shop.floor.start(1, &op)?;
    finish(shop, 1)?;
    collect(rt, shop, 1, &op)
}

// While one station adds a key another looks for it, touch by touch in turn.
fn hang<K: Key + Text, E: Copy + Text>(
    rt: &HostRuntime,
    shop: &mut Shop<K, E>,
    key: K,
) -> anyhow::Result<()> {
    let add = Side::First(NestOp::Add(key));
    let find = Side::First(NestOp::Find(key));
    shop.floor.start(1, &add)?;
    shop.floor.start(2, &find)?;
    finish(shop, 2)?;
    let _ = collect(rt, shop, 1, &add)?;
    let _ = collect(rt, shop, 2, &find)?;
    Ok(())
}

// Takes one element, if there is one: it is spread where its key still hangs, else set aside.
fn take_one<K: Key + Text, E: Copy + Text, F: Fn(&E) -> K>(
    rt: &HostRuntime,
    shop: &mut Shop<K, E>,
    key_of: &F,
) -> anyhow::Result<Option<Fate>>
    requires { F.IsAlwaysCallable key_of.now }
{
    let Side::Second(LineAnswer::Took(element)) = alone(rt, shop, Side::Second(LineOp::Take))?
    else {
        return Ok(None);
    };
    let found = alone(rt, shop, Side::First(NestOp::Find(key_of(&element))))?;
    if matches!(found, Side::First(NestAnswer::Yes)) {
        println!(rt; "spread {element}")?;
        Ok(Some(Fate::Spread))
    } else {
        println!(rt; "set aside {element}")?;
        Ok(Some(Fate::SetAside))
    }
}

// Takes so many elements and prints how many were spread and how many set aside. They are counted as they are taken: a list of
// their fates would want memory.
fn take_all<K: Key + Text, E: Copy + Text, F: Fn(&E) -> K>(
    rt: &HostRuntime,
    shop: &mut Shop<K, E>,
    number: usize,
    key_of: &F,
) -> anyhow::Result<()>
    requires { F.IsAlwaysCallable key_of.now }
{
    let mut spread: usize = 0;
    let mut aside: usize = 0;
    for _ in 0..number {
        match take_one(rt, shop, key_of)? {
            Some(Fate::Spread) => spread = spread.saturating_add(1),
            Some(Fate::SetAside) => aside = aside.saturating_add(1),
            None => {}
        }
    }
    println!(rt; "{spread} spread, {aside} set aside")?;
    Ok(())
}

// Closes the floor and prints its ledger.
fn close<K: Key + Text, E: Copy + Text>(rt: &HostRuntime, shop: Shop<K, E>) -> anyhow::Result<()> {
    shop.floor.check_close()?;
    let Shop { floor, ledger } = shop;
    let closed = floor.close();
    for line in closed.lines(&ledger)? {
        println!(rt; "{line}")?;
    }
    Ok(())
}

// A whole day: hangs the keys, queues the elements, drops the key that ran out, takes every element, and closes.
fn day<K: Key + Text, E: Copy + Text, F: Fn(&E) -> K>(
    rt: &HostRuntime,
    keys: &[K],
    ran_out: K,
    elements: &[E],
    key_of: &F,
) -> anyhow::Result<()>
    requires { F.IsAlwaysCallable key_of.now }
{
    let Some(first) = elements.first() else {
        return Ok(());
    };
    let mut shop = open_shop(rt.alloc(), SIZES, ran_out, *first)?;
    for key in keys {
        hang(rt, &mut shop, *key)?;
    }
    for element in elements {
        let _ = alone(rt, &mut shop, Side::Second(LineOp::Put(*element)))?;
    }
    let _ = alone(rt, &mut shop, Side::First(NestOp::Drop(ran_out)))?;
    take_all(rt, &mut shop, elements.len(), key_of)?;
    close(rt, shop)
}

// A waist and a leg, as a label.
fn waist(waist: u32, leg: u32) -> Result<SizeLabel, Refusal> {
    WaistSize::new(waist, leg).map(SizeLabel::Waist)
}

// The day of a cutting floor.
fn cutting_day(rt: &HostRuntime) -> anyhow::Result<()> {
    println!(rt; "cutting")?;
    let medium = SizeLabel::Letter(LetterSize::M);
    let large = SizeLabel::Letter(LetterSize::L);
    let regular = waist(82, 76)?;
    let long = waist(82, 84)?;
    let tickets = [
        CutTicket::new(regular, 40)?,
        CutTicket::new(medium, 12)?,
        CutTicket::new(long, 25)?,
        CutTicket::new(medium, 200)?,
    ];
    day(
        rt,
        &[regular, medium, long, large],
        medium,
        &tickets,
        &|ticket: &CutTicket| ticket.size,
    )
}

// The day of a pattern floor.
fn pattern_day(rt: &HostRuntime) -> anyhow::Result<()> {
    println!(rt; "pattern")?;
    let sleeve = PieceCode::new('B', 12)?;
    let collar = PieceCode::new('A', 999)?;
    let pocket = PieceCode::new('P', 3)?;
    let orders = [
        PlotOrder::new(pocket, 50)?,
        PlotOrder::new(collar, 2)?,
        PlotOrder::new(sleeve, 2)?,
    ];
    day(
        rt,
        &[sleeve, collar, pocket],
        collar,
        &orders,
        &|order: &PlotOrder| order.piece,
    )
}

fn main(rt: HostRuntime) -> anyhow::Result<()> {
    cutting_day(&rt)?;
    pattern_day(&rt)
}
