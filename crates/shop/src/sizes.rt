// The sizes of a shop's floor.
ghost use Rattle.std.specs.Prelude.{◌≡◌, OnOk};
ghost use Rattle.floor_model.specs.Floor.{checked};
ghost use Rattle.shop.specs.Shop.{shop_refusal, InRange};

use keys::refusal::Refusal;

// How many stations, lines of the ledger, nodes for keys and nodes for elements a floor has.
#[derive(Clone, Copy, PartialEq, Eq, Debug)]
pub struct Sizes {
    pub stations: usize,
    // lines of the ledger
    pub limit: usize,
    pub nest_nodes: usize,
    pub line_nodes: usize,
}

impl Sizes {
    // Can a floor have these sizes?
    pub fn check(&self) -> Result<(), Refusal>
        ensures told { result ≡ checked (shop_refusal self.now.stations self.now.limit self.now.nest_nodes self.now.line_nodes) }
        ensures in_range { OnOk result (InRange self.now.stations self.now.limit self.now.nest_nodes self.now.line_nodes) }
    {
        if !(1..=16).contains(&self.stations) {
            return Err(Refusal::StationCount);
        }
        if !(1..=1024).contains(&self.limit) {
            return Err(Refusal::LedgerLimit);
        }
        if !(1..=512).contains(&self.nest_nodes) {
            return Err(Refusal::NestSize);
        }
        if !(1..=512).contains(&self.line_nodes) {
            return Err(Refusal::LineSize);
        }
        Ok(())
    }
}
