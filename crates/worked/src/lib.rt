// Floors that were worked by hand.
#![tactic(auto)]

ghost use Rattle.worked.specs.Worked.{WorkedFloors};

// States what each worked floor prints, by the definition that the contract of a run cites. There is nothing to run.
pub fn worked_floors()
    ensures { WorkedFloors }
{}
