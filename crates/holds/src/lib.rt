// Memory that holds a table: what each word says of it, and that memory holds the table after each thing that can happen. There is no code here: each
// theorem is the contract of a function that has nothing to do.
#![tactic(auto)]

ghost use Rattle.holds.specs.Theorems.{OpeningHolds, OverrunHolds, PlaceTold, RestHolds, SizeHolds, SpoilHolds, TakeHolds};

pub fn opening_holds()
    ensures { OpeningHolds }
{}

pub fn place_told()
    ensures { PlaceTold }
{}

pub fn take_holds()
    ensures { TakeHolds }
{}

pub fn size_holds()
    ensures { SizeHolds }
{}

pub fn spoil_holds()
    ensures { SpoilHolds }
{}

pub fn overrun_holds()
    ensures { OverrunHolds }
{}

pub fn rest_holds()
    ensures { RestHolds }
{}
