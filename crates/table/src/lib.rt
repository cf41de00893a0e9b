// What a keeper has to know of a ground, and that it suffices. There is no code here: the table is in specs/, and each theorem is the contract of a
// function that has nothing to do.
#![tactic(auto)]

ghost use Rattle.table.specs.Theorems.{TableRight, NewStands, GetStands, SpoilStands, OverrunStands, RestStands, SmallFound, OutKnown, RunFound, PlaceFound, RoomKnown, OwnedKnown, ChangedFound, StrayFound};

pub fn new_stands()
    ensures { NewStands }
{}

pub fn get_stands()
    ensures { GetStands }
{}

pub fn spoil_stands()
    ensures { SpoilStands }
{}

pub fn overrun_stands()
    ensures { OverrunStands }
{}

pub fn rest_stands()
    ensures { RestStands }
{}

pub fn small_found()
    ensures { SmallFound }
{}

pub fn out_known()
    ensures { OutKnown }
{}

pub fn run_found()
    ensures { RunFound }
{}

pub fn place_found()
    ensures { PlaceFound }
{}

pub fn room_known()
    ensures { RoomKnown }
{}

pub fn owned_known()
    ensures { OwnedKnown }
{}

pub fn changed_found()
    ensures { ChangedFound }
{}

pub fn stray_found()
    ensures { StrayFound }
{}

pub fn table_right()
    ensures { TableRight }
{}
