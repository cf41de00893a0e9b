// Places as the rule of the lowest place gives them, until the page is full, and memory that says no plan.
use book::changes::{rest, spoil, take};
use book::class::Class;
use book::plan::Plan;
use book::spots::{lowest_spot, place_of, room_at, spot_at};
use layout::spot::Spot;
use limits::limits::Limits;
use opening::open::open;
use std::test::Fail;

// For one page, and one piece that rests.
const WORDS: usize = 1298;

const BYTES: usize = 4096;

const LIMITS: Limits<'static> = Limits {
    pages: 1,
    classes: &[16, 1024],
    rests: 1,
    marks: [66, 99],
};

// The parts of a plan, a class and a spot that are passed by value.
fn classes_of(plan: Plan) -> usize {
    plan.classes.number()
}

fn room_of(class: Class) -> u64 {
    class.room
}

fn unit_of(spot: Spot) -> usize {
    spot.unit.number()
}

// Each is a value that is copied.
#[test]
fn are_copied(rt: HostRuntime) -> Result<(), Fail> {
    let mut memory = [7; WORDS];
    let _answer = open(&mut memory, &[0; BYTES], &LIMITS);
    let Some(plan) = Plan::read(&memory, BYTES) else {
        return Err(Fail::new("there is no plan"));
    };
    assert_eq!(rt; (classes_of(plan), classes_of(plan)), (2, 2));
    let Some(class) = Class::of_size(&plan, &memory, 1000) else {
        return Err(Fail::new("there is no class"));
    };
    assert_eq!(rt; (room_of(class), room_of(class)), (1024, 1024));
    let Some(spot) = spot_at(&plan, 1024) else {
        return Err(Fail::new("a piece may begin there"));
    };
    assert_eq!(rt; (unit_of(spot), unit_of(spot)), (64, 64));
    Ok(())
}

// Takes the lowest place for a piece of so many bytes, and tells it.
fn get(plan: &Plan, memory: &mut [u64], size: u64) -> Option<u64> {
    let class = Class::of_size(plan, memory, size)?;
    let spot = lowest_spot(plan, memory, &class)?;
    take(plan, memory, &class, &spot);
    Some(place_of(&spot))
}

#[test]
fn lowest_places(rt: HostRuntime) -> Result<(), Fail> {
    let mut memory = [7; WORDS];
    let _answer = open(&mut memory, &[0; BYTES], &LIMITS);
    let Some(plan) = Plan::read(&memory, BYTES) else {
        return Err(Fail::new("there is no plan"));
    };
    assert_eq!(rt; plan.mark, [66, 99]);
    assert_eq!(rt; get(&plan, &mut memory, 1000), Some(0));
    assert_eq!(rt; get(&plan, &mut memory, 1022), Some(1024));
    assert_eq!(rt; get(&plan, &mut memory, 1023), None);
    assert_eq!(rt; get(&plan, &mut memory, 14), None);
    assert_eq!(rt; get(&plan, &mut memory, 15), Some(2048));
    assert_eq!(rt; get(&plan, &mut memory, 15), Some(3072));
    assert_eq!(rt; get(&plan, &mut memory, 15), None);
    rest(&plan, &mut memory, 1024);
    assert_eq!(rt; get(&plan, &mut memory, 15), None);
    rest(&plan, &mut memory, 0);
    assert_eq!(rt; get(&plan, &mut memory, 15), Some(1024));
    Ok(())
}

#[test]
fn another_class(rt: HostRuntime) -> Result<(), Fail> {
    let mut memory = [7; WORDS];
    let _answer = open(&mut memory, &[0; BYTES], &LIMITS);
    let Some(plan) = Plan::read(&memory, BYTES) else {
        return Err(Fail::new("there is no plan"));
    };
    assert_eq!(rt; get(&plan, &mut memory, 14), Some(0));
    assert_eq!(rt; get(&plan, &mut memory, 1), Some(16));
    assert_eq!(rt; get(&plan, &mut memory, 15), None);
    let Some(spot) = spot_at(&plan, 16) else {
        return Err(Fail::new("a piece may begin there"));
    };
    assert_eq!(rt; room_at(&memory, &spot), Some(16));
    assert_eq!(rt; spot.asked(&memory), 0);
    spot.set_asked(&mut memory, 1);
    assert_eq!(rt; spot.asked(&memory), 1);
    spoil(&mut memory, &spot);
    assert!(rt; spot_at(&plan, 8).is_none());
    assert!(rt; spot_at(&plan, 4096).is_none());
    rest(&plan, &mut memory, 0);
    rest(&plan, &mut memory, 16);
    assert_eq!(rt; get(&plan, &mut memory, 14), Some(0));
    Ok(())
}

#[test]
fn no_plan(rt: HostRuntime) {
    assert!(rt; Plan::read(&[0; WORDS], BYTES).is_none(), "zeros");
    assert!(rt; Plan::read(&[u64::MAX; WORDS], BYTES).is_none(), "ones");
    let mut memory = [7; WORDS];
    let _answer = open(&mut memory, &[0; BYTES], &LIMITS);
    assert!(rt; Plan::read(&memory, BYTES).is_some(), "as opened");
    assert!(rt; Plan::read(&memory, BYTES + 1).is_none(), "more ground");
    assert!(rt; Plan::read(&memory[1..], BYTES).is_none(), "less memory");
    memory[6] = 0;
    assert!(rt; Plan::read(&memory, BYTES).is_none(), "half of a mark");
}
