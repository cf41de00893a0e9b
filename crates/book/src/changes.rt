// How the book changes as pieces come and go.
ghost use Rattle.std.specs.Prelude.{◌≡◌, ◌<◌, if◌then◌else◌};
ghost use Rattle.index.specs.Index.{removed};
ghost use Rattle.grounds.specs.Numbers.{most_classes};
ghost use Rattle.units.specs.Units.{units};
ghost use Rattle.book.specs.Spots.{used_in};
ghost use Rattle.book.specs.Changes.{emptied, filled, freed, freed_at, painted, rested_in, shelved, spoilt_in, taken_in, unshelved};

use crate::class::Class;
use crate::plan::Plan;
use crate::spots::spot_at;
use grounds::numbers::MOST_CLASSES;
use grounds::page::Page;
use index::Index;
use index::set::Set;
use layout::field::{Field, UnitField, read, write};
use layout::header::TEMPLATES_AT;
use layout::layout::units_at;
use layout::spot::Spot;
use units::Units;
use units::unit::UNIT_WORDS;

// The words of a page become those of a class: of its units only those are taken where no piece of it may begin.
fn paint(memory: &mut [u64], class: &Class, page: Page)
    ensures { memory.new ≡ painted memory.old class.now page }
{
    write(memory, page, Field::Kind, class.room);
    write(memory, page, Field::Head, page.number() as u64);
    write(memory, page, Field::Class, class.number.number() as u64);
    let template = Units {
        at: TEMPLATES_AT + UNIT_WORDS * class.number.number(),
    };
    units_at(page, UnitField::Taken).copy_from(memory, template);
}

// One piece more touches the page of a spot, and begins there.
fn fill(memory: &mut [u64], spot: &Spot)
    requires { used_in memory.old spot.now.page < units }
    ensures { memory.new ≡ filled memory.old spot.now }
{
    let used = read(memory, spot.page, Field::Used);
    write(memory, spot.page, Field::Used, used + 1);
    units_at(spot.page, UnitField::Taken).take(memory, spot.unit);
}

// A page that nothing touched is no longer in the last set, which is of such pages: `fresh` says whether nothing did.
fn claim(index: Index, memory: &mut [u64], page: Page, fresh: bool)
    ensures { memory.new ≡ (if fresh then removed index memory.old most_classes page else memory.old) }
{
    if fresh {
        index.remove(memory, Set::new(MOST_CLASSES), page);
    }
}

// A page is in the set of its class as long as it has a free unit.
fn shelve(index: Index, memory: &mut [u64], class: &Class, spot: &Spot, fresh: bool)
    ensures { memory.new ≡ shelved index memory.old class.now spot.now fresh }
{
    let own = Set::new(class.number.number());
    let full = units_at(spot.page, UnitField::Taken).is_full(memory);
    claim(index, memory, spot.page, fresh);
    if full {
        index.remove(memory, own, spot.page);
    } else if fresh {
        index.insert(memory, own, spot.page);
    }
}

// A page that nothing touched gets the words of a class.
fn prepare(memory: &mut [u64], class: &Class, page: Page, fresh: bool)
    ensures words { memory.new ≡ (if fresh then painted memory.old class.now page else memory.old) }
    ensures used { used_in memory.new page ≡ used_in memory.old page }
{
    if fresh {
        paint(memory, class, page);
    }
}

// A piece of a class begins at a spot.
pub fn take(plan: &Plan, memory: &mut [u64], class: &Class, spot: &Spot)
    requires { used_in memory.old spot.now.page < units }
    ensures { memory.new ≡ taken_in plan.now memory.old class.now spot.now }
{
    let layout = &plan.layout;
    let fresh = read(memory, spot.page, Field::Used) == 0;
    prepare(memory, class, spot.page, fresh);
    fill(memory, spot);
    shelve(layout.index(), memory, class, spot, fresh);
}

// What is at a spot is spoilt.
pub fn spoil(memory: &mut [u64], spot: &Spot)
    ensures { memory.new ≡ spoilt_in memory.old spot.now }
{
    units_at(spot.page, UnitField::Spoilt).take(memory, spot.unit);
}

// One piece less touches the page of a spot, and none begins there.
fn empty(memory: &mut [u64], spot: &Spot)
    requires { 0 < used_in memory.old spot.now.page }
    ensures { memory.new ≡ emptied memory.old spot.now }
{
    let used = read(memory, spot.page, Field::Used);
    write(memory, spot.page, Field::Used, used - 1);
    units_at(spot.page, UnitField::Taken).release(memory, spot.unit);
}

// A page that a piece left has a free unit: it is in the set of its class or, where that was the `last` piece there, in the set of free pages.
fn unshelve(index: Index, memory: &mut [u64], own: Set, page: Page, last: bool)
    ensures { memory.new ≡ unshelved index memory.old own page last }
{
    if last {
        index.remove(memory, own, page);
        index.insert(memory, Set::new(MOST_CLASSES), page);
    } else {
        index.insert(memory, own, page);
    }
}

// What was at a spot is there no more. Where the words of the page are such as no page has, nothing changes.
fn free(plan: &Plan, memory: &mut [u64], spot: &Spot)
    ensures { memory.new ≡ freed plan.now memory.old spot.now }
{
    let layout = &plan.layout;
    let used = read(memory, spot.page, Field::Used);
    let class = read(memory, spot.page, Field::Class);
    if used == 0 || class >= plan.classes.number() as u64 {
        return;
    }
    empty(memory, spot);
    let own = Set::new(class as usize);
    unshelve(layout.index(), memory, own, spot.page, used == 1);
}

// The same of a place on the ground.
fn free_at(plan: &Plan, memory: &mut [u64], place: u64)
    ensures { memory.new ≡ freed_at plan.now memory.old place }
{
    if let Some(spot) = spot_at(plan, place) {
        free(plan, memory, &spot);
    }
}

// What begins at a place rests as the newest, and where too many rest, the oldest is free.
pub fn rest(plan: &Plan, memory: &mut [u64], place: u64)
    ensures { memory.new ≡ rested_in plan.now memory.old place }
{
    let layout = &plan.layout;
    let queue = layout.queue();
    if layout.rests == 0 {
        free_at(plan, memory, place);
        return;
    }
    if queue.count(memory) < layout.rests as u64 {
        queue.push(memory, place);
        return;
    }
    match queue.pop(memory) {
        Some(oldest) => {
            queue.push(memory, place);
            free_at(plan, memory, oldest);
        }
        None => queue.push(memory, place),
    }
}
