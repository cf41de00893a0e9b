// Places of the ground as spots, and what memory tells of a spot.
ghost use Rattle.std.specs.Prelude.{◌≡◌, ◌<◌, ◌≤◌, false, MatchOption, if◌then◌else◌, nat_eq};
ghost use Rattle.layout.specs.Layout.{taken_at};
ghost use Rattle.units.specs.Units.{first_free, units};
ghost use Rattle.book.specs.Spots.{Located, Roomy, Spotted, has_spot, is_spot, place_of_spot, room_good};

use crate::class::Class;
use crate::plan::Plan;
use grounds::numbers::{GRAIN, MARK_LEN, MOST_CLASSES, PAGE};
use grounds::page::Page;
use index::set::Set;
use layout::field::{Field, UnitField, read};
use layout::layout::units_at;
use layout::spot::Spot;
use units::unit::{UNITS, Unit};

// Where a spot is on the ground.
pub fn place_of(spot: &Spot) -> u64
    ensures { result ≡ place_of_spot spot.now }
{
    PAGE * spot.page.number() as u64 + GRAIN * spot.unit.number() as u64
}

// The spot that begins at a place, if one does.
pub fn spot_at(plan: &Plan, place: u64) -> Option<Spot>
    ensures { MatchOption result (is_spot plan.now place ≡ false) (Located plan.now place) }
{
    let layout = &plan.layout;
    if place >= layout.pages as u64 * PAGE || place % GRAIN != 0 {
        return None;
    }
    Some(Spot {
        page: Page::new((place / PAGE) as usize),
        unit: Unit::new((place % PAGE / GRAIN) as usize),
    })
}

// How much the piece takes that is out at a spot, if its page has room for so much, and it is at least a mark.
pub fn room_at(memory: &[u64], spot: &Spot) -> Option<u64>
    ensures { MatchOption result (room_good memory.now spot.now ≡ false) (Roomy memory.now spot.now) }
{
    let room = read(memory, spot.page, Field::Kind);
    let left = PAGE - GRAIN * spot.unit.number() as u64;
    if room < MARK_LEN as u64 || room > left {
        return None;
    }
    Some(room)
}

// The unit of a page where the lowest piece may begin: the first, on a page that nothing touches.
fn lowest_unit(memory: &[u64], page: Page, used: u64) -> Option<Unit>
    ensures { MatchOption result (units ≤ (if nat_eq used 0 then 0 else first_free memory.now (taken_at page)))
        (λ u. (u < units) × (u ≡ (if nat_eq used 0 then 0 else first_free memory.now (taken_at page)))) }
{
    if used == 0 {
        return Some(Unit::new(0));
    }
    units_at(page, UnitField::Taken).lowest_free(memory)
}

// The lowest spot of a class, if there is one, and the page has room there.
pub fn lowest_spot(plan: &Plan, memory: &[u64], class: &Class) -> Option<Spot>
    ensures { MatchOption result (has_spot plan.now memory.now class.now ≡ false) (Spotted plan.now memory.now class.now) }
{
    let layout = &plan.layout;
    let pages = layout.pages;
    let page = layout.index().first(
        memory,
        Set::new(class.number.number()),
        Set::new(MOST_CLASSES),
    )?;
    if page.number() >= pages {
        return None;
    }
    let used = read(memory, page, Field::Used);
    if used >= UNITS as u64 {
        return None;
    }
    let unit = lowest_unit(memory, page, used)?;
    let left = PAGE - GRAIN * unit.number() as u64;
    if class.room > left {
        return None;
    }
    Some(Spot { page, unit })
}
