// The class of a size, looked up in memory.

use crate::plan::Plan;
use below::Below;
use grounds::numbers::{MARK_LEN, MOST_CLASSES, PAGE};
use layout::header::{CLASSES_AT, LOOKUP_AT};
use limits::lookup::row_of;
use std::marker::Model;
use units::unit::UNITS;
use words::word_after;

// It has an `impl Model` of its own, for the same reason as `Plan`.
#[derive(Clone, Copy)]
pub struct Class {
    pub number: Below<MOST_CLASSES>,
    // how much its pieces take
    pub room: u64,
}

impl Model for Class {
    ghost use Rattle.book.specs.Header.{ClassSaid};

    ghost Value = { ClassSaid };

    ghost view = { λ c. record { number = c.number; room = c.room } };

    ghost inverse = { λ c. record { number = c.number; room = c.room } };
}

impl Class {
    ghost use Rattle.std.specs.Prelude.{◌≡◌, false, MatchOption};
    ghost use Rattle.book.specs.Plan.{Classed, has_class};

    // The least class that has so many bytes and the mark, as the look-up in memory says it, if so many may be asked for and a class has them.
    pub fn of_size(plan: &Plan, memory: &[u64], size: u64) -> Option<Class>
        ensures { MatchOption result (has_class plan.now memory.now size ≡ false) (Classed plan.now memory.now size) }
    {
        let layout = &plan.layout;
        if size < 1 || size > layout.pages as u64 * PAGE {
            return None;
        }
        let row = row_of(size);
        if row > UNITS as u64 {
            return None;
        }
        let number = word_after(memory, LOOKUP_AT, row as usize);
        if number >= plan.classes.number() as u64 {
            return None;
        }
        let room = word_after(memory, CLASSES_AT, number as usize);
        if room < size + MARK_LEN as u64 {
            return None;
        }
        Some(Class {
            number: Below::new(number as usize),
            room,
        })
    }
}
