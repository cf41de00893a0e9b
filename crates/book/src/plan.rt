// What an event goes by, read from the header of memory.
ghost use Rattle.std.specs.Prelude.{◌≡◌, ◌&&◌, false, true, MatchOption, nat_lt};
ghost use Rattle.grounds.specs.Numbers.{byte};

use below::Below;
use grounds::numbers::{
    FIXED_WORDS, MARK_LEN, MOST_CLASSES, MOST_PAGES, MOST_RESTS, PAGE, PAGE_WORDS, REST_WORDS,
};
use layout::header::{COUNT_AT, MARKS_AT, PAGES_AT, RESTS_AT};
use layout::layout::Layout;
use std::marker::Model;
use words::word;

// How many counts of classes there are, from none to the most.
const COUNTS: usize = MOST_CLASSES + 1;

// It has an `impl Model` of its own, since a struct that holds such structs and has none is moved where it is passed by value.
#[derive(Clone, Copy)]
pub struct Plan {
    pub layout: Layout,
    // how many classes there are
    pub classes: Below<COUNTS>,
    pub mark: [u8; MARK_LEN],
}

impl Model for Plan {
    ghost use Rattle.book.specs.Header.{PlanSaid};

    ghost Value = { PlanSaid };

    ghost view = { λ x. record { layout = x.layout; classes = x.classes; mark = x.mark } };

    ghost inverse = { λ x. record { layout = x.layout; classes = x.classes; mark = x.mark } };
}

// A byte of a mark, which is never 0.
fn mark_byte(number: u64) -> Option<u8>
    ensures { MatchOption result ((nat_lt 0 number && nat_lt number byte) ≡ false)
        (λ b. (b ≡ number) × ((nat_lt 0 number && nat_lt number byte) ≡ true)) }
{
    if number == 0 {
        return None;
    }
    u8::try_from(number).ok()
}

impl Plan {
    ghost use Rattle.std.specs.Prelude.{◌≡◌, false, MatchOption};
    ghost use Rattle.book.specs.Plan.{Planned, plan_good};

    // The plan that memory's header says, if it is one to go by for a ground of so many bytes.
    pub fn read(memory: &[u64], ground_len: usize) -> Option<Plan>
        ensures { MatchOption result (plan_good memory.now ground_len ≡ false) (Planned memory.now ground_len) }
    {
        let pages = word(memory, PAGES_AT);
        let rests = word(memory, RESTS_AT);
        let classes = word(memory, COUNT_AT);
        if pages < 1 || pages > MOST_PAGES || rests > MOST_RESTS {
            return None;
        }
        if classes < 1 || classes > MOST_CLASSES as u64 {
            return None;
        }
        let words = PAGE_WORDS * pages + (REST_WORDS * rests + FIXED_WORDS);
        if memory.len() as u64 != words || ground_len as u64 != pages * PAGE {
            return None;
        }
        let first = mark_byte(word(memory, MARKS_AT))?;
        let second = mark_byte(word(memory, MARKS_AT + 1))?;
        Some(Plan {
            layout: Layout {
                pages: pages as usize,
                rests: rests as usize,
            },
            classes: Below::new(classes as usize),
            mark: [first, second],
        })
    }
}
