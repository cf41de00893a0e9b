// Which units of a page are taken: a page has 256 units of 16 bytes, and their bits stand in four words of lent memory.
// The unit u is the bit u % 64 of the word u / 64. No memory is trusted: what lies past its end reads as free, and is not written.
// They are no array of `bool`, since all of the keeper's memory is one lent slice of words.
#![tactic(auto)]

ghost use Rattle.std.specs.Prelude.{◌≡◌};
ghost use Rattle.units.specs.Units.{unit_bit};

use crate::unit::Unit;
use bits::{WORD_BITS, bit_of, is_set};
use words::word_after;

mod edit;
mod find;
#[cfg(test)]
mod tests;
pub mod unit;

// Where the four words of a page's bits begin in memory.
#[derive(Clone, Copy)]
pub struct Units {
    pub at: usize,
}

impl Units {
    pub fn is_taken(self, memory: &[u64], unit: Unit) -> bool
        ensures { result ≡ unit_bit memory.now self.at unit }
    {
        let bits = word_after(memory, self.at, unit.number() / WORD_BITS);
        is_set(bits, bit_of(unit.number()))
    }
}
