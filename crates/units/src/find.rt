// The lowest unit that is free, and whether there is none: the first word with a clear bit has it, and the zeros at the end of its complement tell which bit.
ghost use Rattle.std.specs.Prelude.{◌≡◌, ◌<◌, Decides, MatchOption};
ghost use Rattle.units.specs.Units.{AllTaken, FirstOpen, FreeOf, full, lowest_free, unit_words};

use crate::Units;
use crate::unit::{UNIT_WORDS, Unit};
use bits::{WORD_BITS, lowest_set};
use words::word_after;

impl Units {
    // Which of the four words is the first with a clear bit.
    fn first_open(self, memory: &[u64]) -> Option<usize>
        ensures { MatchOption result (FirstOpen memory.now self.at unit_words)
            (λ i. (i < unit_words) × FirstOpen memory.now self.at i) }
    {
        (0..UNIT_WORDS).find(|i| word_after(memory, self.at, *i) < u64::MAX)
    }

    pub fn lowest_free(self, memory: &[u64]) -> Option<Unit>
        ensures value { result ≡ lowest_free memory.now self.at }
        ensures lowest { FreeOf memory.now self.at result }
    {
        let i = self.first_open(memory)?;
        let bit = lowest_set(!word_after(memory, self.at, i));
        Some(Unit::new(WORD_BITS * i + bit.number()))
    }

    pub fn is_full(self, memory: &[u64]) -> bool
        ensures value { result ≡ full memory.now self.at }
        ensures told { Decides result (AllTaken memory.now self.at) }
    {
        self.first_open(memory).is_none()
    }
}
