// A unit taken and released, which sets and clears its bit, and the bits of a page copied to those of another.
ghost use Rattle.std.specs.Prelude.{◌≡◌, ℕ, ◌+◌, ◌%◌, ◌^◌, ◌<◌, ◌≤◌, not, ◌&&◌, ◌||◌, ◌⊎◌, ◌==◌, slice_index, slice_set};
ghost use Rattle.units.specs.Units.{BitsAfter, Rest, copied, released, taken, unit_at, unit_bit, unit_words, units};

use crate::Units;
use crate::unit::{UNIT_WORDS, Unit};
use bits::{Bit, WORD_BITS, bit_of, with_clear, with_set};
use words::{put_after, word_after};

impl Units {
    // The word that has the bit of a unit becomes what `word_change` makes of it.
    fn change<F: FnOnce(u64, Bit) -> u64>(self, memory: &mut [u64], unit: Unit, word_change: F)
        requires { F.IsAlwaysCallable word_change }
        ensures near { unit < units }
        ensures fits { slice_index memory.old (unit_at self.at unit) < 2 ^ 64 }
        ensures words { (w : ℕ)
            × F.post word_change (slice_index memory.old (unit_at self.at unit)) (unit % 64) w
            × (memory.new ≡ slice_set memory.old (unit_at self.at unit) w) }
    {
        let at = unit.number() / WORD_BITS;
        let bits = word_change(word_after(memory, self.at, at), bit_of(unit.number()));
        put_after(memory, self.at, at, bits);
    }

    pub fn take(self, memory: &mut [u64], unit: Unit)
        ensures words { memory.new ≡ taken memory.old self.at unit }
        ensures bits { BitsAfter self.at (λ v. v == unit || unit_bit memory.old self.at v) memory.old memory.new }
        ensures rest { Rest self.at memory.old memory.new }
    {
        self.change(memory, unit, with_set);
    }

    pub fn release(self, memory: &mut [u64], unit: Unit)
        ensures words { memory.new ≡ released memory.old self.at unit }
        ensures bits { BitsAfter self.at (λ v. not (v == unit) && unit_bit memory.old self.at v) memory.old memory.new }
        ensures rest { Rest self.at memory.old memory.new }
    {
        self.change(memory, unit, with_clear);
    }

    // The words of the two pages lie apart, so that none is written before it is read.
    pub fn copy_from(self, memory: &mut [u64], from: Units)
        requires apart { (from.at + unit_words ≤ self.at) ⊎ (self.at + unit_words ≤ from.at) }
        ensures words { memory.new ≡ copied memory.old from.at self.at }
        ensures bits { BitsAfter self.at (unit_bit memory.old from.at) memory.old memory.new }
        ensures rest { Rest self.at memory.old memory.new }
    {
        // Not `copy_within`: that asks that both parts lie in memory, and of what lies past its end this reads 0 and writes nothing.
        for i in 0..UNIT_WORDS {
            let value = word_after(memory, from.at, i);
            put_after(memory, self.at, i, value);
        }
    }
}
