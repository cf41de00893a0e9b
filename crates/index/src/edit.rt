// A page put into a set and taken out: its bit in the low word, and the group's bit in the high word, which is kept as long as the low word isn't 0.
ghost use Rattle.std.specs.Prelude.{◌≡◌, ℕ, ◌*◌, ◌/◌, ◌%◌, ◌<◌};
ghost use Rattle.bits.specs.Bit.{with_bit};
ghost use Rattle.index.specs.Index.{Inserted, Removed, Sound, high_after, high_of, inserted, low_of, removed, sets, with_words};

use crate::set::Set;
use crate::{Index, high_word, low_word};
use bits::{Bit, WORD_BITS, bit_of, with_clear, with_set};
use grounds::page::Page;
use words::{put_after, word_after};

// A high word, after the low word of one of its groups has become `low`.
fn high_after(high: u64, bit: Bit, low: u64) -> u64
    ensures { result ≡ high_after high bit low }
{
    if low == 0 {
        with_clear(high, bit)
    } else {
        high
    }
}

impl Index {
    // Both words of a page are changed: the low word by `low_change`, and the high word by `high_change`, which is told what the low word has become.
    // Both are read before either is written, so that what is written is told by memory as it was, even where the two lie in one place.
    fn change<L: FnOnce(u64, Bit) -> u64, H: FnOnce(u64, Bit, u64) -> u64>(
        self,
        memory: &mut [u64],
        set: Set,
        page: Page,
        low_change: L,
        high_change: H,
    )
        requires low { L.IsAlwaysCallable low_change }
        requires high { H.IsAlwaysCallable high_change }
        ensures kept { set < sets }
        ensures words { (low high : ℕ)
            × L.post low_change (low_of self memory.old set (page / 64)) (page % 64) low
            × H.post high_change (high_of self memory.old set (page / 64 / 64)) (page / 64 % 64) low high
            × (memory.new ≡ with_words self memory.old set page low high) }
    {
        let group = page.number() / WORD_BITS;
        let low_at = low_word(set, group);
        let high_at = high_word(set, group / WORD_BITS);
        let low = low_change(word_after(memory, self.low, low_at), bit_of(page.number()));
        let high = high_change(word_after(memory, self.high, high_at), bit_of(group), low);
        put_after(memory, self.low, low_at, low);
        put_after(memory, self.high, high_at, high);
    }

    pub fn insert(self, memory: &mut [u64], set: Set, page: Page)
        ensures words { memory.new ≡ inserted self memory.old set page }
        ensures changes { (groups : ℕ) → Sound self groups memory.old → page < 64 * groups →
            Inserted self groups set page memory.old memory.new }
    {
        let high_change = |high: u64, bit: Bit, _low: u64| -> u64
            ensures { result ≡ with_bit high bit }
        { with_set(high, bit) };
        self.change(memory, set, page, with_set, high_change);
    }

    pub fn remove(self, memory: &mut [u64], set: Set, page: Page)
        ensures words { memory.new ≡ removed self memory.old set page }
        ensures changes { (groups : ℕ) → Sound self groups memory.old → page < 64 * groups →
            Removed self groups set page memory.old memory.new }
    {
        self.change(memory, set, page, with_clear, high_after);
    }
}
