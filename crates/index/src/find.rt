// The lowest page that is in one of two sets: the first high word that isn't 0 has its group, and the low word of that group the page.
ghost use Rattle.std.specs.Prelude.{◌≡◌, ℕ, ◌<◌, MatchOption};
ghost use Rattle.index.specs.Index.{FirstOf, Sound, first_high, first_page, high_words, highs, lows};

use crate::set::Set;
use crate::{HIGH_WORDS, Index, high_word, low_word};
use bits::{WORD_BITS, lowest_set};
use grounds::page::Page;
use words::word_after;

// Two sets taken as one.
#[derive(Clone, Copy)]
struct TwoSets {
    index: Index,
    set: Set,
    other: Set,
}

impl TwoSets {
    // This and `low` differ in where a word lies: one function for both would be passed that, and be no plainer.
    fn high(&self, memory: &[u64], at: usize) -> u64
        requires { at < high_words }
        ensures { result ≡ highs self.now.index memory.now self.now.set self.now.other at }
    {
        word_after(memory, self.index.high, high_word(self.set, at))
            | word_after(memory, self.index.high, high_word(self.other, at))
    }

    fn low(&self, memory: &[u64], group: usize) -> u64
        requires { group < 1024 }
        ensures { result ≡ lows self.now.index memory.now self.now.set self.now.other group }
    {
        word_after(memory, self.index.low, low_word(self.set, group))
            | word_after(memory, self.index.low, low_word(self.other, group))
    }

    // Where the first high word lies that isn't 0, counted from the sets' first.
    fn first_high(&self, memory: &[u64]) -> Option<usize>
        ensures { MatchOption result (first_high self.now.index memory.now self.now.set self.now.other ≡ high_words)
            (λ at. (at < high_words) × (at ≡ first_high self.now.index memory.now self.now.set self.now.other)) }
    {
        (0..HIGH_WORDS).find(|at| self.high(memory, *at) > 0)
    }

    // No word is trusted: where the low words of a group are 0, it has no page, whatever the high word says.
    fn first(&self, memory: &[u64]) -> Option<Page>
        ensures { result ≡ first_page self.now.index memory.now self.now.set self.now.other }
    {
        let at = self.first_high(memory)?;
        let group = WORD_BITS * at + lowest_set(self.high(memory, at)).number();
        let low = self.low(memory, group);
        if low == 0 {
            return None;
        }
        Some(Page::new(WORD_BITS * group + lowest_set(low).number()))
    }
}

impl Index {
    // For one set, `other` is the same as `set`.
    pub fn first(self, memory: &[u64], set: Set, other: Set) -> Option<Page>
        ensures words { result ≡ first_page self memory.now set other }
        ensures lowest { (groups : ℕ) → Sound self groups memory.now → FirstOf self groups memory.now set other result }
    {
        let both = TwoSets {
            index: self,
            set,
            other,
        };
        // `number` tells that the index keeps such sets, without which the lowest is not known.
        let _kept = (set.number(), other.number());
        both.first(memory)
    }
}
