// What each word of memory is after an opening.
ghost use Rattle.std.specs.Prelude.{◌≡◌, ℕ, ◌<◌, ◌≤◌, Bool};
ghost use Rattle.layout.specs.Layout.{high_at, templates_at};
ghost use Rattle.limits.specs.Limits.{limits_in};
ghost use Rattle.opening.specs.Opening.{header_word, high_word, index_word, limit_word, low_word, opened_word, table_word};

use crate::bits_at_first::{barred, ones};
use bits::WORD_BITS;
use grounds::numbers::{GRAIN, MARK_LEN, MOST_CLASSES};
use index::HIGH_WORDS;
use index::set::SETS;
use layout::header::{
    CLASSES_AT, COUNT_AT, HEADER, HIGH_AT, LOOKUP_AT, MARKS_AT, PAGES_AT, RESTS_AT, TEMPLATES_AT,
};
use layout::layout::{Layout, groups};
use limits::good::GoodLimits;
use limits::limits::Limits;
use limits::lookup::class_number;
use units::unit::UNIT_WORDS;
use words::word;

// This and the functions below are one, split by the parts of memory: all have the limits and the word's number, and a struct of the two would be made
// for each word.
fn limit_word(limits: &Limits<'_>, at: usize) -> u64
    ensures { (can : ℕ → Bool) → result ≡ limit_word (limits_in can limits.now) at }
{
    match at {
        PAGES_AT => limits.pages,
        RESTS_AT => limits.rests,
        COUNT_AT => limits.classes.len() as u64,
        _ => 0,
    }
}

fn header_word(limits: &Limits<'_>, at: usize) -> u64
    ensures { (can : ℕ → Bool) → result ≡ header_word (limits_in can limits.now) at }
{
    if at < MARKS_AT {
        limit_word(limits, at)
    } else if at < MARKS_AT + MARK_LEN {
        limits.marks[at - MARKS_AT] as u64
    } else if at < CLASSES_AT {
        0
    } else {
        word(limits.classes, at - CLASSES_AT)
    }
}

fn table_word(limits: &Limits<'_>, at: usize) -> u64
    requires { (templates_at ≤ at) × (at < high_at) }
    ensures { (can : ℕ → Bool) → result ≡ table_word (limits_in can limits.now) at }
{
    if at < LOOKUP_AT {
        let k = at - TEMPLATES_AT;
        barred(word(limits.classes, k / UNIT_WORDS), k % UNIT_WORDS)
    } else {
        class_number(limits.classes, GRAIN * (at - LOOKUP_AT) as u64) as u64
    }
}

// The word k of the high level of the index.
fn high_word(pages: usize, k: usize) -> u64
    ensures { result ≡ high_word pages k }
{
    if k / HIGH_WORDS == MOST_CLASSES {
        ones(groups(pages).saturating_sub(WORD_BITS * (k % HIGH_WORDS)) as u64)
    } else {
        0
    }
}

// The word k of the low level of the index. It differs from that of the high level in which part of k is the set, and in what is counted.
fn low_word(pages: usize, k: usize) -> u64
    ensures { result ≡ low_word pages k }
{
    if k % SETS == MOST_CLASSES {
        // No bound on k is known here: where the product would not fit, there are no pages left.
        ones(pages.saturating_sub(WORD_BITS.saturating_mul(k / SETS)) as u64)
    } else {
        0
    }
}

fn index_word(good: &GoodLimits<'_>, at: usize) -> u64
    requires { high_at ≤ at }
    ensures { (can : ℕ → Bool) → result ≡ index_word (limits_in can good.now.limits) at }
{
    let pages = good.limits.pages as usize;
    if at < HEADER {
        return high_word(pages, at - HIGH_AT);
    }
    let layout = Layout {
        pages,
        rests: good.limits.rests as usize,
    };
    let low = layout.index().low;
    if at < low {
        0
    } else {
        low_word(pages, at - low)
    }
}

pub fn opened_word(good: &GoodLimits<'_>, at: usize) -> u64
    ensures { (can : ℕ → Bool) → result ≡ opened_word (limits_in can good.now.limits) at }
{
    if at < TEMPLATES_AT {
        header_word(&good.limits, at)
    } else if at < HIGH_AT {
        table_word(&good.limits, at)
    } else {
        index_word(good, at)
    }
}
