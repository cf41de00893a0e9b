// Limits that are known to be good: what an opening with them needs is asked of these, and fails for none.
ghost use Rattle.std.specs.Prelude.{◌≡◌, ℕ, ◌≤◌, Bool};
ghost use Rattle.std.proofs.Props.{props};
ghost use Rattle.grounds.specs.Blocks.{ground_size, memory_words};
ghost use Rattle.grounds.specs.Numbers.{most_pages, most_rests};
ghost use Rattle.grounds.specs.Worlds.{GoodLimits as IsGood};
ghost use Rattle.limits.specs.Limits.{limits_in};

use crate::limits::Limits;
use grounds::numbers::{FIXED_WORDS, PAGE, PAGE_WORDS, REST_WORDS};

#[derive(Clone, Copy, PartialEq, Eq, Debug)]
pub struct GoodLimits<'a> {
    pub limits: Limits<'a>,
    // good for a keeper that can do whatever
    pub ghost good: { (can : ℕ → Bool) → IsGood can (limits_in can limits) } by { Prim.hlevel props },
    // these two follow from it, and stand here so that arithmetic reads them
    pub ghost few_pages: { limits.pages ≤ most_pages },
    pub ghost few_rests: { limits.rests ≤ most_rests },
}

impl GoodLimits<'_> {
    // How many words memory has.
    pub fn memory_words(&self) -> u64
        ensures { (can : ℕ → Bool) → result ≡ memory_words (limits_in can self.now.limits) }
    {
        PAGE_WORDS * self.limits.pages + (REST_WORDS * self.limits.rests + FIXED_WORDS)
    }

    // How many bytes the ground has.
    pub fn ground_bytes(&self) -> u64
        ensures { (can : ℕ → Bool) → result ≡ ground_size (limits_in can self.now.limits) }
    {
        self.limits.pages * PAGE
    }
}
