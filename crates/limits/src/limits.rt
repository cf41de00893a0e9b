// The limits of a ground.
ghost use Rattle.std.specs.Prelude.{◌≡◌, ℕ, ◌≤◌, Bool, true, Decides, MatchOption, IfSome, IfNone};
ghost use Rattle.grounds.specs.Blocks.{ground_size, memory_words};
ghost use Rattle.grounds.specs.Numbers.{most_pages, most_rests};
ghost use Rattle.grounds.specs.Worlds.{GoodLimits as IsGood};
ghost use Rattle.limits.specs.Limits.{limits_in};

use crate::classes;
use crate::good::GoodLimits;
use grounds::numbers::{MARK_LEN, MOST_PAGES, MOST_RESTS};

#[derive(Clone, Copy, PartialEq, Eq, Debug)]
pub struct Limits<'a> {
    pub pages: u64,
    // how much small pieces take, rising
    pub classes: &'a [u64],
    // how many of those given back rest
    pub rests: u64,
    pub marks: [u8; MARK_LEN],
}

impl<'a> Limits<'a> {
    // These limits as good ones, if an opening with them is taken, by a keeper that can do whatever.
    pub fn good(&self) -> Option<GoodLimits<'a>>
        ensures same { IfSome result (λ g. g.limits ≡ self.now) }
        ensures refused { (can : ℕ → Bool) → IfNone result (IsGood can (limits_in can self.now) → ⊥) }
    {
        if self.pages < 1 || self.pages > MOST_PAGES || self.rests > MOST_RESTS {
            return None;
        }
        if !classes::are_good(self.classes) {
            return None;
        }
        if self.marks.contains(&0) {
            return None;
        }
        Some(GoodLimits { limits: *self })
    }

    // Whether an opening with these is taken, by a keeper that can do whatever.
    pub fn are_good(&self) -> bool
        ensures good { (can : ℕ → Bool) → Decides result (IsGood can (limits_in can self.now)) }
        ensures small { result ≡ true → (self.now.pages ≤ most_pages) × (self.now.rests ≤ most_rests) }
    {
        self.good().is_some()
    }

    // How many words memory has, if the limits are good.
    pub fn memory_words(&self) -> Option<u64>
        ensures { (can : ℕ → Bool) → MatchOption result (IsGood can (limits_in can self.now) → ⊥) (λ n. n ≡ memory_words (limits_in can self.now)) }
    {
        Some(self.good()?.memory_words())
    }

    // How many bytes the ground has, if the limits are good.
    pub fn ground_bytes(&self) -> Option<u64>
        ensures { (can : ℕ → Bool) → MatchOption result (IsGood can (limits_in can self.now) → ⊥) (λ n. n ≡ ground_size (limits_in can self.now)) }
    {
        Some(self.good()?.ground_bytes())
    }
}
