// Classes as a table: how much small pieces take.
ghost use Rattle.std.specs.Prelude.{◌≡◌, ◌≤◌, true, length, Decides};
ghost use Rattle.grounds.specs.Numbers.{most_classes};
ghost use Rattle.grounds.specs.Worlds.{rising};

use grounds::numbers::{GRAIN, MOST_CLASSES, PAGE};

// Whether each class is a multiple of the grain, no more than a page, and above the one before.
#[tactic(auto, using(crate::proofs::Rise::rises))]
fn rise(classes: &[u64]) -> bool
    ensures { result ≡ rising 0 classes.now }
{
    // Each class is looked at beside the one before: iterators would take one pass over neighbours and another over each alone.
    let mut last = 0;
    for class in classes {
        if *class <= last || *class % GRAIN != 0 || *class > PAGE {
            return false;
        }
        last = *class;
    }
    true
}

// Whether there are as many as there may be, and they rise.
pub fn are_good(classes: &[u64]) -> bool
    ensures { Decides result ((1 ≤ length classes.now) × (length classes.now ≤ most_classes) × (rising 0 classes.now ≡ true)) }
{
    !classes.is_empty() && classes.len() <= MOST_CLASSES && rise(classes)
}
