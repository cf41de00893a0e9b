// An opening of lent memory and a lent ground.
ghost use Rattle.std.specs.Prelude.{◌≡◌, ℕ, ◌<◌, Bool, length, slice_index};
ghost use Rattle.limits.specs.Limits.{limits_in};
ghost use Rattle.opening.specs.Opening.{Opening, opened_word};

use crate::words_at_first::opened_word;
use grounds::answer::{Answer, Refusal};
use limits::good::GoodLimits;
use limits::limits::Limits;

// Writes each word of memory.
fn write_all(memory: &mut [u64], good: &GoodLimits<'_>)
    ensures { (can : ℕ → Bool) (i : ℕ) → i < length memory.new → slice_index memory.new i ≡ opened_word (limits_in can good.now.limits) i }
{
    for (at, word) in memory.iter_mut().enumerate() {
        *word = opened_word(good, at);
    }
}

const REFUSED: Answer = Answer::Refused(Refusal::OutOfRange, 0);

// Where the limits are good, and memory and ground have the lengths that these ask for, all of memory is written. Else nothing is. The ground isn't
// written at all.
pub fn open(memory: &mut [u64], ground: &[u8], limits: &Limits<'_>) -> Answer
    ensures { (can : ℕ → Bool) → Opening can (limits_in can limits.now) ground.now memory.old memory.new result }
{
    let Some(good) = limits.good() else {
        return REFUSED;
    };
    if memory.len() as u64 != good.memory_words() || ground.len() as u64 != good.ground_bytes() {
        return REFUSED;
    }
    write_all(memory, &good);
    Answer::Done
}
