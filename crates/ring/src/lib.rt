// A queue of numbers in lent memory: slots that are used as a ring, and two header words, the slot of the newest number and how many there are.
// The numbers lie from the newest on to the oldest, past the last slot to the first again.
// It is no `VecDeque`, since the keeper has no heap: all its memory is one lent slice.
#![tactic(auto)]

ghost use Rattle.std.specs.Prelude.{◌≡◌, ◌+◌, ◌<◌, ◌≤◌, length};
ghost use Rattle.ring.specs.Ring.{before, count_of, held, wrap};

use words::word_after;

mod ends;
#[cfg(test)]
mod tests;

// Where the two header words and the slots begin in memory, and how many slots there are.
#[derive(Clone, Copy)]
pub struct Ring {
    pub header: usize,
    pub slots: usize,
    pub cap: usize,
}

impl Ring {
    // How many numbers there are, as memory says it.
    pub fn count(self, memory: &[u64]) -> u64
        ensures words { result ≡ count_of self memory.now }
        ensures long { result ≡ length (held self memory.now) }
    {
        word_after(memory, self.header, 1)
    }

    // The slot before another, and the last before the first.
    fn before(self, slot: usize) -> usize
        requires { slot < self.«cap» }
        ensures value { result ≡ before self.«cap» slot }
        ensures near { result < self.«cap» }
    {
        if slot == 0 { self.cap - 1 } else { slot - 1 }
    }

    // The slot of the number that is `after` places behind the newest, which is in the slot `newest`.
    fn behind(self, newest: usize, after: usize) -> usize
        requires { (newest < self.«cap») × (after ≤ self.«cap») }
        ensures { result ≡ wrap self.«cap» (newest + after) }
    {
        let left = self.cap - newest;
        if after < left {
            newest + after
        } else {
            after - left
        }
    }
}
