// The two ends of the queue: a number is put in as the newest, and the oldest leaves. No header word is trusted, so any memory is safe.
ghost use Rattle.std.specs.Prelude.{◌≡◌, ◌<◌, ◌≤◌, [], None};
ghost use Rattle.ring.specs.Ring.{Left, Pushed, Sound, count_of, held, oldest, popped, pushed};

use crate::Ring;
use words::{put, put_after, word, word_after};

impl Ring {
    // Nothing is written where no slot is free, or where the newest lies in none.
    pub fn push(self, memory: &mut [u64], value: u64)
        ensures words { memory.new ≡ pushed self memory.old value }
        ensures newest { Sound self memory.old → count_of self memory.old < self.«cap» →
            Pushed self value memory.old memory.new }
        ensures full { self.«cap» ≤ count_of self memory.old → memory.new ≡ memory.old }
    {
        let newest = word(memory, self.header);
        let count = self.count(memory);
        if newest < self.cap as u64 && count < self.cap as u64 {
            let slot = self.before(newest as usize);
            put_after(memory, self.slots, slot, value);
            put(memory, self.header, slot as u64);
            put_after(memory, self.header, 1, count + 1);
        }
    }

    // None, and nothing is written, where there is no number, or where the header words are not such as a ring has.
    pub fn pop(self, memory: &mut [u64]) -> Option<u64>
        ensures words { memory.new ≡ popped self memory.old }
        ensures answer { result ≡ oldest self memory.old }
        ensures leaves { Sound self memory.old → Left self memory.old memory.new result }
        ensures empty { held self memory.old ≡ [] → (result ≡ None) × (memory.new ≡ memory.old) }
    {
        let newest = word(memory, self.header);
        let count = self.count(memory);
        if newest < self.cap as u64 && count <= self.cap as u64 && count > 0 {
            let slot = self.behind(newest as usize, count as usize - 1);
            let value = word_after(memory, self.slots, slot);
            put_after(memory, self.header, 1, count - 1);
            Some(value)
        } else {
            None
        }
    }
}
