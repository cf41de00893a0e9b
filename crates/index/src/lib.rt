// Sets of page numbers, kept in lent memory as bits in two levels: a low word has the pages of one group of 64, and a high word says which low words aren't 0.
// So the lowest page of a set is found in at most 16 turns of a loop and two countings of zeros.
// They are no `BTreeSet`, since the keeper has no heap: all its memory is one lent slice.
#![tactic(auto)]

ghost use Rattle.std.specs.Prelude.{◌≡◌, ◌+◌, ◌*◌, ◌<◌};
ghost use Rattle.index.specs.Index.{high_words, sets};

use crate::set::{SETS, Set};

mod edit;
mod find;
pub mod set;
#[cfg(test)]
mod tests;

// How many high words a set has: enough for 1,024 groups, and so for 65,536 pages.
pub const HIGH_WORDS: usize = 16;

// Where the two levels begin in memory.
#[derive(Clone, Copy)]
pub struct Index {
    pub high: usize,
    pub low: usize,
}

// Which of the low words is that of a set for a group: the words of one group lie side by side, set by set.
fn low_word(set: Set, group: usize) -> usize
    requires { group < 1024 }
    ensures place { result ≡ sets * group + set }
    ensures kept { set < sets }
{
    SETS * group + set.number()
}

// Which of the high words is that of a set: the words of one set lie side by side.
fn high_word(set: Set, word: usize) -> usize
    requires { word < high_words }
    ensures { result ≡ high_words * set + word }
{
    HIGH_WORDS * set.number() + word
}
