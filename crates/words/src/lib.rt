// Lent memory, read and written word by word: what lies past its end reads as 0 and is not written, so that no number found in it leads outside.
#![tactic(auto)]

ghost use Rattle.std.specs.Prelude.{◌≡◌, ◌+◌, slice_index, slice_set};

pub fn word(memory: &[u64], at: usize) -> u64
    ensures { result ≡ slice_index memory.now at }
{
    memory.get(at).copied().unwrap_or(0)
}

pub fn put(memory: &mut [u64], at: usize, value: u64)
    ensures { memory.new ≡ slice_set memory.old at value }
{
    if at < memory.len() {
        memory[at] = value;
    }
}

// The word that is `after` words behind a place, wherever that is: where the sum is no number of a word, memory ends before it.
pub fn word_after(memory: &[u64], place: usize, after: usize) -> u64
    ensures { result ≡ slice_index memory.now (place + after) }
{
    word(memory, place.saturating_add(after))
}

pub fn put_after(memory: &mut [u64], place: usize, after: usize, value: u64)
    ensures { memory.new ≡ slice_set memory.old (place + after) value }
{
    put(memory, place.saturating_add(after), value);
}
