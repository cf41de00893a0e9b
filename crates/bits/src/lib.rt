// Bits of a word: set, cleared and tested by shifts and masks, and the lowest that is set by counting zeros at the end.
#![tactic(auto)]

ghost use Rattle.std.specs.Prelude.{◌≡◌, ℕ, ◌<◌, ◌%◌, true, false, not, ◌&&◌, ◌||◌, ◌==◌};
ghost use Rattle.bits.specs.Bit.{bit, with_bit, without_bit, lowest_bit, word_bits};

use below::Below;

// How many bits a word has.
pub const WORD_BITS: usize = 64;

// The number of a bit in its word, counted from the lowest, which is 0.
pub type Bit = Below<WORD_BITS>;

// The bit of the number `n` in a row of words, each of which has WORD_BITS of them.
pub fn bit_of(n: usize) -> Bit
    ensures { result ≡ n % word_bits }
{
    Bit::new(n % WORD_BITS)
}

pub fn is_set(word: u64, k: Bit) -> bool
    ensures { result ≡ bit word k }
{
    (word >> k.number()) & 1 == 1
}

pub fn with_set(word: u64, k: Bit) -> u64
    ensures value { result ≡ with_bit word k }
    ensures bits { (j : ℕ) → bit result j ≡ (j == k || bit word j) }
{
    word | (1 << k.number())
}

pub fn with_clear(word: u64, k: Bit) -> u64
    ensures value { result ≡ without_bit word k }
    ensures bits { (j : ℕ) → bit result j ≡ (not (j == k) && bit word j) }
{
    word & !(1 << k.number())
}

pub fn lowest_set(word: u64) -> Bit
    requires { 0 < word }
    ensures value { result ≡ lowest_bit word }
    ensures within { result < word_bits }
    ensures here { bit word result ≡ true }
    ensures below { (j : ℕ) → j < result → bit word j ≡ false }
{
    Bit::new(word.trailing_zeros() as usize)
}
