// Numbers, read from a word: in decimal, with no sign and no leading zeros.
ghost use Rattle.std.specs.Prelude.{ℕ, ◌^◌};
ghost use Rattle.script.specs.Reading.{Writes};

use crate::expected::Expected;

// A type of numbers that words write.
pub trait Decimal: Copy {
    // The numbers of the type are those below it.
    ghost limit: { ℕ };

    ghost value: { Self → ℕ };

    // What is expected where no such number stands.
    const EXPECTED: Expected;

    // What the word writes, if that is such a number.
    fn read(word: &str) -> Option<Self>
        ensures { Writes value limit word.now result };
}

impl Decimal for u64 {
    ghost limit = { 2 ^ 64 };

    ghost value = { λ n. n };

    const EXPECTED: Expected = Expected::Number;

    #[tactic(auto, using(crate::proofs::Decimals::numeral, crate::proofs::Decimals::zero_numeral))]
    fn read(word: &str) -> Option<u64> {
        match word.as_bytes() {
            // `parse` alone would take a plus sign and leading zeros.
            [b'1'..=b'9', ..] => word.parse::<u64>().ok(),
            [b'0'] => Some(0),
            _ => None,
        }
    }
}

impl Decimal for u8 {
    ghost limit = { 256 };

    ghost value = { λ n. n };

    const EXPECTED: Expected = Expected::Byte;

    fn read(word: &str) -> Option<u8> {
        u8::try_from(u64::read(word)?).ok()
    }
}
