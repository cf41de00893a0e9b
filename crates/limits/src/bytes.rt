// Limits as bytes: numbers of eight bytes, the lowest first: pages, how many rest, the two bytes of the mark, and then each class.
ghost use Rattle.std.specs.Prelude.{◌≡◌, ◌≤◌, MatchResult};
ghost use Rattle.grounds.specs.Numbers.{byte};
ghost use Rattle.limits.specs.declared.bytes.NotLimits.TheVariants.{NoByte};
ghost use Rattle.limits.specs.Bytes.{LimitsRead, LimitsTried, NumbersRead};

use crate::limits::Limits;
use codec::number::{NUMBER_LEN, number_of};

// Reads all of the bytes as numbers into the front of the table, and tells how many there are. Where they are no whole number of these, or more than
// the table has room for, it writes nothing. The caller lends the table, since there is no heap.
pub fn read_numbers(bytes: &[u8], table: &mut [u64]) -> Option<usize>
    ensures { NumbersRead bytes.now table.old table.new result }
{
    let (eights, []) = bytes.as_chunks::<NUMBER_LEN>() else {
        return None;
    };
    if eights.len() > table.len() {
        return None;
    }
    // The place is counted, since of parts of the table that a zip lends it stayed unproved what they hold in the end.
    for (i, eight) in eights.iter().enumerate() {
        table[i] = number_of(eight);
    }
    Some(eights.len())
}

// Why numbers are those of no limits.
#[derive(Clone, Copy, PartialEq, Eq, Debug)]
pub enum NotLimits {
    // there is not one for each but the classes
    TooFew,
    // one that stands for a byte of the mark fits none
    NoByte,
}

// The byte of a mark that a number stands for.
fn mark_byte(number: u64) -> Result<u8, NotLimits>
    ensures { MatchResult result (λ b. b ≡ number) (λ e. (e ≡ NoByte) × (byte ≤ number)) }
{
    u8::try_from(number).map_err(|_| NotLimits::NoByte)
}

impl<'a> TryFrom<&'a [u64]> for Limits<'a> {
    type Error = NotLimits;

    ghost try_from_gives = { λ numbers r. LimitsTried numbers.now r };

    fn try_from(numbers: &'a [u64]) -> Result<Self, NotLimits> {
        let [pages, rests, first, second, classes @ ..] = numbers else {
            return Err(NotLimits::TooFew);
        };
        Ok(Limits {
            pages: *pages,
            classes,
            rests: *rests,
            marks: [mark_byte(*first)?, mark_byte(*second)?],
        })
    }
}

// The limits that have these numbers, if there are any: the same as the conversion above, which also tells why there are none. There is a number for
// each but the classes, and those of the mark fit a byte.
pub fn limits_from(numbers: &[u64]) -> Option<Limits<'_>>
    ensures { LimitsRead numbers.now result }
{
    Limits::try_from(numbers).ok()
}
