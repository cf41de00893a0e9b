// The least class that has a size, looked up in a table over multiples of the grain, which is made once.
ghost use Rattle.std.specs.Prelude.{◌≡◌, ℕ, ◌*◌, ◌^◌, ◌<◌, ◌≤◌, length, slice_index};
ghost use Rattle.grounds.specs.Numbers.{grain};
ghost use Rattle.limits.specs.Lookup.{LookupRight, class_number, row};

use grounds::numbers::{GRAIN, MARK_LEN};

// Which class is the least that has so many bytes, and how many classes there are where none has: a number in both cases, since the table in memory
// holds numbers.
pub fn class_number(classes: &[u64], bytes: u64) -> usize
    ensures { result ≡ class_number classes.now bytes }
{
    classes.iter().take_while(|class| **class < bytes).count()
}

// Writes into each row of the table which class is the least that has so many grains.
pub fn fill(classes: &[u64], table: &mut [u64])
    requires { length table.old ≤ 2 ^ 32 }
    ensures { (j : ℕ) → j < length table.new → slice_index table.new j ≡ class_number classes.now (grain * j) }
{
    for (j, row) in table.iter_mut().enumerate() {
        *row = class_number(classes, GRAIN * j as u64) as u64;
    }
}

// The row for a piece of so many bytes.
pub fn row_of(size: u64) -> u64
    requires { size < 2 ^ 63 }
    ensures { result ≡ row size }
{
    (size + MARK_LEN as u64).div_ceil(GRAIN)
}

// The class that the row tells is the class of the size.
pub fn lookup_is_right()
    ensures { LookupRight }
{}
