// Words of bits as they are at first: the units of a page where no piece of a class may begin, and sets that have all pages below one.
ghost use Rattle.std.specs.Prelude.{◌≡◌, ◌<◌};
ghost use Rattle.opening.specs.Opening.{barred, ones};
ghost use Rattle.table.specs.Table.{fits};
ghost use Rattle.units.specs.Units.{unit_words};

use bits::{WORD_BITS, bit_of, with_set};
use grounds::numbers::{GRAIN, PAGE};
use units::unit::Unit;

// A word whose lowest bits are set, as many as that.
pub fn ones(count: u64) -> u64
    ensures { result ≡ ones count }
{
    if count < WORD_BITS as u64 {
        (1 << count) - 1
    } else {
        u64::MAX
    }
}

// Whether a piece of a class may begin at a unit of a page.
fn may_begin(class: u64, unit: Unit) -> bool
    requires { 0 < class }
    ensures { result ≡ fits class unit }
{
    let from = GRAIN * unit.number() as u64;
    from % class == 0 && class <= PAGE - from
}

// The bits, in one of a page's four words, of the units where no piece of a class may begin.
pub fn barred(class: u64, word: usize) -> u64
    requires { word < unit_words }
    ensures { result ≡ barred class word }
{
    let mut bits = 0;
    // 0 stands for no class in memory, where each of the classes that there may be has a word.
    if class == 0 {
        return bits;
    }
    // `k` is the number of a bit and no index: a filter and a fold over the same range would say it no plainer.
    for k in 0..WORD_BITS {
        if !may_begin(class, Unit::new(WORD_BITS * word + k)) {
            bits = with_set(bits, bit_of(k));
        }
    }
    bits
}
