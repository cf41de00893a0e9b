// Units taken, copied and released, and the lowest free one asked for, in memory that has room for two pages.
use crate::Units;
use crate::unit::Unit;

#[test]
fn lowest_unit(rt: HostRuntime) {
    let mut memory = [u64::MAX; 9];
    let one = Units { at: 1 };
    let other = Units { at: 5 };
    assert!(rt; one.is_full(&memory));
    one.release(&mut memory, Unit::new(200));
    one.release(&mut memory, Unit::new(70));
    other.copy_from(&mut memory, one);
    assert_eq!(rt; other.lowest_free(&memory), Some(Unit::new(70)));
    other.take(&mut memory, Unit::new(70));
    assert!(rt; other.is_taken(&memory, Unit::new(70)));
    assert_eq!(rt; other.lowest_free(&memory), Some(Unit::new(200)));
    assert_eq!(rt; one.lowest_free(&memory), Some(Unit::new(70)));
}
