// Numbers put in and taken out, past the last slot and back to the first.
use crate::Ring;

#[test]
fn oldest_leaves(rt: HostRuntime) {
    let mut memory = [0u64; 5];
    let ring = Ring {
        header: 0,
        slots: 2,
        cap: 3,
    };
    assert_eq!(rt; ring.pop(&mut memory), None);
    ring.push(&mut memory, 11);
    ring.push(&mut memory, 12);
    assert_eq!(rt; ring.pop(&mut memory), Some(11));
    ring.push(&mut memory, 13);
    ring.push(&mut memory, 14);
    ring.push(&mut memory, 15);
    assert_eq!(rt; ring.count(&memory), 3);
    assert_eq!(rt; ring.pop(&mut memory), Some(12));
    assert_eq!(rt; ring.pop(&mut memory), Some(13));
}
