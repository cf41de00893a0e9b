// Pages put in and taken out, and the lowest asked for, in memory that has room for three groups.
use crate::Index;
use crate::set::Set;
use grounds::page::Page;

#[test]
fn lowest_page(rt: HostRuntime) {
    let mut memory = [0u64; 627];
    let index = Index { high: 0, low: 528 };
    let set = Set::new(4);
    let last = Set::new(32);
    assert_eq!(rt; index.first(&memory, set, set), None);
    index.insert(&mut memory, set, Page::new(130));
    index.insert(&mut memory, set, Page::new(70));
    index.insert(&mut memory, last, Page::new(69));
    assert_eq!(rt; index.first(&memory, set, set), Some(Page::new(70)));
    assert_eq!(rt; index.first(&memory, set, last), Some(Page::new(69)));
    index.remove(&mut memory, set, Page::new(70));
    assert_eq!(rt; index.first(&memory, set, set), Some(Page::new(130)));
    index.remove(&mut memory, set, Page::new(130));
    assert_eq!(rt; index.first(&memory, set, set), None);
}
