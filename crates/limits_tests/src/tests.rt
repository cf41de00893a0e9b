// The largest limits and the smallest, each limit that is one too far, and bytes that hold limits or do not.
use grounds::numbers::{
    FIXED_WORDS, GRAIN, MOST_CLASSES, MOST_PAGES, MOST_RESTS, PAGE, PAGE_WORDS, REST_WORDS,
};
use limits::bytes::{NotLimits, limits_from, read_numbers};
use limits::limits::Limits;
use limits::lookup::{class_number, row_of};
use std::process::Abort;

const CLASSES: [u64; 3] = [GRAIN, 1024, PAGE];

// One class more than there may be.
const ONE_TOO_MANY: [u64; MOST_CLASSES + 1] = [
    16, 128, 256, 384, 512, 640, 768, 896, 1024, 1152, 1280, 1408, 1536, 1664, 1792, 1920, 2048,
    2176, 2304, 2432, 2560, 2688, 2816, 2944, 3072, 3200, 3328, 3456, 3584, 3712, 3840, 3968, PAGE,
];

// Such limits as are good, to change one of.
fn usual(classes: &[u64]) -> Limits<'_> {
    Limits {
        pages: 1,
        classes,
        rests: 1,
        marks: [66, 99],
    }
}

fn is_refused(rt: &impl Abort, limits: Limits<'_>, what: &str) {
    assert!(rt; limits.good().is_none(), "{what}");
    assert!(rt; !limits.are_good(), "{what}");
    assert!(rt; limits.memory_words().is_none(), "{what}");
    assert!(rt; limits.ground_bytes().is_none(), "{what}");
}

fn why_not(numbers: &[u64]) -> Option<NotLimits> {
    Limits::try_from(numbers).err()
}

#[test]
fn largest(rt: HostRuntime) {
    let limits = Limits {
        pages: MOST_PAGES,
        classes: &ONE_TOO_MANY[1..],
        rests: MOST_RESTS,
        marks: [255, 255],
    };
    assert!(rt; limits.are_good());
    let words = PAGE_WORDS * MOST_PAGES + REST_WORDS * MOST_RESTS + FIXED_WORDS;
    assert_eq!(rt; limits.memory_words(), Some(words));
    assert_eq!(rt; limits.ground_bytes(), Some(MOST_PAGES * PAGE));
}

#[test]
fn smallest(rt: HostRuntime) {
    let limits = Limits {
        pages: 1,
        classes: &[GRAIN],
        rests: 0,
        marks: [1, 1],
    };
    assert!(rt; limits.are_good());
    assert_eq!(rt; limits.memory_words(), Some(PAGE_WORDS + FIXED_WORDS));
    assert_eq!(rt; limits.ground_bytes(), Some(PAGE));
}

#[test]
fn one_too_far(rt: HostRuntime) {
    let good = usual(&CLASSES);
    assert!(rt; good.are_good());
    is_refused(&rt, Limits { pages: 0, ..good }, "no pages");
    is_refused(
        &rt,
        Limits {
            pages: MOST_PAGES + 1,
            ..good
        },
        "pages",
    );
    is_refused(
        &rt,
        Limits {
            rests: MOST_RESTS + 1,
            ..good
        },
        "rests",
    );
    is_refused(
        &rt,
        Limits {
            marks: [0, 99],
            ..good
        },
        "first of the mark",
    );
    is_refused(
        &rt,
        Limits {
            marks: [66, 0],
            ..good
        },
        "second of the mark",
    );
}

#[test]
fn bad_classes(rt: HostRuntime) {
    is_refused(&rt, usual(&[]), "none");
    is_refused(&rt, usual(&[0, 16]), "nothing");
    is_refused(&rt, usual(&[16, 40]), "no whole grains");
    is_refused(&rt, usual(&[16, 16]), "one twice");
    is_refused(&rt, usual(&[32, 16]), "falling");
    is_refused(&rt, usual(&[16, PAGE + GRAIN]), "more than a page");
    is_refused(&rt, usual(&ONE_TOO_MANY), "too many");
}

#[test]
fn from_bytes(rt: HostRuntime) {
    let bytes = [
        2, 0, 0, 0, 0, 0, 0, 0, 3, 0, 0, 0, 0, 0, 0, 0, 66, 0, 0, 0, 0, 0, 0, 0, 99, 0, 0, 0, 0, 0,
        0, 0, 0, 4, 0, 0, 0, 0, 0, 0,
    ];
    let mut numbers = [7; 6];
    assert_eq!(rt; read_numbers(&bytes, &mut numbers), Some(5));
    assert_eq!(rt; numbers, [2, 3, 66, 99, 1024, 7]);
    let limits = Limits {
        pages: 2,
        classes: &[1024],
        rests: 3,
        marks: [66, 99],
    };
    assert_eq!(rt; limits_from(&numbers[..5]), Some(limits));
    assert!(rt; limits.are_good());
}

#[test]
fn not_from_bytes(rt: HostRuntime) {
    let mut numbers = [7; 1];
    assert!(rt;
        read_numbers(&[1; 9], &mut numbers).is_none(),
        "a part of a number"
    );
    assert!(rt; read_numbers(&[1; 16], &mut numbers).is_none(), "no room");
    assert_eq!(rt; numbers, [7]);
    assert!(rt; limits_from(&[1, 1, 66]).is_none(), "too few");
    assert_eq!(rt; why_not(&[1, 1, 66]), Some(NotLimits::TooFew), "too few");
    assert!(rt;
        limits_from(&[1, 1, 256, 99, 16]).is_none(),
        "first of the mark"
    );
    assert!(rt;
        limits_from(&[1, 1, 66, 256, 16]).is_none(),
        "second of the mark"
    );
    assert_eq!(rt;
        why_not(&[1, 1, 66, 256, 16]),
        Some(NotLimits::NoByte),
        "second of the mark"
    );
}

#[test]
fn least_class(rt: HostRuntime) {
    let table = [
        (1, 0),
        (14, 0),
        (15, 1),
        (1022, 1),
        (1023, 2),
        (4094, 2),
        (4095, 3),
    ];
    for (size, wanted) in table {
        assert_eq!(rt; class_number(&CLASSES, GRAIN * row_of(size)), wanted);
    }
}
