// One page, and what each word of its memory is then; lengths and limits with which there is no opening, and that nothing is written.
use grounds::answer::{Answer, Refusal};
use grounds::numbers::{MOST_PAGES, MOST_RESTS};
use limits::limits::Limits;
use opening::open::open;
use std::process::Abort;

// For one page, and one piece that rests.
const WORDS: usize = 1298;

const BYTES: usize = 4096;

const GOOD: Limits<'static> = Limits {
    pages: 1,
    classes: &[16, 1024],
    rests: 1,
    marks: [66, 99],
};

// Each of these words is that number.
fn holds(rt: &impl Abort, memory: &[u64], words: &[(usize, u64)], what: &str) {
    for (at, value) in words {
        assert!(rt; memory.get(*at) == Some(value), "{what}");
    }
}

#[test]
fn opens(rt: HostRuntime) {
    let mut memory = [7; WORDS];
    let ground = [9; BYTES];
    let answer = open(&mut memory, &ground, &GOOD);
    assert!(rt; answer == Answer::Done, "it is refused");
    holds(
        &rt,
        &memory,
        &[
            (0, 1),
            (1, 1),
            (2, 2),
            (3, 0),
            (4, 0),
            (5, 66),
            (6, 99),
            (7, 0),
        ],
        "limits",
    );
    holds(&rt, &memory, &[(13, 16), (14, 1024), (15, 0)], "classes");
    holds(
        &rt,
        &memory,
        &[(45, 0), (48, 0), (49, 18446744073709551614), (53, 0)],
        "templates",
    );
    holds(
        &rt,
        &memory,
        &[(173, 0), (174, 0), (175, 1), (237, 1), (238, 2), (429, 2)],
        "look-up",
    );
    holds(
        &rt,
        &memory,
        &[(430, 0), (942, 1), (943, 0), (991, 0), (1261, 0)],
        "high level and page",
    );
    holds(
        &rt,
        &memory,
        &[(1262, 0), (1264, 0), (1296, 1), (1297, 0)],
        "queue and low level",
    );
}

// An opening is refused, and nothing is written.
fn refuses(rt: &impl Abort, memory: &mut [u64], ground: &[u8], limits: &Limits<'_>, what: &str) {
    let answer = open(memory, ground, limits);
    assert!(rt;
        answer == Answer::Refused(Refusal::OutOfRange, 0),
        "{what}: it is taken"
    );
    for word in memory {
        assert!(rt; *word == 7, "{what}");
    }
}

#[test]
fn other_lengths(rt: HostRuntime) {
    let mut memory = [7; WORDS];
    refuses(&rt, &mut memory, &[9; BYTES + 1], &GOOD, "more ground");
    refuses(&rt, &mut memory, &[9; BYTES - 1], &GOOD, "less ground");
    let mut more = [7; WORDS + 1];
    refuses(&rt, &mut more, &[9; BYTES], &GOOD, "more memory");
    let mut less = [7; WORDS - 1];
    refuses(&rt, &mut less, &[9; BYTES], &GOOD, "less memory");
}

#[test]
fn bad_limits(rt: HostRuntime) {
    let mut memory = [7; WORDS];
    let ground = [9; BYTES];
    refuses(
        &rt,
        &mut memory,
        &ground,
        &Limits { pages: 0, ..GOOD },
        "no pages",
    );
    refuses(
        &rt,
        &mut memory,
        &ground,
        &Limits {
            pages: MOST_PAGES + 1,
            ..GOOD
        },
        "pages",
    );
    refuses(
        &rt,
        &mut memory,
        &ground,
        &Limits {
            rests: MOST_RESTS + 1,
            ..GOOD
        },
        "rests",
    );
    refuses(
        &rt,
        &mut memory,
        &ground,
        &Limits {
            marks: [0, 99],
            ..GOOD
        },
        "first of the mark",
    );
    refuses(
        &rt,
        &mut memory,
        &ground,
        &Limits {
            marks: [66, 0],
            ..GOOD
        },
        "second of the mark",
    );
    refuses(
        &rt,
        &mut memory,
        &ground,
        &Limits {
            classes: &[],
            ..GOOD
        },
        "no classes",
    );
    refuses(
        &rt,
        &mut memory,
        &ground,
        &Limits {
            classes: &[16, 24],
            ..GOOD
        },
        "no whole grains",
    );
    refuses(
        &rt,
        &mut memory,
        &ground,
        &Limits {
            classes: &[32, 16],
            ..GOOD
        },
        "falling",
    );
}
