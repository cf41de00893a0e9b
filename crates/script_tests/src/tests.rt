// Each kind of line, and each reason to refuse one.
use grounds::answer::{Answer, Refusal};
use grounds::event::Event;
use script::complaint::Complaint;
use script::expected::Expected;
use script::in_words::InWords;
use script::keyword::Keyword;
use script::line::{Line, read_back, read_line};
use script::words::Words;
use std::alloc::Global;
use std::process::Abort;
use std::test::Fail;

// A line is read and printed as another text.
fn prints(rt: &impl Abort, heap: Global, text: &str, wanted: &str) -> Result<(), Fail> {
    let line = read_line(heap, text).expect(rt, text);
    let printed = format!(in heap; "{line}")?;
    assert!(rt; printed.as_str() == wanted, "{text}");
    Ok(())
}

#[test]
fn reads(rt: HostRuntime) -> Result<(), Fail> {
    let table = [
        ("", ""),
        (" \t ", ""),
        ("# get 1", ""),
        ("get 1000", "get 1000"),
        ("\tgive  0 # back", "give 0"),
        ("size 18446744073709551615", "size 18446744073709551615"),
        ("look#", "look"),
        ("write 2050 7 8 255", "write 2050 7 8 255"),
        (
            "open pages 1 classes 16 1024 rests 1 marks 66 99",
            "open pages 1 classes 16 1024 rests 1 marks 66 99",
        ),
    ];
    for (text, wanted) in table {
        prints(&rt, rt.alloc(), text, wanted)?;
    }
    Ok(())
}

// A line is refused, and something else is expected.
fn refuses(rt: &impl Abort, heap: Global, text: &str, wanted: Expected) {
    assert_eq!(rt; read_line(heap, text), Err(wanted), "{text}");
}

#[test]
fn refuses_others(rt: HostRuntime) {
    let table = [
        ("take 1", Expected::Command),
        ("garbled 1", Expected::Command),
        ("get", Expected::Number),
        ("get 01", Expected::Number),
        ("get +1", Expected::Number),
        ("get 18446744073709551616", Expected::Number),
        ("get 1 2", Expected::End),
        ("look 0", Expected::End),
        ("write 0", Expected::Byte),
        ("write 0 256", Expected::Byte),
        ("open page 1", Expected::Word(Keyword::Pages)),
        ("open pages 1 classes rests 1 marks 66 99", Expected::Number),
        ("open pages 1 classes 16 marks 66 99", Expected::Class),
        ("open pages 1 classes 16 rests 1 marks 66", Expected::Byte),
        (
            "open pages 1 classes 16 rests 1 marks 66 99 1",
            Expected::End,
        ),
    ];
    for (text, wanted) in table {
        refuses(&rt, rt.alloc(), text, wanted);
    }
}

#[test]
fn comes_back(rt: HostRuntime) -> Result<(), Fail> {
    let line = read_back(rt.alloc(), Event::Give(1024))?;
    assert_eq!(rt; line, Line::Ask(Event::Give(1024)));
    Ok(())
}

#[test]
fn complains(rt: HostRuntime) -> Result<(), Fail> {
    let complaint = Complaint {
        file: "a.txt",
        line: 3,
        expected: Expected::Word(Keyword::Marks),
        text: "open",
    };
    let answer = InWords(Answer::Refused(Refusal::NoRoom, 0));
    let text = format!(in rt.alloc(); "{complaint}; {answer}")?;
    assert!(rt; text.as_str() == "a.txt:3: expected the word marks, in: open; refused 4 0");
    Ok(())
}

// The words of a line are a value that is copied: each copy takes words of its own. A word that is no number is taken, too.
#[test]
fn words_are_copied(rt: HostRuntime) {
    let words = Words::of("x 5 6");
    let mut ahead = words;
    assert_eq!(rt; ahead.take::<u64>(), Err(Expected::Number));
    assert_eq!(rt; ahead.take::<u64>(), Ok(5));
    assert_eq!(rt; ahead.last_number(), Ok(6));
    assert_eq!(rt; ahead.end(), Err(Expected::End));
    assert_eq!(rt; words.peek(), Some("x"));
    assert_eq!(rt; words.end(), Err(Expected::End));
}
