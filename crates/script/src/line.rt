// A line of a script, its text and how it is read.
ghost use Rattle.script.specs.Reading.{FitsEvent, FitsLine, Reads, SomeBelow, line_words};
ghost use Rattle.script.specs.Texts.{line_text};
ghost use Rattle.script.specs.Words.{code, left, words};
ghost use Rattle.std.specs.Prelude.{◌≡◌, ◌∷◌, map, Some, codes, decimal, MatchResult};

use crate::event::read_event;
use crate::expected::Expected;
use crate::in_words::InWords;
use crate::opening::{Opening, read_opening};
use crate::spaced::Spaced;
use crate::words::Words;
use grounds::event::Event;
use std::alloc::Global;
use std::fmt;

#[derive(Debug, PartialEq, Eq, Drop)]
pub enum Line {
    // blanks, a comment or both
    Nothing,
    Open(Opening),
    Ask(Event),
    // somebody writes these bytes, from that place on
    Write(u64, Vec<u8>),
}

impl fmt::Display for Line {
    ghost output = { λ l. Some (line_text l) };

    fn fmt<W: fmt::Write>(&self, f: &mut fmt::Formatter<W>) -> fmt::Result {
        match self {
            Line::Nothing => Ok(()),
            Line::Open(opening) => write!(f, "{opening}"),
            Line::Ask(event) => {
                let event = InWords(*event);
                write!(f, "{event}")
            }
            Line::Write(place, bytes) => {
                let bytes = Spaced(bytes.as_slice());
                write!(f, "write {place}{bytes}")
            }
        }
    }
}

// One byte or more, up to the end of the line.
fn read_bytes(heap: Global, mut words: Words<'_>) -> Result<Vec<u8>, Expected>
    ensures { Reads (λ v. SomeBelow 256 v.items) (λ v. map decimal v.items) (left words.entry) result }
{
    let bytes = words.take_numbers(heap)?;
    match words.next_word() {
        None => Ok(bytes),
        Some(_) => Err(Expected::Byte),
    }
}

// What is written where, read from the words after `write`.
fn read_write(heap: Global, mut words: Words<'_>) -> Result<Line, Expected>
    ensures { Reads FitsLine line_words (codes "write" ∷ left words.entry) result }
{
    let place = words.take()?;
    let bytes = read_bytes(heap, words)?;
    Ok(Line::Write(place, bytes))
}

pub fn read_line(heap: Global, text: &str) -> Result<Line, Expected>
    ensures { Reads FitsLine line_words (words (code text.now)) result }
{
    let mut words = Words::of(text);
    match words.next_word() {
        None => Ok(Line::Nothing),
        Some("open") => Ok(Line::Open(read_opening(heap, words)?)),
        Some("write") => read_write(heap, words),
        Some(command) => Ok(Line::Ask(read_event(command, words)?)),
    }
}

// An event's text, read back. It is the event itself, where memory is not wanting.
pub fn read_back(heap: Global, event: Event) -> Result<Line, Expected>
    ensures { FitsEvent event → MatchResult result (λ l. l ≡ Line.Ask event) (λ e. e ≡ Expected.Memory) }
{
    let event = InWords(event);
    let text = format!(in heap; "{event}")?;
    read_line(heap, text.as_str())
}
