// How a ground is opened, as `open pages 1 classes 16 1024 rests 1 marks 66 99`.
ghost use Rattle.std.specs.Prelude.{◌^◌, Some};
ghost use Rattle.script.specs.Reading.{FitsOpening, Reads, SomeBelow, Takes, classes_words, opening_words};
ghost use Rattle.script.specs.Texts.{opening_text};
ghost use Rattle.script.specs.Words.{left};

use crate::expected::Expected;
use crate::keyword::Keyword;
use crate::spaced::Spaced;
use crate::words::Words;
use grounds::numbers::MARK_LEN;
use std::alloc::Global;
use std::fmt;

// It has the fields of the limits of a ground, which lend their classes, and owns its own: a type for both would be generic in how they are held.
#[derive(Debug, PartialEq, Eq, Drop)]
pub struct Opening {
    pub pages: u64,
    // how large the pieces of each class are
    pub classes: Vec<u64>,
    // how many pieces rest
    pub rests: u64,
    // the bytes that marks are made of
    pub marks: [u8; MARK_LEN],
}

impl fmt::Display for Opening {
    ghost output = { λ o. Some (opening_text o) };

    fn fmt<W: fmt::Write>(&self, f: &mut fmt::Formatter<W>) -> fmt::Result {
        let pages = self.pages;
        let classes = Spaced(self.classes.as_slice());
        let rests = self.rests;
        let marks = Spaced(&self.marks);
        write!(
            f,
            "open pages {pages} classes{classes} rests {rests} marks{marks}"
        )
    }
}

// One class or more, and the word that ends them.
fn take_classes(heap: Global, words: &mut Words<'_>) -> Result<Vec<u64>, Expected>
    ensures { Takes (λ v. SomeBelow (2 ^ 64) v.items) (λ v. classes_words v.items) (left words.old) (left words.new) result }
{
    let classes = words.take_numbers(heap)?;
    match words.next_word() {
        Some(word) if word == Keyword::Rests.text() => Ok(classes),
        _ => Err(Expected::Class),
    }
}

// An opening, read from the words after `open`.
pub fn read_opening(heap: Global, mut words: Words<'_>) -> Result<Opening, Expected>
    ensures { Reads FitsOpening opening_words (left words.entry) result }
{
    words.take_keyword(Keyword::Pages)?;
    let pages = words.take()?;
    words.take_keyword(Keyword::Classes)?;
    let classes = take_classes(heap, &mut words)?;
    let rests = words.take()?;
    words.take_keyword(Keyword::Marks)?;
    let first = words.take()?;
    let second = words.take()?;
    words.end()?;
    Ok(Opening {
        pages,
        classes,
        rests,
        marks: [first, second],
    })
}
