// Why a line cannot be read: what should have stood where something else stands, or nothing.
ghost use Rattle.script.specs.Texts.{expected_text};
ghost use Rattle.script.specs.declared.expected.Expected.TheVariants.{Memory};
ghost use Rattle.std.specs.Prelude.{◌≡◌, Some};

use crate::keyword::Keyword;
use std::alloc::{AllocError, AllocFailed};
use std::error::Error;
use std::fmt;

#[derive(Clone, Copy, Debug, PartialEq, Eq)]
pub enum Expected {
    // one of the words that begin a line
    Command,
    Number,
    Byte,
    // one more of an opening's classes, or the word that ends them
    Class,
    Word(Keyword),
    // nothing more on the line
    End,
    // memory to hold the line; the line itself may be fine
    Memory,
}

// Written out, since a derived `Display` does not state its text.
impl fmt::Display for Expected {
    ghost output = { λ e. Some (expected_text e) };

    fn fmt<W: fmt::Write>(&self, f: &mut fmt::Formatter<W>) -> fmt::Result {
        match *self {
            Expected::Command => write!(f, "expected open, get, give, size, look or write"),
            Expected::Number => write!(f, "expected a number in decimal with no leading zeros"),
            Expected::Byte => write!(
                f,
                "expected a byte, 0 to 255, in decimal with no leading zeros"
            ),
            Expected::Class => write!(
                f,
                "expected a class in decimal with no leading zeros, or the word rests"
            ),
            Expected::Word(keyword) => write!(f, "expected the word {keyword}"),
            Expected::End => write!(f, "expected the end of the line"),
            Expected::Memory => write!(f, "expected more memory than there is"),
        }
    }
}

impl Error for Expected {}

// Written out, since a derived conversion does not state which error it makes.
impl From<AllocError> for Expected {
    ghost from_gives = { λ _ r. r ≡ Memory };

    fn from(_error: AllocError) -> Expected {
        Self::Memory
    }
}

// Written out for the same reason.
impl<T: Drop> From<AllocFailed<T>> for Expected {
    ghost from_gives = { λ _ r. r ≡ Memory };

    fn from(refused: AllocFailed<T>) -> Expected {
        Expected::from(AllocError::from(refused))
    }
}
