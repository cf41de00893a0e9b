// What is said of a line that cannot be read, as `one-page.txt:3: expected the end of the line, in: look here`.
ghost use Rattle.script.specs.Texts.{complaint_text};
ghost use Rattle.std.specs.Prelude.{Some};

use crate::expected::Expected;
use std::fmt;

#[derive(Clone, Copy)]
pub struct Complaint<'a> {
    pub file: &'a str,
    // the line's number, from 1 on
    pub line: u64,
    pub expected: Expected,
    // the line itself
    pub text: &'a str,
}

impl fmt::Display for Complaint<'_> {
    ghost output = { λ c. Some (complaint_text c) };

    fn fmt<W: fmt::Write>(&self, f: &mut fmt::Formatter<W>) -> fmt::Result {
        let Complaint {
            file,
            line,
            expected,
            text,
        } = *self;
        write!(f, "{file}:{line}: {expected}, in: {text}")
    }
}
