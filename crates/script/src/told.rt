// A line and what was answered, as `get 1000 -> place 0`.
ghost use Rattle.script.specs.Texts.{told_text};
ghost use Rattle.std.specs.Prelude.{Some};

use crate::in_words::InWords;
use crate::line::Line;
use grounds::answer::Answer;
use std::fmt;

#[derive(Clone, Copy)]
pub struct Told<'a> {
    pub line: &'a Line,
    pub answer: Answer,
}

impl fmt::Display for Told<'_> {
    ghost output = { λ t. Some (told_text t) };

    fn fmt<W: fmt::Write>(&self, f: &mut fmt::Formatter<W>) -> fmt::Result {
        let line = self.line;
        let answer = InWords(self.answer);
        write!(f, "{line} -> {answer}")
    }
}
