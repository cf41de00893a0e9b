// The words that stand between the numbers of an opening.
ghost use Rattle.script.specs.Texts.{keyword_text};
ghost use Rattle.std.specs.Prelude.{◌≡◌, Some};

use std::fmt;

#[derive(Clone, Copy, Debug, PartialEq, Eq)]
pub enum Keyword {
    Pages,
    Classes,
    Rests,
    Marks,
}

impl Keyword {
    // Not only printed: what is read is compared with it.
    pub fn text(self) -> &'static str
        ensures { result.now ≡ keyword_text self }
    {
        match self {
            Keyword::Pages => "pages",
            Keyword::Classes => "classes",
            Keyword::Rests => "rests",
            Keyword::Marks => "marks",
        }
    }
}

impl fmt::Display for Keyword {
    ghost output = { λ k. Some (keyword_text k) };

    fn fmt<W: fmt::Write>(&self, f: &mut fmt::Formatter<W>) -> fmt::Result {
        f.write_str(self.text())
    }
}
