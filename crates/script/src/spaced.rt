// Values in a row, each after a blank, as ` 16 1024`.
ghost use Rattle.script.specs.Texts.{row};

use std::fmt;

#[derive(Clone, Copy)]
pub struct Spaced<'a, T>(pub &'a [T]);

impl<T: fmt::Display> fmt::Display for Spaced<'_, T> {
    ghost output = { λ x. row T.Display.output x.0.now };

    fn fmt<W: fmt::Write>(&self, f: &mut fmt::Formatter<W>) -> fmt::Result {
        for value in self.0 {
            write!(f, " {value}")?;
        }
        Ok(())
    }
}
