// Events and their answers in words, as `get 1000` and `place 0`.
ghost use Rattle.script.specs.Texts.{answer_text, event_text};
ghost use Rattle.std.specs.Prelude.{Some};

use grounds::answer::Answer;
use grounds::event::Event;
use std::fmt;

// A value of another crate that is printed in the script's words.
#[derive(Clone, Copy)]
pub struct InWords<T>(pub T);

impl fmt::Display for InWords<Event> {
    ghost output = { λ x. Some (event_text x.0) };

    fn fmt<W: fmt::Write>(&self, f: &mut fmt::Formatter<W>) -> fmt::Result {
        match self.0 {
            Event::Get(size) => write!(f, "get {size}"),
            Event::Give(place) => write!(f, "give {place}"),
            Event::Size(place) => write!(f, "size {place}"),
            Event::Look => write!(f, "look"),
            Event::Garbled(count) => write!(f, "garbled {count}"),
        }
    }
}

impl fmt::Display for InWords<Answer> {
    ghost output = { λ x. Some (answer_text x.0) };

    fn fmt<W: fmt::Write>(&self, f: &mut fmt::Formatter<W>) -> fmt::Result {
        match self.0 {
            Answer::Refused(refusal, place) => {
                let number = refusal.number();
                write!(f, "refused {number} {place}")
            }
            Answer::Done => write!(f, "done"),
            Answer::Place(place) => write!(f, "place {place}"),
            Answer::Number(size) => write!(f, "number {size}"),
            Answer::Overrun(place) => write!(f, "overrun {place}"),
            Answer::Harmed(place) => write!(f, "harmed {place}"),
            Answer::Whole => write!(f, "whole"),
        }
    }
}
