// An event, read from the words of its line.
ghost use Rattle.script.specs.Reading.{FitsEvent, Reads, event_words};
ghost use Rattle.script.specs.Words.{left};
ghost use Rattle.std.specs.Prelude.{◌∷◌};

use crate::expected::Expected;
use crate::words::Words;
use grounds::event::Event;

pub fn read_event(command: &str, words: Words<'_>) -> Result<Event, Expected>
    ensures { Reads FitsEvent event_words (command.now ∷ left words.entry) result }
{
    match command {
        "get" => Ok(Event::Get(words.last_number()?)),
        "give" => Ok(Event::Give(words.last_number()?)),
        "size" => Ok(Event::Size(words.last_number()?)),
        "look" => {
            words.end()?;
            Ok(Event::Look)
        }
        _ => Err(Expected::Command),
    }
}
