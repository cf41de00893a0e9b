// Events, read from bytes and written as bytes.
ghost use Rattle.std.specs.Prelude.{◌≡◌, ◌∷◌};
ghost use Rattle.codec.specs.Codec.{event_of, Reads, WritesEvent};

use crate::number::{NUMBER_LEN, read_number, write_numbers};
use grounds::event::{Event, EventKind};

// Reading never fails: bytes that are no event are `Garbled`, with how many of them could still begin one.
pub fn read_event(bytes: &[u8]) -> Event
    ensures value { result ≡ event_of bytes.now }
    ensures reads { Reads bytes.now result }
{
    match bytes.split_first() {
        Some((&tag, rest)) => tagged(tag, rest),
        None => Event::Garbled(0),
    }
}

// The event that begins with `tag`, the number that it goes by.
fn tagged(tag: u8, rest: &[u8]) -> Event
    ensures { result ≡ event_of (tag ∷ rest.now) }
{
    let Ok(kind) = EventKind::try_from(tag) else {
        return Event::Garbled(0);
    };
    // What is read where an event with a number was begun and the rest is no number.
    let cut = Event::Garbled(1 + rest.len().min(NUMBER_LEN) as u64);
    match kind {
        EventKind::Get => read_number(rest).map_or(cut, Event::Get),
        EventKind::Give => read_number(rest).map_or(cut, Event::Give),
        EventKind::Size => read_number(rest).map_or(cut, Event::Size),
        EventKind::Look if rest.is_empty() => Event::Look,
        EventKind::Look => Event::Garbled(1),
        EventKind::Garbled => Event::Garbled(0),
    }
}

// Writes the event at the start of `out`, and tells how many bytes it has. Where `out` is too short, and for what is no event, it writes nothing.
pub fn write_event(event: Event, out: &mut [u8]) -> Option<usize>
    ensures { WritesEvent event out.old out.new result }
{
    let tag = event.number();
    match event {
        Event::Get(n) | Event::Give(n) | Event::Size(n) => write_numbers(tag, &[n], out),
        Event::Look => write_numbers(tag, &[], out),
        Event::Garbled(_) => None,
    }
}
