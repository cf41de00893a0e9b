// What is asked of the keeper.
ghost use Rattle.grounds.specs.Events.{event_kind, event_number, event_kind_number, GoesBy};
ghost use Rattle.std.specs.Prelude.{◌≡◌};

use crate::unknown_number::UnknownNumber;

#[derive(Clone, Copy, Debug, PartialEq, Eq)]
pub enum Event {
    // a piece of so many bytes
    Get(u64),
    // to give back the piece that begins there
    Give(u64),
    // how many bytes were asked for the piece that begins there
    Size(u64),
    // whether anything is harmed
    Look,
    // bytes that are no event, of which so many could still begin one
    Garbled(u64),
}

impl Event {
    pub fn kind(self) -> EventKind
        ensures value { result ≡ event_kind self }
        ensures number { event_kind_number result ≡ event_number self }
    {
        match self {
            Event::Get(_) => EventKind::Get,
            Event::Give(_) => EventKind::Give,
            Event::Size(_) => EventKind::Size,
            Event::Look => EventKind::Look,
            Event::Garbled(_) => EventKind::Garbled,
        }
    }

    pub fn number(self) -> u8
        ensures { result ≡ event_number self }
    {
        self.kind() as u8
    }
}

// The kind of an event, with the number that it goes by.
#[derive(Clone, Copy, Debug, PartialEq, Eq)]
pub enum EventKind {
    Get = 0,
    Give = 1,
    Size = 2,
    Look = 3,
    Garbled = 255,
}

impl TryFrom<u8> for EventKind {
    type Error = UnknownNumber;

    ghost try_from_gives = { GoesBy event_kind_number };

    fn try_from(number: u8) -> Result<Self, UnknownNumber> {
        match number {
            n if n == EventKind::Get as u8 => Ok(EventKind::Get),
            n if n == EventKind::Give as u8 => Ok(EventKind::Give),
            n if n == EventKind::Size as u8 => Ok(EventKind::Size),
            n if n == EventKind::Look as u8 => Ok(EventKind::Look),
            n if n == EventKind::Garbled as u8 => Ok(EventKind::Garbled),
            _ => Err(UnknownNumber),
        }
    }
}
