// What the keeper answers.
ghost use Rattle.grounds.specs.Events.{answer_kind, answer_number, answer_kind_number, refusal_number, GoesBy};
ghost use Rattle.std.specs.Prelude.{◌≡◌};

use crate::unknown_number::UnknownNumber;

// Why an event is turned away; the first that holds is told.
#[derive(Clone, Copy, Debug, PartialEq, Eq)]
pub enum Refusal {
    // bytes that are no event
    NoEvent = 1,
    // nothing, or more than the ground; or something that the keeper cannot do
    OutOfRange = 2,
    // nothing that is out begins there
    NotOut = 3,
    // there is no place where such a piece may be
    NoRoom = 4,
}

impl Refusal {
    pub fn number(self) -> u64
        ensures { result ≡ refusal_number self }
    {
        self as u64
    }
}

impl TryFrom<u64> for Refusal {
    type Error = UnknownNumber;

    ghost try_from_gives = { GoesBy refusal_number };

    fn try_from(number: u64) -> Result<Self, UnknownNumber> {
        match number {
            n if n == Refusal::NoEvent as u64 => Ok(Refusal::NoEvent),
            n if n == Refusal::OutOfRange as u64 => Ok(Refusal::OutOfRange),
            n if n == Refusal::NotOut as u64 => Ok(Refusal::NotOut),
            n if n == Refusal::NoRoom as u64 => Ok(Refusal::NoRoom),
            _ => Err(UnknownNumber),
        }
    }
}

#[derive(Clone, Copy, Debug, PartialEq, Eq)]
pub enum Answer {
    // turned away, and at which place
    Refused(Refusal, u64),
    Done,
    // where the piece begins
    Place(u64),
    // how many bytes were asked for
    Number(u64),
    // a mark that was changed, and where it is
    Overrun(u64),
    // where somebody wrote though nothing is out there
    Harmed(u64),
    // nothing is overrun or harmed
    Whole,
}

impl Answer {
    pub fn kind(self) -> AnswerKind
        ensures value { result ≡ answer_kind self }
        ensures number { answer_kind_number result ≡ answer_number self }
    {
        match self {
            Answer::Refused(_, _) => AnswerKind::Refused,
            Answer::Done => AnswerKind::Done,
            Answer::Place(_) => AnswerKind::Place,
            Answer::Number(_) => AnswerKind::Number,
            Answer::Overrun(_) => AnswerKind::Overrun,
            Answer::Harmed(_) => AnswerKind::Harmed,
            Answer::Whole => AnswerKind::Whole,
        }
    }

    pub fn number(self) -> u8
        ensures { result ≡ answer_number self }
    {
        self.kind() as u8
    }
}

// The kind of an answer, with the number that it goes by.
#[derive(Clone, Copy, Debug, PartialEq, Eq)]
pub enum AnswerKind {
    Refused = 0,
    Done = 1,
    Place = 2,
    Number = 3,
    Overrun = 4,
    Harmed = 5,
    Whole = 6,
}

impl TryFrom<u8> for AnswerKind {
    type Error = UnknownNumber;

    ghost try_from_gives = { GoesBy answer_kind_number };

    fn try_from(number: u8) -> Result<Self, UnknownNumber> {
        match number {
            n if n == AnswerKind::Refused as u8 => Ok(AnswerKind::Refused),
            n if n == AnswerKind::Done as u8 => Ok(AnswerKind::Done),
            n if n == AnswerKind::Place as u8 => Ok(AnswerKind::Place),
            n if n == AnswerKind::Number as u8 => Ok(AnswerKind::Number),
            n if n == AnswerKind::Overrun as u8 => Ok(AnswerKind::Overrun),
            n if n == AnswerKind::Harmed as u8 => Ok(AnswerKind::Harmed),
            n if n == AnswerKind::Whole as u8 => Ok(AnswerKind::Whole),
            _ => Err(UnknownNumber),
        }
    }
}
