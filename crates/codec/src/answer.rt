// Answers, read from bytes and written as bytes.
ghost use Rattle.std.specs.Prelude.{◌≡◌, ◌∷◌};
ghost use Rattle.grounds.specs.Events.{answer_kind_number};
ghost use Rattle.codec.specs.Bytes.{answer_bytes};
ghost use Rattle.codec.specs.Codec.{answer_of, ReadsAnswer, Writes};

use crate::number::{NUMBER_LEN, read_number, write_numbers};
use grounds::answer::{Answer, AnswerKind, Refusal};

// The answer that has these bytes, if there is one.
pub fn read_answer(bytes: &[u8]) -> Option<Answer>
    ensures value { result ≡ answer_of bytes.now }
    ensures reads { ReadsAnswer bytes.now result }
{
    let (&tag, rest) = bytes.split_first()?;
    tagged(tag, rest)
}

// The answer that begins with `tag`, the number that it goes by.
fn tagged(tag: u8, rest: &[u8]) -> Option<Answer>
    ensures { result ≡ answer_of (tag ∷ rest.now) }
{
    match AnswerKind::try_from(tag).ok()? {
        AnswerKind::Refused => read_refused(rest),
        AnswerKind::Done => rest.is_empty().then_some(Answer::Done),
        AnswerKind::Place => read_number(rest).map(Answer::Place),
        AnswerKind::Number => read_number(rest).map(Answer::Number),
        AnswerKind::Overrun => read_number(rest).map(Answer::Overrun),
        AnswerKind::Harmed => read_number(rest).map(Answer::Harmed),
        AnswerKind::Whole => rest.is_empty().then_some(Answer::Whole),
    }
}

// The answer that an event is turned away, if these bytes hold a refusal's number and a place.
fn read_refused(bytes: &[u8]) -> Option<Answer>
    ensures { result ≡ answer_of (answer_kind_number AnswerKind.Refused ∷ bytes.now) }
{
    let (number, place) = bytes.split_at_checked(NUMBER_LEN)?;
    let refusal = Refusal::try_from(read_number(number)?).ok()?;
    Some(Answer::Refused(refusal, read_number(place)?))
}

// Writes the answer at the start of `out`, and tells how many bytes it has. Where `out` is too short it writes nothing.
pub fn write_answer(answer: Answer, out: &mut [u8]) -> Option<usize>
    ensures { Writes (answer_bytes answer) out.old out.new result }
{
    let tag = answer.number();
    match answer {
        Answer::Refused(refusal, at) => write_numbers(tag, &[refusal.number(), at], out),
        Answer::Done | Answer::Whole => write_numbers(tag, &[], out),
        Answer::Place(n) | Answer::Number(n) | Answer::Overrun(n) | Answer::Harmed(n) =>
            write_numbers(tag, &[n], out),
    }
}
