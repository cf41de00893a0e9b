// Plays a script: reads its lines, asks what they ask, and prints each with its answer.
#![tactic(auto)]

ghost use Rattle.grounds.specs.declared.answer.Answer.TheVariants.{Refused};
ghost use Rattle.grounds.specs.declared.answer.Refusal.TheVariants.{OutOfRange};
ghost use Rattle.std.specs.Prelude.{◌≡◌};

use grounds::answer::{Answer, Refusal};
use script::complaint::Complaint;
use script::line::{Line, read_line};
use script::told::Told;
use std::{env, fs, io};

// Why the program stopped.
#[derive(Debug, Drop)]
enum Stopped {
    // a line that cannot be read
    Unreadable,
    // a file that cannot be read
    NoText,
    // nothing could be printed, or no argument be had
    Failed(io::Error),
}

// Written out, since a crate that derives it would be trusted besides.
impl From<io::Error> for Stopped {
    fn from(error: io::Error) -> Stopped {
        Stopped::Failed(error)
    }
}

// There is no keeper to ask yet: whatever is asked is turned away.
fn answer(_line: &Line) -> Answer
    ensures { result ≡ Refused OutOfRange 0 }
{
    Answer::Refused(Refusal::OutOfRange, 0)
}

// Prints a line with its answer, if it has one.
fn tell(rt: &HostRuntime, line: &Line) -> io::Result<()> {
    match line {
        Line::Nothing => Ok(()),
        Line::Write(_, _) => println!(rt; "{line}"),
        Line::Open(_) | Line::Ask(_) => {
            let told = Told {
                line,
                answer: answer(line),
            };
            println!(rt; "{told}")
        }
    }
}

fn play_line<'a>(
    rt: &HostRuntime,
    file: &'a str,
    number: u64,
    text: &'a str,
) -> Result<(), Stopped> {
    match read_line(rt.alloc(), text) {
        Ok(line) => Ok(tell(rt, &line)?),
        Err(expected) => {
            let complaint = Complaint {
                file,
                line: number,
                expected,
                text,
            };
            eprintln!(rt; "{complaint}")?;
            Err(Stopped::Unreadable)
        }
    }
}

fn play_lines(rt: &HostRuntime, file: &str, text: &str) -> Result<(), Stopped> {
    for (number, line) in (1u64..).zip(text.lines()) {
        play_line(rt, file, number, line)?;
    }
    Ok(())
}

// Plays what was read of a file, or says why nothing was.
fn play(rt: &HostRuntime, file: &str, text: io::Result<String>) -> Result<(), Stopped> {
    match text {
        Ok(text) => play_lines(rt, file, text.as_str()),
        Err(error) => {
            eprintln!(rt; "{file}: {error}")?;
            Err(Stopped::NoText)
        }
    }
}

fn main(rt: HostRuntime) -> Result<(), Stopped> {
    let mut arguments = env::args(&rt)?;
    let _program = arguments.next();
    match arguments.next() {
        Some(file) => play(&rt, file.as_str(), fs::read_to_string(&rt, file.as_str())),
        None => play(
            &rt,
            "standard input",
            io::read_to_string(rt.alloc(), rt.stdin()),
        ),
    }
}
