// Printing: what calls and turns answer, in words and numbers.
use std::io::Write;
use std::{fmt, io};
use terms::{Refusal, Stop};

// Numbers of one type, each after a blank.
#[derive(Clone, Copy)]
pub struct Row<'a, T>(pub &'a [T]);

impl<T: fmt::Display> fmt::Display for Row<'_, T> {
    fn fmt<W: fmt::Write>(&self, f: &mut fmt::Formatter<W>) -> fmt::Result {
        for x in self.0 {
            write!(f, " {x}")?;
        }
        Ok(())
    }
}

// What a call answers: what `shows` prints of it, or the refusal's number and entry.
pub fn told_by<W: Write, T, F: FnOnce(&mut W, T) -> io::Result<()>>(
    out: &mut W,
    answer: Result<T, Refusal>,
    shows: F,
) -> io::Result<()>
    requires { F.IsAlwaysCallable shows }
{
    match answer {
        Ok(value) => shows(out, value),
        Err(refusal) => write!(out, " refused {} {}", refusal.number, refusal.entry.0),
    }
}

// What a call that writes into a room answers.
pub fn told<W: Write>(out: &mut W, answer: Result<usize, Refusal>) -> io::Result<()> {
    told_by(out, answer, |out, len| write!(out, " length {len}"))
}

// What stopped a turn: 0 an answer, 1 the end, 2 the budget, 3 a refusal, with its number and entry, or 0 and 0.
pub fn stopped(out: &mut impl Write, stop: Stop) -> io::Result<()> {
    match stop {
        Stop::Answer => write!(out, " 0 0 0"),
        Stop::End => write!(out, " 1 0 0"),
        Stop::Budget => write!(out, " 2 0 0"),
        Stop::Refused(refusal) => write!(out, " 3 {} {}", refusal.number, refusal.entry.0),
    }
}

// What turns came to: what stopped the last of them, their steps, and the numbers of the state handed back.
pub fn came_to(out: &mut impl Write, stop: Stop, steps: u64, state: &[u16]) -> io::Result<()> {
    stopped(out, stop)?;
    write!(out, " {steps}{}", Row(state))
}

// What a call leaves in the room, to the line's end.
pub fn room_left(out: &mut impl Write, room: &[u16]) -> io::Result<()> {
    writeln!(out, " room{}", Row(room))
}
