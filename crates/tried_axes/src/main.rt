// Layer 9, tried_axes: tries the axis, level and block calls at the edges that document 01 does not star, and prints what they say; what is printed is compared with the file stdout.
// Ten and Five: a line for each axis, name and position has what each entry's own call answers, with a stroke after each. The other lines say their case.
// The cases are the lines of the file stdin that have fields: the label; what is tried and its two numbers; the signature, the contexts, and what the room
// holds before the call. Tried are: `call`, one call with this axis and position; `all`, every axis from every entry below the first number, with as many
// pairs of a name and a position from 0 to 6 as the second says; `levels`, level and block of the ranks from the first number up to the second; `ends`, the
// ends of what every axis answers, with the second number as position; `heading`, only the label.
#![tactic(auto)]

mod told_entries;

use axes::axis;
use std::io;
use std::io::Write;
use told_entries::entries_told;
use trial_lines::{
    Case, Row, UnknownWord, front, numbers_into, room_left, told, told_by, tree_into, try_cases,
};

// What a line's first word has tried.
#[derive(Clone, Copy)]
enum Tried {
    All,
    Call,
    Ends,
    Levels,
    Heading,
}

impl TryFrom<u16> for Tried {
    type Error = UnknownWord;

    // A word stands for its first letter; only where there is none is nothing tried.
    fn try_from(word: u16) -> Result<Self, UnknownWord> {
        match u8::try_from(word) {
            Ok(0) => Err(UnknownWord(word)),
            Ok(b'a') => Ok(Tried::All),
            Ok(b'c') => Ok(Tried::Call),
            Ok(b'e') => Ok(Tried::Ends),
            Ok(b'l') => Ok(Tried::Levels),
            _ => Ok(Tried::Heading),
        }
    }
}

// What is asked of each context: an axis, a name and a position.
#[derive(Clone, Copy)]
struct Step {
    axis: u16,
    name: u16,
    position: u16,
}

impl Step {
    // What one entry answers.
    fn from_one<W: Write>(self, out: &mut W, sig: &[u16], context: u16) -> io::Result<()> {
        let mut room = [0; 10];
        let answer = axis(
            sig,
            &[context],
            self.axis,
            self.name,
            self.position,
            &mut room,
        );
        told_by(out, answer, |out, len| {
            write!(out, "{}", Row(front(&room, len)))
        })?;
        out.write_all(b" /")
    }

    // A line: what each of the entries below an end answers.
    fn from_each(self, out: &mut impl Write, sig: &[u16], end: u16) -> io::Result<()> {
        write!(out, " {} {} {} :", self.axis, self.name, self.position)?;
        for context in 1..end {
            self.from_one(out, sig, context)?;
        }
        out.write_all(b"\n")
    }
}

// An axis with so many pairs of a name and a position.
fn each_pair(out: &mut impl Write, sig: &[u16], end: u16, axis: u16, pairs: u16) -> io::Result<()> {
    for k in 0..pairs {
        let step = Step {
            axis,
            name: k / 7,
            position: k % 7,
        };
        step.from_each(out, sig, end)?;
    }
    Ok(())
}

fn each_axis(out: &mut impl Write, sig: &[u16], end: u16, pairs: u16) -> io::Result<()> {
    for axis in 0..11u16 {
        each_pair(out, sig, end, axis, pairs)?;
    }
    Ok(())
}

// The length of a list, its first number and its last.
fn list_ends(out: &mut impl Write, list: &[u16]) -> io::Result<()> {
    write!(out, " {}", list.len())?;
    match (list.first(), list.last()) {
        (Some(first), Some(last)) => write!(out, " {first} {last}"),
        _ => Ok(()),
    }
}

// The ends of an answer in a large tree.
fn ends<W: Write>(
    out: &mut W,
    sig: &[u16],
    contexts: &[u16],
    number: u16,
    position: u16,
) -> io::Result<()> {
    let mut room = [0; 4096];
    let answer = axis(sig, contexts, number, 0, position, &mut room);
    write!(out, " {number}")?;
    told_by(out, answer, |out, len| list_ends(out, front(&room, len)))?;
    out.write_all(b" /")
}

fn each_axis_ends(
    out: &mut impl Write,
    sig: &[u16],
    contexts: &[u16],
    position: u16,
) -> io::Result<()> {
    for number in 0..11u16 {
        ends(out, sig, contexts, number, position)?;
    }
    out.write_all(b"\n")
}

// What one call says, with the room that it leaves; a list too long for the room is not tried.
fn one_call(
    out: &mut impl Write,
    list: &[u8],
    sig: &[u16],
    contexts: &[u16],
    number: u16,
    position: u16,
) -> io::Result<()> {
    let mut room = [0; 11];
    let width = numbers_into(list, &mut room);
    let Some(lent) = room.get_mut(..width) else {
        return Ok(());
    };
    told(out, axis(sig, contexts, number, 0, position, lent))?;
    room_left(out, lent)
}

// A line whose first word names nothing to try prints nothing.
fn try_case(out: &mut impl Write, case: Case) -> io::Result<()> {
    let [word, a, b] = case.numbers::<3>();
    let mut sig = [0; 16388];
    let sig = tree_into(case.field(2), &mut sig);
    let mut contexts = [0; 4096];
    let contexts = tree_into(case.field(3), &mut contexts);
    let Ok(tried) = Tried::try_from(word) else {
        return Ok(());
    };
    out.write_all(case.label())?;
    match tried {
        Tried::Call => one_call(out, case.field(4), sig, contexts, a, b),
        Tried::All => each_axis(out, sig, a, b),
        Tried::Levels => entries_told(out, sig, a, b),
        Tried::Ends => each_axis_ends(out, sig, contexts, b),
        Tried::Heading => out.write_all(b"\n"),
    }
}

// A read or a write that fails ends the program with its error.
fn main(rt: HostRuntime) -> io::Result<()> {
    try_cases(&rt, |out, case| try_case(out, case))
}
