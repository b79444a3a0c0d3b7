// Layer 9, tried_ordered: tries the ordered call at the edges that document 01 does not star, and prints what it says; what is printed is compared with the file stdout.
// An answer is a line of its ranks; `none` ends a list; a refusal is a line with its number and entry; a call's room is printed where it matters.
// The cases are the lines of the file stdin that have fields: the label; what is tried (`answers` all of them, `pairs` every tuple of two numbers up to 6,
// `call` one call); the signature, the twig, the tuple, and what the room holds before the call.
#![tactic(auto)]

use ordered::ordered_next;
use std::io;
use std::io::Write;
use trial_lines::{
    Case, Row, UnknownWord, front, numbers_into, room_left, told, tree_into, try_cases,
};

// What a line's first word has tried.
#[derive(Clone, Copy)]
enum Tried {
    Answers,
    Pairs,
    Call,
}

impl TryFrom<u16> for Tried {
    type Error = UnknownWord;

    // A word stands for its first letter; only where there is none is nothing tried.
    fn try_from(word: u16) -> Result<Self, UnknownWord> {
        match u8::try_from(word) {
            Ok(0) => Err(UnknownWord(word)),
            Ok(b'p') => Ok(Tried::Pairs),
            Ok(b'c') => Ok(Tried::Call),
            _ => Ok(Tried::Answers),
        }
    }
}

// The trees that a case asks about. tried_loose has its own, since methods stand in the crate of their type.
#[derive(Clone, Copy)]
struct Trees<'a> {
    sig: &'a [u16],
    twig: &'a [u16],
}

impl Trees<'_> {
    // Prints every answer from zeros on, each handed back; no tree tried here has 100.
    fn list_answers(self, out: &mut impl Write) -> io::Result<()> {
        let mut tuple = [0; 16];
        for _ in 0..100u16 {
            let mut room = [0; 16];
            let handed = front(&tuple, self.twig.len() / 4);
            match ordered_next(self.sig, self.twig, handed, &mut room) {
                Ok(0) => return out.write_all(b"none\n"),
                Ok(len) => writeln!(out, "{}", Row(front(&room, len)))?,
                Err(_) => return out.write_all(b"refused\n"),
            }
            tuple = room;
        }
        out.write_all(b"more\n")
    }

    // Prints what follows a tuple of two numbers.
    fn follow(self, out: &mut impl Write, tuple: [u16; 2]) -> io::Result<()> {
        write!(out, "{} :", Row(&tuple))?;
        let mut room = [0; 2];
        match ordered_next(self.sig, self.twig, &tuple, &mut room) {
            Ok(len) => writeln!(out, "{}", Row(front(&room, len))),
            Err(refusal) => writeln!(out, " {} refused", refusal.number),
        }
    }

    // The same of every two numbers up to 6.
    fn follow_all(self, out: &mut impl Write) -> io::Result<()> {
        for i in 0..49u16 {
            self.follow(out, [i / 7, i % 7])?;
        }
        Ok(())
    }

    // Prints what one call says, with the room that it leaves; a list too long for the room is not tried.
    fn call(self, out: &mut impl Write, case: Case) -> io::Result<()> {
        let mut tuple = [0; 16];
        let len = numbers_into(case.field(4), &mut tuple);
        let mut room = [0; 17];
        let width = numbers_into(case.field(5), &mut room);
        let Some(lent) = room.get_mut(..width) else {
            return Ok(());
        };
        told(
            out,
            ordered_next(self.sig, self.twig, front(&tuple, len), lent),
        )?;
        room_left(out, lent)
    }
}

// A line whose first word names nothing to try prints nothing.
fn try_case(out: &mut impl Write, case: Case) -> io::Result<()> {
    let [word] = case.numbers::<1>();
    let mut sig = [0; 16384];
    let mut twig = [0; 64];
    let trees = Trees {
        sig: tree_into(case.field(2), &mut sig),
        twig: tree_into(case.field(3), &mut twig),
    };
    let Ok(tried) = Tried::try_from(word) else {
        return Ok(());
    };
    out.write_all(case.label())?;
    match tried {
        Tried::Call => trees.call(out, case),
        Tried::Pairs => {
            out.write_all(b"\n")?;
            trees.follow_all(out)
        }
        Tried::Answers => {
            out.write_all(b"\n")?;
            trees.list_answers(out)
        }
    }
}

// A read or a write that fails ends the program with its error.
fn main(rt: HostRuntime) -> io::Result<()> {
    try_cases(&rt, |out, case| try_case(out, case))
}
