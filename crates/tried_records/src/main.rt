// Layer 9, tried_records: tries the calls on signature records and tag lists at their edges, and prints what they say; what is printed is compared with the file stdout.
// A line has the case, `length` and the result's length or `refused` with the number and the entry, and then what the room holds.
// The cases are the lines of the file stdin that have fields: the label; what is tried; and the bytes that are read or the signature that is written. What is tried
// has seven parts: `read` or `write`; `records`, the tag list of a tree of kind `data` or `twig`, or `one` tree from a place on; the length of the room; the
// place; where the printing of the room begins (0 all of it is printed, 65,535 nothing); and, for bytes too many to be written down, what they are, `list` of tags
// or `records`, and of how many elements.
#![tactic(auto)]

mod lists;

use lists::{Made, bytes_of};
use record_writing::write_records;
use records::read_records;
use std::alloc::Global;
use std::io;
use std::io::Write;
use tag_lists::{read_tree, tags_to_signature};
use tag_writing::signature_to_tags;
use terms::Kind;
use trial_lines::{
    Case, Row, UnknownWord, kind_of, room_left, told, told_by, tree_into, try_cases,
};

// What a line's first word has tried.
#[derive(Clone, Copy)]
enum Tried {
    Read,
    Write,
}

impl TryFrom<u16> for Tried {
    type Error = UnknownWord;

    // A word stands for its first letter; only where there is none is nothing tried.
    fn try_from(word: u16) -> Result<Self, UnknownWord> {
        match u8::try_from(word) {
            Ok(0) => Err(UnknownWord(word)),
            Ok(b'r') => Ok(Tried::Read),
            _ => Ok(Tried::Write),
        }
    }
}

// What is read or written.
#[derive(Clone, Copy)]
enum Form {
    Records,
    // One tree of a tag list.
    One,
    Tags(Kind),
}

impl From<u16> for Form {
    // By a word's first letter.
    fn from(word: u16) -> Form {
        match u8::try_from(word) {
            Ok(b'r') => Form::Records,
            Ok(b'o') => Form::One,
            _ => Form::Tags(kind_of(word)),
        }
    }
}

// How the records or tags are read or written: their form, the place to read from, and where the printing of the room begins.
#[derive(Clone, Copy)]
struct Way {
    form: Form,
    place: u16,
    from: u16,
}

impl Way {
    // The place in the bytes: 65,535 stands for one that no list reaches.
    fn place(self) -> usize {
        if self.place == u16::MAX {
            usize::MAX / 2
        } else {
            usize::from(self.place)
        }
    }

    // Prints what the room holds to the line's end: all of it, nothing, or what stands from a place on.
    fn left(self, out: &mut impl Write, room: &[u16]) -> io::Result<()> {
        match room.get(usize::from(self.from)..) {
            _ if self.from == 0 => room_left(out, room),
            Some(rest) if !rest.is_empty() => writeln!(out, " then{}", Row(rest)),
            _ => out.write_all(b"\n"),
        }
    }

    // Reads bytes into a room, and prints what came of it.
    fn read<W: Write>(self, out: &mut W, bytes: &[u8], room: &mut [u16]) -> io::Result<()> {
        match self.form {
            Form::Records => told(out, read_records(bytes, room))?,
            Form::Tags(kind) => told(out, tags_to_signature(kind, bytes, room))?,
            Form::One => {
                let answer = read_tree(Kind::Data, bytes, self.place(), room);
                told_by(
                    out,
                    answer,
                    |out, (len, end)| write!(out, " length {len} end {end}"),
                )?;
            }
        }
        self.left(out, room)
    }

    // Writes a signature into a room of bytes, and prints what came of it.
    fn write(self, out: &mut impl Write, sig: &[u16], room: &mut [u8]) -> io::Result<()> {
        let answer = match self.form {
            Form::Records => write_records(sig, room),
            Form::One => signature_to_tags(Kind::Data, sig, room),
            Form::Tags(kind) => signature_to_tags(kind, sig, room),
        };
        told(out, answer)?;
        if self.from == 0 {
            write!(out, " room{}", Row(room))?;
        }
        out.write_all(b"\n")
    }
}

// Reads what a case lists, or what is made of n elements; a room longer than there is is not tried.
fn reading(out: &mut impl Write, way: Way, bytes: &[u8], width: u16) -> io::Result<()> {
    let mut room = [9; 16390];
    match room.get_mut(..usize::from(width)) {
        Some(lent) => way.read(out, bytes, lent),
        None => Ok(()),
    }
}

// Writes the signature that a case lists; a room longer than there is is not tried.
fn writing(out: &mut impl Write, way: Way, list: &[u8], width: u16) -> io::Result<()> {
    let mut sig = [0; 16388];
    let sig = tree_into(list, &mut sig);
    let mut room = [9; 40970];
    match room.get_mut(..usize::from(width)) {
        Some(lent) => way.write(out, sig, lent),
        None => Ok(()),
    }
}

// A line whose first word names nothing to try prints nothing.
fn try_case(out: &mut impl Write, case: Case, alloc: Global) -> io::Result<()> {
    let [word, form, width, place, from, made, n] = case.numbers::<7>();
    let Ok(tried) = Tried::try_from(word) else {
        return Ok(());
    };
    out.write_all(case.label())?;
    let way = Way {
        form: Form::from(form),
        place,
        from,
    };
    match tried {
        Tried::Read => {
            let bytes = bytes_of(alloc, Made::from(made), n, case.field(2))?;
            reading(out, way, bytes.as_slice(), width)
        }
        Tried::Write => writing(out, way, case.field(2), width),
    }
}

// A read or a write that fails ends the program with its error.
fn main(rt: HostRuntime) -> io::Result<()> {
    let alloc = rt.alloc();
    try_cases(&rt, |out, case| try_case(out, case, alloc))
}
