// Layer 9, tried_fits: tries the ordered question in turns at its edges, and prints what it says; what is printed is compared with the file stdout.
// A line has the case's name, what stopped the turn (0 an answer, 1 the end, 2 the budget, 3 a refusal), the refusal's number and entry, the steps,
// and the state handed back: node, entry and stage (0 asking, 1 at yes, 2 at no).
// The cases are the lines of the file stdin that have fields: the label; what is tried, and numbers; the signature, the twig, and what the room holds
// before the call: its first numbers, and the first of them in every place behind. A budget of 65,535 stands for the greatest one. Tried are: `turn`, one
// turn, by the length of the room, node, entry, stage and budget; `room`, the same, and the room is printed that it leaves; `ask`, a whole question in
// turns of so many steps, begun anew for each of up to five budgets: the line has the budget, the last turn's stop and state, the steps of all turns and
// how many turns there were; `cuts`, a whole question in two turns, for each number of steps that the first can take. The room of the last two has 65,536
// numbers, just as many as sixteen nodes on 4,096 entries ask for.
#![tactic(auto)]

mod shown;
mod whole;

use fits::Fit;
use fits_rows::Stage;
use shown::shown;
use std::alloc::Global;
use std::io;
use std::io::Write;
use terms::PreRank;
use trial_lines::{Case, UnknownWord, great, room_left, tree_into, try_cases};
use whole::Question;

// What a line's first word has tried.
#[derive(Clone, Copy)]
enum Tried {
    Ask,
    Cuts,
    Room,
    Turn,
}

impl TryFrom<u16> for Tried {
    type Error = UnknownWord;

    // A word stands for its first letter; only where there is none is nothing tried.
    fn try_from(word: u16) -> Result<Self, UnknownWord> {
        match u8::try_from(word) {
            Ok(0) => Err(UnknownWord(word)),
            Ok(b'a') => Ok(Tried::Ask),
            Ok(b'c') => Ok(Tried::Cuts),
            Ok(b'r') => Ok(Tried::Room),
            _ => Ok(Tried::Turn),
        }
    }
}

// Prints one turn from the state of a case in a room of the length that it gives, and hands the room back; no number of a line is too long for it.
fn one_turn(out: &mut impl Write, question: Question, numbers: [u16; 6]) -> io::Result<Vec<u16>> {
    let [_, length, node, entry, stage, budget] = numbers;
    let state = Fit {
        node,
        entry: PreRank(entry),
        stage: Stage::try_from(stage).unwrap_or(Stage::No),
    };
    let mut room = question.room()?;
    room.truncate(usize::from(length));
    out.write_all(question.case.label())?;
    out.write_all(b":")?;
    shown(
        out,
        state.turn(
            question.sig,
            question.twig,
            room.as_mut_slice(),
            great(budget),
        ),
    )?;
    Ok(room)
}

// A line whose first word names nothing to try prints nothing. The room is printed whole where the case asks for it, so that the numbers are seen too which no
// step may touch.
fn try_case(out: &mut impl Write, case: Case, alloc: Global) -> io::Result<()> {
    let numbers = case.numbers::<6>();
    let mut sig = [0; 16389];
    let mut twig = [0; 69];
    let question = Question {
        alloc,
        case,
        sig: tree_into(case.field(2), &mut sig),
        twig: tree_into(case.field(3), &mut twig),
    };
    match Tried::try_from(numbers[0]) {
        Ok(Tried::Ask) => question.ask(out, &numbers[1..]),
        Ok(Tried::Cuts) => question.cuts(out),
        Ok(Tried::Room) => {
            let room = one_turn(out, question, numbers)?;
            room_left(out, room.as_slice())
        }
        Ok(Tried::Turn) => {
            one_turn(out, question, numbers)?;
            out.write_all(b"\n")
        }
        Err(_) => Ok(()),
    }
}

// A read or a write that fails ends the program with its error.
fn main(rt: HostRuntime) -> io::Result<()> {
    let alloc = rt.alloc();
    try_cases(&rt, |out, case| try_case(out, case, alloc))
}
