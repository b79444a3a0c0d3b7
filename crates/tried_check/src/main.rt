// Layer 9, tried_check: tries the check at the edges that document 01 does not star, and prints what it says; what is printed is compared with the file stdout.
// A line has the case's label, what stopped the turn (0 an answer, 1 the end, 2 the budget, 3 a refusal), the refusal's number and entry,
// the steps, and the state handed back. The cases are the lines of the file stdin that have fields: the label; what is tried (`turn` one turn, `whole` the
// whole check, `cut` a fresh turn and then the rest), the kind of tree, the budget, and next, top and closed of the state; and the signature.
#![tactic(auto)]

use checking::{CheckState, check_whole};
use std::io;
use std::io::Write;
use terms::{Kind, PostRank, PreRank, Refusal, Turn};
use trial_lines::{Case, UnknownWord, came_to, kind_of, told_by, tree_into, try_cases};

// What a line's first word has tried.
#[derive(Clone, Copy)]
enum Tried {
    Turn,
    Whole,
    Cut,
}

impl TryFrom<u16> for Tried {
    type Error = UnknownWord;

    // A word stands for its first letter.
    fn try_from(word: u16) -> Result<Self, UnknownWord> {
        match u8::try_from(word) {
            Ok(b't') => Ok(Tried::Turn),
            Ok(b'w') => Ok(Tried::Whole),
            Ok(b'c') => Ok(Tried::Cut),
            _ => Err(UnknownWord(word)),
        }
    }
}

fn shown(out: &mut impl Write, label: &[u8], turn: Turn<CheckState>) -> io::Result<()> {
    let CheckState { next, top, closed } = turn.state;
    out.write_all(label)?;
    came_to(out, turn.stop, turn.steps, &[next.0, top.0, closed.0])?;
    out.write_all(b"\n")
}

fn judged(out: &mut impl Write, label: &[u8], verdict: Result<(), Refusal>) -> io::Result<()> {
    out.write_all(label)?;
    told_by(out, verdict, |out, _| out.write_all(b" accepted"))?;
    out.write_all(b"\n")
}

// A turn of so many steps and then the rest: the states and sums are those of one turn.
fn cut(out: &mut impl Write, label: &[u8], kind: Kind, sig: &[u16], budget: u64) -> io::Result<()> {
    let first = CheckState::fresh().turn(kind, sig, budget);
    shown(out, label, first)?;
    shown(out, b"then", first.state.turn(kind, sig, 1000))
}

// A line whose first word names nothing to try prints nothing.
fn try_case(out: &mut impl Write, case: Case) -> io::Result<()> {
    let [word, kind, budget, next, top, closed] = case.numbers::<6>();
    let (kind, budget) = (kind_of(kind), u64::from(budget));
    let mut room = [0; 16389];
    let sig = tree_into(case.field(2), &mut room);
    let label = case.label();
    match Tried::try_from(word) {
        Ok(Tried::Turn) => {
            let state = CheckState {
                next: PreRank(next),
                top: PreRank(top),
                closed: PostRank(closed),
            };
            shown(out, label, state.turn(kind, sig, budget))
        }
        Ok(Tried::Whole) => judged(out, label, check_whole(kind, sig)),
        Ok(Tried::Cut) => cut(out, label, kind, sig, budget),
        Err(_) => Ok(()),
    }
}

// A read or a write that fails ends the program with its error.
fn main(rt: HostRuntime) -> io::Result<()> {
    try_cases(&rt, |out, case| try_case(out, case))
}
