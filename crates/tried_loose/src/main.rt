// Layer 9, tried_loose: tries preparing and walking at the edges that document 01 does not star, and prints what they say; what is printed is compared with the file stdout.
// A line has the case's name, what stopped the turn (0 an answer, 1 the end, 2 the budget, 3 a refusal), the refusal's number and entry, the steps,
// and the state handed back: the next entry, or node, candidate, phase (0 walking, 1 at an answer, 2 ended) and the images.
// The cases are the lines of the file stdin that have fields: the label; what is tried, the length of the table, and numbers; the signature, the twig, and what
// the table holds before the call, if not what the case before left. Tried are: `start`, the start call for so many entries; `prepare`, a whole preparation of
// so many entries in turns of so many steps; `walk`, a whole walk, by the kind of its budgets, the number of answers that is enough, and whether each is
// printed; `Prepare`, one turn, by the next entry and the budget; `Walk`, one turn, by three images, node, candidate, phase and budget; `table`, nothing: the
// table is printed.
#![tactic(auto)]

mod shown;
mod whole;

use preparing::Prep;
use shown::{shown_prep, shown_walk};
use starting::prepare_start;
use std::io;
use std::io::Write;
use terms::PreRank;
use trial_lines::{Case, Row, UnknownWord, great, numbers_into, told_by, tree_into, try_cases};
use walk_ranges::Phase;
use walking::Walk;
use whole::{Budgets, Trees, WholeWalk};

// What a line's first word has tried.
#[derive(Clone, Copy)]
enum Tried {
    Start,
    Prepare,
    Walk,
    PrepareOnce,
    WalkOnce,
    Table,
}

impl TryFrom<u16> for Tried {
    type Error = UnknownWord;

    // A word stands for its first letter; only where there is none is nothing tried.
    fn try_from(word: u16) -> Result<Self, UnknownWord> {
        match u8::try_from(word) {
            Ok(0) => Err(UnknownWord(word)),
            Ok(b's') => Ok(Tried::Start),
            Ok(b'p') => Ok(Tried::Prepare),
            Ok(b'w') => Ok(Tried::Walk),
            Ok(b'P') => Ok(Tried::PrepareOnce),
            Ok(b'W') => Ok(Tried::WalkOnce),
            _ => Ok(Tried::Table),
        }
    }
}

// A turn of preparing from an entry on.
fn prepare_turn(
    out: &mut impl Write,
    trees: Trees,
    table: &mut [u16],
    next: u16,
    budget: u16,
) -> io::Result<()> {
    let state = Prep {
        next: PreRank(next),
    };
    shown_prep(
        out,
        state.turn(trees.sig, trees.twig, table, u64::from(budget)),
    )
}

// A turn of walking from the walk of a case: three images, node, candidate and phase, which is ended at a number over 2; and the budget.
fn walk_turn(
    out: &mut impl Write,
    trees: Trees,
    table: &[u16],
    numbers: [u16; 7],
) -> io::Result<()> {
    let [first, second, third, node, candidate, phase, budget] = numbers;
    let mut images = [0; 16];
    images[..3].copy_from_slice(&[first, second, third]);
    let state = Walk {
        images,
        node,
        candidate: PreRank(candidate),
        phase: Phase::try_from(phase).unwrap_or(Phase::Ended),
    };
    shown_walk(
        out,
        state.turn(trees.sig, trees.twig, table, u64::from(budget)),
    )
}

// Prints every number of the table.
fn tabled(out: &mut impl Write, table: &[u16]) -> io::Result<()> {
    writeln!(out, "{}", Row(table))
}

// A start call, with what it leaves.
fn start<W: Write>(out: &mut W, table: &mut [u16], n: u64) -> io::Result<()> {
    told_by(out, prepare_start(n, table), |out, state| {
        write!(out, " fresh {}", state.next.0)
    })?;
    tabled(out, table)
}

// What a word has tried with the numbers behind the table's length.
fn try_word(
    out: &mut impl Write,
    tried: Tried,
    trees: Trees,
    table: &mut [u16],
    numbers: [u16; 7],
) -> io::Result<()> {
    let [a, b, c, ..] = numbers;
    match tried {
        Tried::Start => start(out, table, u64::from(a)),
        Tried::Prepare => trees.prepare(out, table, u64::from(a), great(b)),
        Tried::Walk => {
            let how = WholeWalk {
                budgets: Budgets::from(a),
                enough: u64::from(b),
                print: c == 1,
            };
            trees.walk(out, table, how)
        }
        Tried::PrepareOnce => prepare_turn(out, trees, table, a, b),
        Tried::WalkOnce => walk_turn(out, trees, table, numbers),
        Tried::Table => tabled(out, table),
    }
}

// A line whose first word names nothing to try prints nothing, and its table is written all the same. A table longer than there is is not tried.
fn try_case(out: &mut impl Write, case: Case, table: &mut [u16]) -> io::Result<()> {
    // What the numbers behind the width are depends on the word.
    let [word, width, a, b, c, d, e, f, g] = case.numbers::<9>();
    let mut sig = [0; 16388];
    let mut twig = [0; 68];
    let trees = Trees {
        sig: tree_into(case.field(2), &mut sig),
        twig: tree_into(case.field(3), &mut twig),
    };
    numbers_into(case.field(4), table);
    let Ok(tried) = Tried::try_from(word) else {
        return Ok(());
    };
    out.write_all(case.label())?;
    match table.get_mut(..usize::from(width)) {
        Some(lent) => try_word(out, tried, trees, lent, [a, b, c, d, e, f, g]),
        None => Ok(()),
    }
}

// A read or a write that fails ends the program with its error.
fn main(rt: HostRuntime) -> io::Result<()> {
    let mut table = [0; 8192];
    try_cases(&rt, |out, case| try_case(out, case, &mut table))
}
