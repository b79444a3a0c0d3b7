// Whole preparations and whole walks, in turns.
use crate::shown::{shown_prep, shown_walk};
use preparing::Prep;
use starting::prepare_start;
use std::io;
use std::io::Write;
use terms::{Stop, Turn};
use trial_lines::stopped;
use walking::Walk;

// The trees that a case asks about. tried_ordered has its own, since methods stand in the crate of their type.
#[derive(Clone, Copy)]
pub struct Trees<'a> {
    pub sig: &'a [u16],
    pub twig: &'a [u16],
}

// How many steps the turns of a whole walk are given.
#[derive(Clone, Copy)]
pub enum Budgets {
    Steps(u16),
    Seeded,
    Greatest,
}

impl From<u16> for Budgets {
    // Of a line's number: up to 3 that many steps, 4 seeded, else the greatest number.
    fn from(kind: u16) -> Budgets {
        match kind {
            0..=3 => Budgets::Steps(kind),
            4 => Budgets::Seeded,
            _ => Budgets::Greatest,
        }
    }
}

impl Budgets {
    // The budget of a turn.
    fn spend(self, seed: u16) -> u64 {
        match self {
            Budgets::Steps(steps) => u64::from(steps),
            Budgets::Seeded => u64::from(seed % 7 + 1),
            Budgets::Greatest => u64::MAX,
        }
    }
}

fn next_seed(seed: u16) -> u16 {
    seed.wrapping_mul(25173).wrapping_add(13849)
}

// What a whole walk came to: its answers, its steps, those since the last answer, and the most there were between two answers.
#[derive(Clone, Copy)]
struct Tally {
    answers: u64,
    sum: u64,
    gap: u64,
    most: u64,
}

impl Tally {
    // The tally after a turn.
    fn counted(self, turn: Turn<Walk>) -> Tally {
        let sum = self.sum.wrapping_add(turn.steps);
        let gap = self.gap.wrapping_add(turn.steps);
        if matches!(turn.stop, Stop::Budget) {
            return Tally { sum, gap, ..self };
        }
        Tally {
            answers: self
                .answers
                .wrapping_add(u64::from(matches!(turn.stop, Stop::Answer))),
            sum,
            gap: 0,
            most: gap.max(self.most),
        }
    }
}

// How a whole walk goes: the budgets of its turns, how many answers are enough, and whether each is printed.
#[derive(Clone, Copy)]
pub struct WholeWalk {
    pub budgets: Budgets,
    pub enough: u64,
    pub print: bool,
}

impl WholeWalk {
    // Whether a walk goes on after a stop: not after the end or a refusal, and not with enough answers.
    fn goes_on(self, stop: Stop, answers: u64) -> bool {
        match stop {
            Stop::Budget => true,
            Stop::Answer => answers < self.enough,
            Stop::End | Stop::Refused(_) => false,
        }
    }

    // Prints where a turn came to, if asked and unless its budget stopped it.
    fn reported(self, out: &mut impl Write, turn: Turn<Walk>) -> io::Result<()> {
        if !self.print || matches!(turn.stop, Stop::Budget) {
            return Ok(());
        }
        out.write_all(b"at")?;
        shown_walk(out, turn)
    }
}

impl Trees<'_> {
    // Prepares the whole table in turns of budget steps.
    pub fn prepare(
        self,
        out: &mut impl Write,
        table: &mut [u16],
        n: u64,
        budget: u64,
    ) -> io::Result<()> {
        match prepare_start(n, table) {
            Ok(fresh) => self.prepare_from(out, table, fresh, budget),
            Err(_) => out.write_all(b"not started\n"),
        }
    }

    // The turns from a state on; says the last turn's stop, the sum of the steps and the state.
    fn prepare_from(
        self,
        out: &mut impl Write,
        table: &mut [u16],
        fresh: Prep,
        budget: u64,
    ) -> io::Result<()> {
        let mut state = fresh;
        let mut sum: u64 = 0;
        for _ in 0..5000u16 {
            let turn = state.turn(self.sig, self.twig, table, budget);
            sum = sum.wrapping_add(turn.steps);
            if !matches!(turn.stop, Stop::Budget) {
                out.write_all(b"prepared")?;
                return shown_prep(out, Turn { steps: sum, ..turn });
            }
            state = turn.state;
        }
        out.write_all(b"too many turns\n")
    }

    // Walks from the fresh walk to the end, or to the given number of answers. Prints the answers if asked, then what stopped the last turn, the number of
    // answers, the steps in all, and the most steps from the start or an answer to the next answer or the end, beside 2×m×n+1.
    pub fn walk(self, out: &mut impl Write, table: &[u16], how: WholeWalk) -> io::Result<()> {
        let mut state = Walk::fresh();
        let mut tally = Tally {
            answers: 0,
            sum: 0,
            gap: 0,
            most: 0,
        };
        let mut seed: u16 = 4711;
        for _ in 0..4000000u32 {
            seed = next_seed(seed);
            let turn = state.turn(self.sig, self.twig, table, how.budgets.spend(seed));
            state = turn.state;
            tally = tally.counted(turn);
            how.reported(out, turn)?;
            if !how.goes_on(turn.stop, tally.answers) {
                return self.walked(out, turn.stop, tally);
            }
        }
        out.write_all(b"too many turns\n")
    }

    // What a whole walk came to.
    fn walked(self, out: &mut impl Write, stop: Stop, tally: Tally) -> io::Result<()> {
        out.write_all(b"walked")?;
        stopped(out, stop)?;
        let Tally {
            answers,
            sum,
            most,
            ..
        } = tally;
        writeln!(out, " {answers} {sum} {most} {}", self.limit())
    }

    // 2×m×n+1, or 0 of trees that are too large.
    fn limit(self) -> usize {
        let n = self.sig.len() / 4;
        let m = self.twig.len() / 4;
        if n <= 4096 && m <= 16 {
            2 * m * n + 1
        } else {
            0
        }
    }
}
