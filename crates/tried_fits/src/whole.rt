// Whole questions, in turns.
use crate::shown::shown;
use fits::Fit;
use std::alloc::Global;
use std::io;
use std::io::Write;
use terms::{Stop, Turn};
use trial_lines::{Case, great, numbers_into};

// The question of a case, in a room that is lent anew for each run, so that none finds what another left.
#[derive(Clone, Copy)]
pub struct Question<'a> {
    pub alloc: Global,
    pub case: Case<'a>,
    pub sig: &'a [u16],
    pub twig: &'a [u16],
}

// How many entries a list has. The cast wraps by hand, since a list of any length is taken and the library's conversions do not wrap.
fn entries(list: &[u16]) -> u16 {
    (list.len() / 4 % 65536) as u16
}

impl Question<'_> {
    // A room for sixteen nodes on 4,096 entries: it holds the numbers of the case's list, and the first of them in every place behind.
    pub fn room(self) -> io::Result<Vec<u16>> {
        let list = self.case.field(4);
        let mut first = [0];
        numbers_into(list, &mut first);
        let mut room = vec![in self.alloc; first[0]; 65536]?;
        numbers_into(list, room.as_mut_slice());
        Ok(room)
    }

    // The state in which the question begins.
    fn begun(self) -> Fit {
        Fit::fresh(entries(self.twig), entries(self.sig))
    }

    // The turns of budget steps, each given the state and the room that the one before left. The largest question takes 656 turns here.
    fn turns(self, out: &mut impl Write, budget: u64) -> io::Result<()> {
        let mut room = self.room()?;
        let mut state = self.begun();
        let mut sum: u64 = 0;
        for i in 1..=5000u64 {
            let turn = state.turn(self.sig, self.twig, room.as_mut_slice(), budget);
            sum = sum.wrapping_add(turn.steps);
            if !matches!(turn.stop, Stop::Budget) {
                shown(out, Turn { steps: sum, ..turn })?;
                return write!(out, " turns {i}");
            }
            state = turn.state;
        }
        out.write_all(b" too many turns")
    }

    // A whole question in turns of budget steps.
    fn asked(self, out: &mut impl Write, budget: u64) -> io::Result<()> {
        out.write_all(self.case.label())?;
        write!(out, " by {budget}:")?;
        self.turns(out, budget)?;
        out.write_all(b"\n")
    }

    // A whole question for each budget of the case; there is none for a budget that the case does not name.
    pub fn ask(self, out: &mut impl Write, budgets: &[u16]) -> io::Result<()> {
        for budget in budgets.iter().filter(|budget| **budget != 0) {
            self.asked(out, great(*budget))?;
        }
        Ok(())
    }

    // How many steps a whole question takes.
    fn steps(self) -> io::Result<u64> {
        let mut room = self.room()?;
        let turn = self
            .begun()
            .turn(self.sig, self.twig, room.as_mut_slice(), u64::MAX);
        Ok(turn.steps)
    }

    // A turn of a question that begins, and one with the rest of the steps, which is no step if the first told it.
    fn cut(self, out: &mut impl Write, steps: u64, rest: u64) -> io::Result<()> {
        out.write_all(self.case.label())?;
        write!(out, " cut at {steps}:")?;
        let mut room = self.room()?;
        let turn = self
            .begun()
            .turn(self.sig, self.twig, room.as_mut_slice(), steps);
        shown(out, turn)?;
        out.write_all(b" then")?;
        shown(
            out,
            turn.state
                .turn(self.sig, self.twig, room.as_mut_slice(), rest),
        )?;
        out.write_all(b"\n")
    }

    // Every cut of a question in two turns. The last of them leaves nothing for the second, which must tell the same again.
    pub fn cuts(self, out: &mut impl Write) -> io::Result<()> {
        let whole = self.steps()?;
        for steps in 1..=whole {
            self.cut(out, steps, whole - steps)?;
        }
        Ok(())
    }
}
