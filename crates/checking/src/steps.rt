// The steps of the check: next entry i, innermost open element top, number closed.
ghost use Rattle.std.specs.Prelude.{◌≡◌, ◌+◌, ◌*◌, ◌-◌, ◌<◌, ◌≤◌, length, None};
ghost use Rattle.turns.specs.Turn.{refused};
ghost use Rattle.terms.specs.Faults.{tested};
ghost use Rattle.terms.specs.Stops.{Handed};
ghost use Rattle.trees.specs.Signature.{cell, entries_of, width};
ghost use Rattle.checking.specs.Rule.{Ranges, accepted, at, close_of, step_of};
ghost use Rattle.checking.specs.Turn.{run_of};
ghost use Rattle.checking.specs.Plain.{number_of, entry_fault, opened, close_entry, taken};

use crate::CheckState;
use terms::{Fault, PostRank, PreRank, Refusal, Stop, Turn};

// The entry that a refused close names: the next one where nothing is open, none by the 9, else the one that would be closed.
fn close_entry(i: u16, top: u16, closed: u16) -> u16
    requires { closed < i }
    ensures { result ≡ close_entry i top closed }
{
    if top == 0 {
        return i;
    }
    if closed + 1 == i { 0 } else { top }
}

// The signature that is checked: its n entries, and whether name 0 is allowed.
#[derive(Clone, Copy)]
pub struct Checking<'a> {
    pub sig: &'a [u16],
    pub n: u16,
    pub any_name: bool,
    pub ghost sized: { length sig.now ≡ width * n },
    pub ghost small: { n ≤ 4096 },
}

impl Checking<'_> {
    // Number k of entry i, which is there: unlike `entries::entry_number`, it tests no bound.
    fn number(self, i: u16, k: usize) -> u16
        requires { (1 ≤ i) × (k < width) × (i ≤ self.n) }
        ensures { result ≡ cell width self.entry.sig.now i k }
    {
        self.sig[4 * (i as usize - 1) + k]
    }

    // Rule 1: whether entry i is refused by itself.
    fn test_entry(self, i: u16) -> Result<(), Fault>
        requires { 1 ≤ i }
        ensures { tested result ≡ entry_fault self.entry.any_name self.entry.n (entries_of width self.entry.sig.now) i }
    {
        if self.n < i {
            return Ok(());
        }
        if !self.any_name & (self.number(i, 0) == 0) {
            return Err(Fault::Nameless);
        }
        let fa = self.number(i, 3);
        if (i <= fa) | ((1 < i) & (fa == 0)) {
            Err(Fault::NotOpen)
        } else {
            Ok(())
        }
    }

    // Rule 2: whether entry i is opened.
    fn opens(self, i: u16, top: u16) -> bool
        requires { 1 ≤ i }
        ensures { result ≡ opened self.entry.n (entries_of width self.entry.sig.now) i top }
    {
        i <= self.n && self.number(i, 3) == top
    }

    // Rules 3 and 4: whether closing the innermost open element is refused.
    fn test_close(self, i: u16, top: u16, closed: u16) -> Result<(), Fault>
        requires { (top ≤ self.n) × (closed < i) }
        ensures { tested result ≡ number_of (close_of (entries_of width self.entry.sig.now) (at i top closed)) }
    {
        if top == 0 {
            return Err(Fault::NotOpen);
        }
        if closed == i - 1 {
            return Err(Fault::BadState);
        }
        let post = self.number(top, 1);
        if post != closed + 1 {
            return Err(Fault::WrongPost);
        }
        let ff = self.number(top, 2);
        if ff != i {
            return Err(Fault::WrongFf);
        }
        let up = self.number(top, 3);
        if up < top {
            Ok(())
        } else {
            Err(Fault::NotOpen)
        }
    }

    // The step from a state within its ranges: the next entry opens, or the innermost open element closes; none is taken where it is refused.
    fn step(self, state: CheckState) -> Option<CheckState>
        requires { Ranges self.n state }
        ensures { result ≡ taken (step_of self.entry.any_name self.entry.n (entries_of width self.entry.sig.now) state) }
    {
        let i = state.next.0;
        let top = state.top.0;
        let closed = state.closed.0;
        self.test_entry(i).ok()?;
        if self.opens(i, top) {
            return Some(CheckState {
                next: PreRank(i + 1),
                top: PreRank(i),
                closed: state.closed,
            });
        }
        self.test_close(i, top, closed).ok()?;
        Some(CheckState {
            next: state.next,
            top: PreRank(self.number(top, 3)),
            closed: PostRank(closed + 1),
        })
    }

    // Why no step is taken: rule 1 refuses it, or else rules 3 and 4.
    fn refusal(self, state: CheckState) -> Refusal
        requires ranges { Ranges self.n state }
        requires stuck { taken (step_of self.any_name self.n (entries_of width self.sig.now) state) ≡ None }
        ensures { step_of self.entry.any_name self.entry.n (entries_of width self.entry.sig.now) state ≡ refused result.number result.entry.0 }
    {
        let i = state.next.0;
        let top = state.top.0;
        let closed = state.closed.0;
        if let Err(fault) = self.test_entry(i) {
            return fault.at(i);
        }
        let fault = self.test_close(i, top, closed).unwrap_err();
        fault.at(close_entry(i, top, closed))
    }

    // Whether the check has come to its end.
    fn is_accepted(self, state: CheckState) -> bool
        ensures { result ≡ accepted self.entry.n state }
    {
        (state.next.0 == self.n + 1) & (state.top.0 == 0)
    }

    // Up to budget steps from a state within its ranges. The loop asks only whether a step is taken: what stopped it is found out once, where the loop ends.
    pub fn run(self, budget: u64, start: CheckState) -> Turn<CheckState>
        requires { Ranges self.n start }
        ensures { Handed result (run_of self.entry.any_name self.entry.n (entries_of width self.entry.sig.now) budget start) }
    {
        let mut state = start;
        for steps in 0..budget {
            let Some(next) = self.step(state) else {
                let stop = if self.is_accepted(state) {
                    Stop::End
                } else {
                    Stop::Refused(self.refusal(state))
                };
                return Turn { state, steps, stop };
            };
            state = next;
        }
        let stop = if self.is_accepted(state) {
            Stop::End
        } else {
            Stop::Budget
        };
        Turn {
            state,
            steps: budget,
            stop,
        }
    }
}
