// Layer 2, checking: the check of a signature, in turns and whole.
#![tactic(auto)]

ghost use Rattle.std.specs.Prelude.{◌≡◌, ◌≤◌};
ghost use Rattle.checking.specs.Rule.{fresh, in_range};
ghost use Rattle.checking.specs.Turn.{TurnPromise};
ghost use Rattle.checking.specs.Whole.{WholePromise};

mod steps;

use steps::Checking;
use terms::{Fault, Kind, PostRank, PreRank, Refusal, Stop, Turn, test_length};

// The saved state of a check: the next entry, the innermost open element, and the last rank given as elements close.
#[derive(Clone, Copy)]
pub struct CheckState {
    pub next: PreRank,
    pub top: PreRank,
    pub closed: PostRank,
}

impl CheckState {
    // The state of a check that begins.
    pub fn fresh() -> Self
        ensures { result ≡ fresh }
    {
        CheckState {
            next: PreRank(1),
            top: PreRank(0),
            closed: PostRank(0),
        }
    }

    // Whether the state is within its ranges, for n entries.
    fn is_in_range(self, n: u16) -> bool
        requires { n ≤ 4096 }
        ensures { result ≡ in_range n self }
    {
        let next = self.next.0;
        (1 <= next) & (next <= n + 1) & (self.top.0 < next) & (self.closed.0 < next)
    }

    // A turn of the check that may spend budget steps. Its start costs the same for every size.
    pub fn turn(self, kind: Kind, sig: &[u16], budget: u64) -> Turn<CheckState>
        ensures { TurnPromise kind sig.now budget self result }
    {
        if let Err(fault) = test_length(kind, sig.len()) {
            return Turn::refused(self, fault.into());
        }
        // A cast: the length is known to be small, and the library has no `From` from usize to u16.
        let n = (sig.len() / 4) as u16;
        if !self.is_in_range(n) {
            return Turn::refused(self, Fault::BadState.into());
        }
        let any_name = kind.any_name();
        Checking { sig, n, any_name }.run(budget, self)
    }
}

// The whole check: what is not refused is accepted. One step more than the largest tree takes is never all spent.
pub fn check_whole(kind: Kind, sig: &[u16]) -> Result<(), Refusal>
    ensures { WholePromise kind sig.now result }
{
    let most = u64::from(kind.most());
    let budget = 2 * most + 1;
    match CheckState::fresh().turn(kind, sig, budget).stop {
        Stop::Refused(refusal) => Err(refusal),
        _ => Ok(()),
    }
}
