// The states that a caller keeps between two turns, as bare numbers: arrays of a fixed length, as C lends them.
ghost use Rattle.std.specs.Prelude.{◌≡◌, ℕ, List, Bool, false, get_or, length};
ghost use Rattle.preparing.specs.PrepTurn.{prep_at};
ghost use Rattle.telling.specs.States.{check_state_of, check_numbers, prepare_numbers, kept_over, TurnSaid};
ghost use Rattle.telling.specs.Fits.{fit_state_of, fit_void, fit_numbers};
ghost use Rattle.telling.specs.Walk.{walk_of, walk_void, walk_numbers};
ghost use Rattle.telling.specs.Back.{check_numbers_back, prepare_numbers_back, walk_back, fit_back};

use crate::tell_stop;
use checking::CheckState;
use fits::Fit;
use fits_rows::Stage;
use preparing::Prep;
use terms::{PostRank, PreRank, Turn};
use walk_ranges::Phase;
use walking::Walk;

// A state as N numbers.
pub trait Saved<const N: usize>: Copy {
    // The state that these numbers stand for.
    ghost from_numbers: { List ℕ → Self };

    // A state's numbers.
    ghost numbers: { Self → List ℕ };

    // Whether these numbers stand for no state.
    ghost is_void: { List ℕ → Bool };

    // The state that N numbers stand for. It is outside every range where they stand for none.
    fn from_numbers(given: &[u16; N]) -> Self
        ensures { result ≡ from_numbers given.now };

    // A state's numbers.
    fn numbers(self) -> [u16; N]
        ensures { result ≡ numbers self };

    // Whether these numbers stand for none.
    fn is_void(given: &[u16; N]) -> bool
        ensures { result ≡ is_void given.now };

    // Numbers that stand for a state are that state's.
    ghost back: { (l : List ℕ) → length l ≡ N → is_void l ≡ false → numbers (from_numbers l) ≡ l };
}

// Puts the state that a turn leaves back into the numbers given, which stay where they stand for none, and tells what stopped it.
pub fn tell_turn<S: Saved<N>, const N: usize>(
    turned: Turn<S>,
    state: &mut [u16; N],
    out: &mut [u64; 3],
) -> u16
    ensures { TurnSaid (kept_over S.is_void S.numbers state.old) turned result state.new
        out.new }
{
    if !S::is_void(state) {
        *state = turned.state.numbers();
    }
    tell_stop(turned.stop, turned.steps, out)
}

// The state of the check: next, top, closed.
impl Saved<3> for CheckState {
    ghost from_numbers = { check_state_of };

    ghost numbers = { check_numbers };

    ghost is_void = { λ l. false };

    ghost back = { λ l h k. check_numbers_back l h };

    fn from_numbers(given: &[u16; 3]) -> CheckState {
        CheckState {
            next: PreRank(given[0]),
            top: PreRank(given[1]),
            closed: PostRank(given[2]),
        }
    }

    fn numbers(self) -> [u16; 3] {
        [self.next.0, self.top.0, self.closed.0]
    }

    fn is_void(_given: &[u16; 3]) -> bool {
        false
    }
}

// The state of preparing: the next entry.
impl Saved<1> for Prep {
    ghost from_numbers = { λ l. prep_at (get_or l 0 0) };

    ghost numbers = { prepare_numbers };

    ghost is_void = { λ l. false };

    ghost back = { λ l h k. prepare_numbers_back l h };

    fn from_numbers(given: &[u16; 1]) -> Prep {
        Prep {
            next: PreRank(given[0]),
        }
    }

    fn numbers(self) -> [u16; 1] {
        [self.next.0]
    }

    fn is_void(_given: &[u16; 1]) -> bool {
        false
    }
}

// The ordered question: node, entry, stage. A stage over 2 stands for a question at node 0, which is outside every range.
impl Saved<3> for Fit {
    ghost from_numbers = { fit_state_of };

    ghost numbers = { fit_numbers };

    ghost is_void = { fit_void };

    ghost back = { fit_back };

    fn from_numbers(given: &[u16; 3]) -> Fit {
        match Stage::try_from(given[2]) {
            Ok(stage) => Fit {
                node: given[0],
                entry: PreRank(given[1]),
                stage,
            },
            Err(_) => Fit {
                node: 0,
                entry: PreRank(0),
                stage: Stage::Asking,
            },
        }
    }

    fn numbers(self) -> [u16; 3] {
        [self.node, self.entry.0, u16::from(self.stage)]
    }

    fn is_void(given: &[u16; 3]) -> bool {
        Stage::try_from(given[2]).is_err()
    }
}

// The walk: sixteen images, node, candidate, phase. A phase over 2 stands for a walk at node 0, which is outside every range.
impl Saved<19> for Walk {
    ghost from_numbers = { walk_of };

    ghost numbers = { walk_numbers };

    ghost is_void = { walk_void };

    ghost back = { walk_back };

    fn from_numbers(given: &[u16; 19]) -> Walk {
        let mut images = [0; 16];
        match Phase::try_from(given[18]) {
            Ok(phase) => {
                images.copy_from_slice(&given[..16]);
                Walk {
                    images,
                    node: given[16],
                    candidate: PreRank(given[17]),
                    phase,
                }
            }
            Err(_) => Walk {
                images,
                node: 0,
                candidate: PreRank(0),
                phase: Phase::Walking,
            },
        }
    }

    #[tactic(auto, using(crate::specs::Back::sixteen_set))]
    fn numbers(self) -> [u16; 19] {
        let mut numbers = [0; 19];
        numbers[..16].copy_from_slice(&self.images);
        numbers[16] = self.node;
        numbers[17] = self.candidate.0;
        numbers[18] = u16::from(self.phase);
        numbers
    }

    fn is_void(given: &[u16; 19]) -> bool {
        Phase::try_from(given[18]).is_err()
    }
}
