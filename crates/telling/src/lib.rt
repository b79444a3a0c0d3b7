// Layer 6, telling: the numbers of the C interface. Which state saved numbers stand for, and what a call answers or a turn leaves, told in numbers: the
// refusal's number is returned, and out takes the others.
#![tactic(auto)]

ghost use Rattle.std.specs.Prelude.{◌≡◌, ℕ, List, Result, Ok, Err};
ghost use Rattle.terms.specs.declared.Refusal.{Refusal};
ghost use Rattle.terms.specs.Stops.{told, answered};
ghost use Rattle.telling.specs.Numbers.{TurnTold, AnswerTold};
ghost use Rattle.telling.specs.Answers.{LevelSaid, PlaceSaid, StartSaid};

mod saved;

use preparing::Prep;
pub use saved::{Saved, tell_turn};
use terms::{Refusal, Stop};

// Puts what stopped a turn, its steps and the entry into out, and gives the refusal's number, or 0.
pub fn tell_stop(stop: Stop, steps: u64, out: &mut [u64; 3]) -> u16
    ensures { TurnTold (told stop) steps result out.new }
{
    let (reason, number, entry) = match stop {
        Stop::Answer => (0, 0, 0),
        Stop::End => (1, 0, 0),
        Stop::Budget => (2, 0, 0),
        Stop::Refused(refusal) => (3, refusal.number, refusal.entry.0),
    };
    *out = [reason, steps, u64::from(entry)];
    number
}

// What a call works out, which out takes as N numbers. Those of a refusal are 0, but for the entry that it names.
pub trait Told<const N: usize>: Sized {
    // The number returned and out tell this answer.
    ghost says: { Result Self Refusal → ℕ → List ℕ → Type 0 };

    // What out takes where the call worked.
    fn numbers(self) -> [u64; N]
        ensures { says (Ok self) 0 result };

    // What out takes where it refused.
    fn refused(refusal: Refusal) -> [u64; N]
        ensures { says (Err refusal) refusal.number result };
}

// Puts what a call answers into out, and gives the refusal's number, or 0.
pub fn tell<T: Told<N>, const N: usize>(answer: Result<T, Refusal>, out: &mut [u64; N]) -> u16
    ensures { T.says answer result out.new }
{
    match answer {
        Ok(value) => {
            *out = value.numbers();
            0
        }
        Err(refusal) => {
            *out = T::refused(refusal);
            refusal.number
        }
    }
}

// The length of a result that was written into lent room. out: length, entry. The cast is no `From`: the library has none from usize to u64.
impl Told<2> for usize {
    ghost says = { λ a r out. AnswerTold (answered a) r out };

    fn numbers(self) -> [u64; 2] {
        [self as u64, 0]
    }

    fn refused(refusal: Refusal) -> [u64; 2] {
        [0, u64::from(refusal.entry.0)]
    }
}

// A level. out: level, entry.
impl Told<2> for u16 {
    ghost says = { LevelSaid };

    fn numbers(self) -> [u64; 2] {
        [u64::from(self), 0]
    }

    fn refused(refusal: Refusal) -> [u64; 2] {
        [0, u64::from(refusal.entry.0)]
    }
}

// The place of a block's first number and how many numbers it has. out: place, count, entry.
impl Told<3> for (usize, usize) {
    ghost says = { PlaceSaid };

    fn numbers(self) -> [u64; 3] {
        let (place, count) = self;
        [place as u64, count as u64, 0]
    }

    fn refused(refusal: Refusal) -> [u64; 3] {
        [0, 0, u64::from(refusal.entry.0)]
    }
}

// The fresh state of preparing. out: the next entry alone.
impl Told<1> for Prep {
    ghost says = { StartSaid };

    fn numbers(self) -> [u64; 1] {
        [u64::from(self.next.0)]
    }

    fn refused(_refusal: Refusal) -> [u64; 1] {
        [0]
    }
}
