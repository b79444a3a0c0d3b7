// Layer 7, signature_calls: the calls on one signature, on bare numbers: the check, level, block and axes.
// Kinds and axes are numbers, and states and out arrays of a fixed length: C hands them in so.
#![tactic(auto)]

ghost use Rattle.signature_calls.specs.Check.{CheckTurnPromise};
ghost use Rattle.signature_calls.specs.Axes.{LevelNumbers, PlaceNumbers, AxisNumbers};

use checking::CheckState;
use telling::{Saved, tell, tell_turn};
use terms::{Kind, PreRank};

// A turn of the check on a lent state: next, top, closed. out: stop, steps, entry.
pub fn check_turn(
    kind: u16,
    sig: &[u16],
    state: &mut [u16; 3],
    budget: u64,
    out: &mut [u64; 3],
) -> u16
    ensures { CheckTurnPromise kind sig.now budget state.old result state.new out.new }
{
    let turned = CheckState::from_numbers(state).turn(Kind::from(kind), sig, budget);
    tell_turn(turned, state, out)
}

// The level of an entry. out: level, entry.
pub fn level(sig: &[u16], rank: u16, out: &mut [u64; 2]) -> u16
    ensures { LevelNumbers sig.now rank result out.new }
{
    tell(blocks::level(sig, PreRank(rank)), out)
}

// Where the block of an entry lies. out: the place of its first number from 0, how many numbers, entry.
pub fn block_place(sig: &[u16], rank: u16, out: &mut [u64; 3]) -> u16
    ensures { PlaceNumbers sig.now rank result out.new }
{
    tell(blocks::block_place(sig, PreRank(rank)), out)
}

// The elements on an axis of the contexts. out: ranks written, entry.
pub fn axis(
    sig: &[u16],
    contexts: &[u16],
    axis: u16,
    name: u16,
    position: u16,
    room: &mut [u16],
    out: &mut [u64; 2],
) -> u16
    ensures { AxisNumbers sig.now contexts.now axis name position room.old result room.new
        out.new }
{
    tell(axes::axis(sig, contexts, axis, name, position, room), out)
}
