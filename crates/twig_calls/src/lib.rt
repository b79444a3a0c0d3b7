// Layer 7, twig_calls: the calls on a signature and a twig, on bare numbers: the ordered question, whole and in turns, preparing and walking.
#![tactic(auto)]

ghost use Rattle.twig_calls.specs.Fits.{FitsTurnPromise};
ghost use Rattle.twig_calls.specs.Ordered.{OrderedNumbers};
ghost use Rattle.twig_calls.specs.Prepare.{StartNumbers, PrepareTurnPromise};
ghost use Rattle.twig_calls.specs.Walk.{WalkFreshPromise, WalkTurnPromise};

use fits::Fit;
use preparing::Prep;
use telling::{Saved, tell, tell_turn};
use walking::Walk;

// The least ordered answer greater than the tuple. out: m, or 0 for none, entry.
pub fn ordered_next(
    sig: &[u16],
    twig: &[u16],
    tuple: &[u16],
    room: &mut [u16],
    out: &mut [u64; 2],
) -> u16
    ensures { OrderedNumbers sig.now twig.now tuple.now room.old result room.new
        out.new }
{
    tell(ordered::ordered_next(sig, twig, tuple, room), out)
}

// A turn of the ordered question on a lent state: node, entry, stage. out: stop, steps, entry.
pub fn fits_turn(
    sig: &[u16],
    twig: &[u16],
    room: &mut [u16],
    state: &mut [u16; 3],
    budget: u64,
    out: &mut [u64; 3],
) -> u16
    ensures { FitsTurnPromise sig.now twig.now room.old state.old budget result
        room.new state.new out.new }
{
    let turned = Fit::from_numbers(state).turn(sig, twig, room, budget);
    tell_turn(turned, state, out)
}

// The start call of preparing. out: the fresh state.
pub fn prepare_start(n: u64, table: &mut [u16], out: &mut [u64; 1]) -> u16
    ensures { StartNumbers n table.old result table.new out.new }
{
    tell(starting::prepare_start(n, table), out)
}

// A turn of preparing on a lent state: the next entry. out: stop, steps, entry.
pub fn prepare_turn(
    sig: &[u16],
    twig: &[u16],
    table: &mut [u16],
    state: &mut [u16; 1],
    budget: u64,
    out: &mut [u64; 3],
) -> u16
    ensures { PrepareTurnPromise sig.now twig.now table.old state.old budget result
        table.new state.new out.new }
{
    let turned = Prep::from_numbers(state).turn(sig, twig, table, budget);
    tell_turn(turned, state, out)
}

// The state of a walk that begins.
pub fn walk_fresh(state: &mut [u16; 19]) -> u16
    ensures { WalkFreshPromise result state.new }
{
    *state = Walk::fresh().numbers();
    0
}

// A turn of the walk on a lent state: sixteen images, node, candidate, phase. out: stop, steps, entry.
pub fn walk_turn(
    sig: &[u16],
    twig: &[u16],
    table: &[u16],
    state: &mut [u16; 19],
    budget: u64,
    out: &mut [u64; 3],
) -> u16
    ensures { WalkTurnPromise sig.now twig.now table.now state.old budget result
        state.new out.new }
{
    let turned = Walk::from_numbers(state).turn(sig, twig, table, budget);
    tell_turn(turned, state, out)
}
