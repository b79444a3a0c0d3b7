// Layer 8, kiosk: the C interface. It gives the calls on bare numbers the names that C knows them by.
// Kinds and axes are numbers, and states and out arrays of a fixed length: C hands them in so.
#![tactic(auto)]

ghost use Rattle.record_calls.specs.Records.{ReadNumbers, WriteNumbers, TagsNumbers, BackNumbers};
ghost use Rattle.signature_calls.specs.Check.{CheckTurnPromise};
ghost use Rattle.signature_calls.specs.Axes.{LevelNumbers, PlaceNumbers, AxisNumbers};
ghost use Rattle.twig_calls.specs.Fits.{FitsTurnPromise};
ghost use Rattle.twig_calls.specs.Ordered.{OrderedNumbers};
ghost use Rattle.twig_calls.specs.Prepare.{StartNumbers, PrepareTurnPromise};
ghost use Rattle.twig_calls.specs.Walk.{WalkFreshPromise, WalkTurnPromise};

// Signature records to numbers. out: numbers written, 0.
#[unsafe(no_mangle)]
pub extern "C" fn ib_read_records(bytes: &[u8], room: &mut [u16], out: &mut [u64; 2]) -> u16
    ensures { ReadNumbers bytes.now room.old result room.new out.new }
{
    record_calls::read_records(bytes, room, out)
}

// A signature to signature records. out: bytes written, 0.
#[unsafe(no_mangle)]
pub extern "C" fn ib_write_records(sig: &[u16], room: &mut [u8], out: &mut [u64; 2]) -> u16
    ensures { WriteNumbers sig.now room.old result room.new out.new }
{
    record_calls::write_records(sig, room, out)
}

// A tag list to a signature. out: numbers written, 0.
#[unsafe(no_mangle)]
pub extern "C" fn ib_tags_to_signature(
    kind: u16,
    bytes: &[u8],
    room: &mut [u16],
    out: &mut [u64; 2],
) -> u16
    ensures { TagsNumbers kind bytes.now room.old result room.new out.new }
{
    record_calls::tags_to_signature(kind, bytes, room, out)
}

// A signature back to its tag list. out: bytes written, entry.
#[unsafe(no_mangle)]
pub extern "C" fn ib_signature_to_tags(
    kind: u16,
    sig: &[u16],
    room: &mut [u8],
    out: &mut [u64; 2],
) -> u16
    ensures { BackNumbers kind sig.now room.old result room.new out.new }
{
    record_calls::signature_to_tags(kind, sig, room, out)
}

// A turn of the check on a lent state: next, top, closed. out: stop, steps, entry.
#[unsafe(no_mangle)]
pub extern "C" fn ib_check_turn(
    kind: u16,
    sig: &[u16],
    state: &mut [u16; 3],
    budget: u64,
    out: &mut [u64; 3],
) -> u16
    ensures { CheckTurnPromise kind sig.now budget state.old result state.new out.new }
{
    signature_calls::check_turn(kind, sig, state, budget, out)
}

// The level of an entry. out: level, entry.
#[unsafe(no_mangle)]
pub extern "C" fn ib_level(sig: &[u16], rank: u16, out: &mut [u64; 2]) -> u16
    ensures { LevelNumbers sig.now rank result out.new }
{
    signature_calls::level(sig, rank, out)
}

// Where the block of an entry lies. out: the place of its first number from 0, how many numbers, entry.
#[unsafe(no_mangle)]
pub extern "C" fn ib_block_place(sig: &[u16], rank: u16, out: &mut [u64; 3]) -> u16
    ensures { PlaceNumbers sig.now rank result out.new }
{
    signature_calls::block_place(sig, rank, out)
}

// The elements on an axis of the contexts. out: ranks written, entry.
#[unsafe(no_mangle)]
pub extern "C" fn ib_axis(
    sig: &[u16],
    contexts: &[u16],
    axis: u16,
    name: u16,
    position: u16,
    room: &mut [u16],
    out: &mut [u64; 2],
) -> u16
    ensures { AxisNumbers sig.now contexts.now axis name position room.old result room.new
        out.new }
{
    signature_calls::axis(sig, contexts, axis, name, position, room, out)
}

// The least ordered answer greater than the tuple. out: m, or 0 for none, entry.
#[unsafe(no_mangle)]
pub extern "C" fn ib_ordered_next(
    sig: &[u16],
    twig: &[u16],
    tuple: &[u16],
    room: &mut [u16],
    out: &mut [u64; 2],
) -> u16
    ensures { OrderedNumbers sig.now twig.now tuple.now room.old result room.new
        out.new }
{
    twig_calls::ordered_next(sig, twig, tuple, room, out)
}

// A turn of the ordered question on a lent state: node, entry, stage. out: stop, steps, entry.
#[unsafe(no_mangle)]
pub extern "C" fn ib_fits_turn(
    sig: &[u16],
    twig: &[u16],
    room: &mut [u16],
    state: &mut [u16; 3],
    budget: u64,
    out: &mut [u64; 3],
) -> u16
    ensures { FitsTurnPromise sig.now twig.now room.old state.old budget result
        room.new state.new out.new }
{
    twig_calls::fits_turn(sig, twig, room, state, budget, out)
}

// The start call of preparing. out: the fresh state.
#[unsafe(no_mangle)]
pub extern "C" fn ib_prepare_start(n: u64, table: &mut [u16], out: &mut [u64; 1]) -> u16
    ensures { StartNumbers n table.old result table.new out.new }
{
    twig_calls::prepare_start(n, table, out)
}

// A turn of preparing on a lent state: the next entry. out: stop, steps, entry.
#[unsafe(no_mangle)]
pub extern "C" fn ib_prepare_turn(
    sig: &[u16],
    twig: &[u16],
    table: &mut [u16],
    state: &mut [u16; 1],
    budget: u64,
    out: &mut [u64; 3],
) -> u16
    ensures { PrepareTurnPromise sig.now twig.now table.old state.old budget result
        table.new state.new out.new }
{
    twig_calls::prepare_turn(sig, twig, table, state, budget, out)
}

// The state of a walk that begins.
#[unsafe(no_mangle)]
pub extern "C" fn ib_walk_fresh(state: &mut [u16; 19]) -> u16
    ensures { WalkFreshPromise result state.new }
{
    twig_calls::walk_fresh(state)
}

// A turn of the walk on a lent state: sixteen images, node, candidate, phase. out: stop, steps, entry.
#[unsafe(no_mangle)]
pub extern "C" fn ib_walk_turn(
    sig: &[u16],
    twig: &[u16],
    table: &[u16],
    state: &mut [u16; 19],
    budget: u64,
    out: &mut [u64; 3],
) -> u16
    ensures { WalkTurnPromise sig.now twig.now table.now state.old budget result
        state.new out.new }
{
    twig_calls::walk_turn(sig, twig, table, state, budget, out)
}
