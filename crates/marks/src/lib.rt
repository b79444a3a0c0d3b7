// Layer 4, marks: what every axis call begins and ends with. Its arguments are judged, and the ranks that have a mark are written.
#![tactic(auto)]

mod axis_numbers;
mod request;

ghost use Rattle.std.specs.Prelude.{◌≡◌, ◌&&◌, ◌≤◌, length};
ghost use Rattle.trees.specs.Names.{passes};
ghost use Rattle.xpath.specs.Select.{up_to, rises, within};
ghost use Rattle.xpath.specs.SelectLaws.{front};
ghost use Rattle.trees.specs.Signature.{entries_of, width};
ghost use Rattle.terms.specs.Room.{room_for, Leaves};
ghost use Rattle.marks.specs.Axis.{fine_by_number};
ghost use Rattle.marks.specs.Marks.{marked, numbered, lesser};

pub use axis_numbers::Axis;
use entries::name;
pub use request::Request;
use terms::{Fault, PreRank, Refusal};

// A mark for each rank from 1 to 4,096, in the place of that number. It is a fixed array, since the library has no heap.
pub type RankMarks = [bool; 4097];

// Whether the contexts are ranks of n entries, strictly ascending.
// No `all`: the rank before is carried along.
fn is_ascending(n: u16, contexts: &[u16]) -> bool
    ensures { result ≡ (within n contexts.now && rises contexts.now) }
{
    let mut last = 0;
    for c in contexts {
        if *c <= last || n < *c {
            return false;
        }
        last = *c;
    }
    true
}

// The axis with this number, where an axis call has no argument that is refused. The axis is a number, since C hands in any, and the 8 for one over 10 has its
// place in the order of refusals.
pub fn fine_axis(n: u16, contexts: &[u16], axis: u16) -> Result<Axis, Fault>
    ensures { result ≡ fine_by_number axis n contexts.now }
{
    let axis = Axis::try_from(axis)?;
    if !is_ascending(n, contexts) {
        return Err(Fault::BadArgument);
    }
    Ok(axis)
}

// How many of the ranks 1 to n have a mark. The loop is over `1..n + 1`, since the last turn of one over `1..=n` is a goal of its own, which was tried and did
// not close.
fn count_marks(n: u16, marks: &RankMarks) -> usize
    requires { n ≤ 4096 }
    ensures { result ≡ length (up_to n (marked marks.now)) }
{
    let mut count = 0;
    for j in 1..n as usize + 1 {
        count += usize::from(marks[j]);
    }
    count
}

// Writes the ranks that have a mark to the front of the room.
// The place is counted by hand, and comes to what `count_marks` counts.
fn write_marks(n: u16, marks: &RankMarks, room: &mut [u16])
    requires { (n ≤ 4096) × (length (up_to n (marked marks.now)) ≤ length room.old) }
    ensures { room.new ≡ front (up_to n (marked marks.now)) room.old }
{
    let mut at = 0;
    for j in 1..n + 1 {
        if marks[j as usize] {
            room[at] = j;
            at += 1;
        }
    }
}

// Whether the name of an entry passes a name test. Name 0 asks for any name, and then none is read: a search of many ranks took three times as long with the read.
#[tactic(auto, unfolding(trees::specs::Names::passes))]
pub fn is_named(sig: &[u16], test: u16, rank: PreRank) -> bool
    ensures { result ≡ passes test ((entries_of width sig.now).name rank.0) }
{
    test == 0 || test == name(sig, rank.0)
}

// Writes those of the ranks 1 to n, and to 4,096 at most, that have a mark to the front of the room, or refuses a room that is too small.
pub fn write_ranks(n: u16, marks: &RankMarks, room: &mut [u16]) -> Result<usize, Refusal>
    ensures { Leaves (room_for room.old (up_to (lesser n 4096) (marked marks.now))) result room.new }
{
    let last = n.min(4096);
    let count = count_marks(last, marks);
    if room.len() < count {
        return Err(Fault::NoRoom.into());
    }
    write_marks(last, marks, room);
    Ok(count)
}

// The same for a caller whose marks are numbers: 1 is a mark, and every other number is none. It stays, since its promise is of numbers (docs/PROMISES).
pub fn write_marked(n: u16, marks: &[u8; 4097], room: &mut [u16]) -> Result<usize, Refusal>
    ensures { Leaves (room_for room.old (up_to (lesser n 4096) (numbered marks.now))) result room.new }
{
    let are_set = marks.map(|mark| mark == 1);
    write_ranks(n, &are_set, room)
}
