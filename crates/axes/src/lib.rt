// Layer 6, axes: the eleven axes with name test and position. Without a position they are taken in one pass; with one, each context is counted by itself.
#![tactic(auto)]

mod along;
mod climb;

ghost use Rattle.std.specs.Prelude.{false, ◌≤◌};
ghost use Rattle.trees.specs.Signature.{entries_of, width};
ghost use Rattle.xpath.specs.Axes.{in_answer};
ghost use Rattle.marks.specs.Axis.{axis_number, AxisPromise};
ghost use Rattle.marks.specs.Marks.{Marks};
ghost use Rattle.axes.specs.Kept.{Kept};

use along::{find_before, find_row};
use climb::find_above;
use entries::{first_past, parent};
use marks::{Axis, RankMarks, Request, write_ranks};
use one_pass::axis_without_position;
use searching::find_named;
use terms::Refusal;

// The rank of the element that is kept for the context c, or 0. Where all ranks of a range are on the axis, only the name is asked for; the ancestors of an
// element are what is met on the way up from its parent. It answers 0 and no `Option`, as `find_named` does: `Only` says of 0 that there is none.
fn find_kept(request: &Request, p: u16, c: u16) -> u16
    requires { (1 ≤ p) × (1 ≤ c) × (c ≤ request.now.tree.n) }
    ensures { Kept (axis_number request.now.axis) request.now.tree.sig.now request.now.tree.n request.now.name p c result }
{
    let sig = request.tree.sig;
    let name = request.name;
    let before = c - 1;
    let up = parent(sig, c);
    let last = first_past(sig, c) - 1;
    // A match over the axes and no table of closures, which is longer: each arm takes other arguments.
    match request.axis {
        Axis::Itself => find_named(sig, name, p, before, c),
        Axis::Child => find_row(request, p, c, c, last),
        Axis::Descendant => find_named(sig, name, p, c, last),
        Axis::DescendantOrSelf => find_named(sig, name, p, before, last),
        Axis::Parent => find_named(sig, name, p, up.saturating_sub(1), up),
        Axis::Ancestor => find_above(request, p, up),
        Axis::AncestorOrSelf => find_above(request, p, c),
        Axis::Following => find_named(sig, name, p, last, request.tree.n),
        Axis::Preceding => find_before(request, p, c),
        Axis::FollowingSibling => find_row(request, p, up, last, first_past(sig, up) - 1),
        Axis::PrecedingSibling => find_row(request, p, up, up, before),
    }
}

// Marks what is kept for one of the contexts, where nothing has a mark. Rank 0 is no element, so that its mark says nothing.
fn mark_each(request: &Request, p: u16, marks: &mut RankMarks)
    requires { (1 ≤ p) × Marks request.now.tree.n (λ j. false) marks.old }
    ensures { Marks request.now.tree.n (in_answer (axis_number request.now.axis) request.now.tree.n (entries_of width request.now.tree.sig.now).fa (entries_of width request.now.tree.sig.now).name request.now.name p request.now.contexts.now) marks.new }
{
    for c in request.contexts {
        let at = find_kept(request, p, *c) as usize;
        marks[at] = true;
    }
}

// What an axis call with a position answers and leaves. Each contract from here down to the searches asks `1 ≤ p` for itself: p is a number of C, of which 0
// stands for no position, and `axis` alone shows that it is not 0. The marks are a fixed array: the library has no heap.
fn axis_with_position(
    sig: &[u16],
    contexts: &[u16],
    axis: u16,
    name: u16,
    position: u16,
    room: &mut [u16],
) -> Result<usize, Refusal>
    requires { 1 ≤ position }
    ensures { AxisPromise sig.now contexts.now axis name position room.old result room.new }
{
    let request = Request::judge(sig, contexts, axis, name)?;
    let mut marks = [false; 4097];
    mark_each(&request, position, &mut marks);
    write_ranks(request.tree.n, &marks, room)
}

// The elements on an axis of the contexts, a list of ranks as elements open. Name 0 asks for any name, position 0 for none.
// The answer is written to the front of the room, ascending, each rank once. The axis is a number, as C hands it in: the 8 for one over 10 has its place in
// the order of refusals.
pub fn axis(
    sig: &[u16],
    contexts: &[u16],
    axis: u16,
    name: u16,
    position: u16,
    room: &mut [u16],
) -> Result<usize, Refusal>
    ensures { AxisPromise sig.now contexts.now axis name position room.old result room.new }
{
    if position == 0 {
        return axis_without_position(sig, contexts, axis, name, room);
    }
    axis_with_position(sig, contexts, axis, name, position, room)
}
