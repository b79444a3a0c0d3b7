// Layer 5, one_pass: an axis of many contexts with no position, in a fixed number of passes over the entries. What a pass carries along is told in
// `xpath/specs/Spread`. Each pass takes the tree, the marks that it starts from and those that it sets as three: of a struct that lends them each clause would
// speak by two steps, as `pass.old.found.now`, which is no plainer. Why loops go over `1..n + 1` stands in `carried`, and indices widen by `as` (docs/DECISIONS).
#![tactic(auto)]

ghost use Rattle.std.specs.Prelude.{false, ◌&&◌};
ghost use Rattle.trees.specs.Signature.{entries_of, width};
ghost use Rattle.trees.specs.Names.{passes};
ghost use Rattle.xpath.specs.Axes.{in_answer};
ghost use Rattle.xpath.specs.Spread.{is_context};
ghost use Rattle.marks.specs.Axis.{axis_number, AxisPromise};
ghost use Rattle.marks.specs.Marks.{marked, Marks, Marked};
ghost use Rattle.one_pass.specs.Reached.{reached};

mod carried;
mod handed;

use blocks::Accepted;
use carried::{mark_above, mark_below, mark_following, mark_preceding};
use handed::{mark_children, mark_earlier, mark_later, mark_parents};
use marks::{Axis, RankMarks, Request, is_named, write_ranks};
use terms::{PreRank, Refusal};

// Marks the contexts, where nothing has a mark.
fn mark_contexts(request: &Request, from: &mut RankMarks)
    requires { Marks request.now.tree.n (λ j. false) from.old }
    ensures { Marks request.now.tree.n (is_context request.now.contexts.now) from.new }
{
    for c in request.contexts {
        from[*c as usize] = true;
    }
}

// Marks the elements of the first marks, beside the marks that are there.
fn mark_same(tree: &Accepted, from: &RankMarks, found: &mut RankMarks)
    ensures { Marked tree.now.n (marked from.now) found.old found.new }
{
    for j in 1..tree.n as usize + 1 {
        found[j] |= from[j];
    }
}

// Marks what is on the axis of one of the elements, where nothing has a mark.
fn mark_axis(request: &Request, from: &RankMarks, found: &mut RankMarks)
    requires { Marks request.now.tree.n (λ j. false) found.old }
    ensures { Marks request.now.tree.n (reached (axis_number request.now.axis) request.now.tree.sig.now request.now.tree.n from.now) found.new }
{
    let tree = &request.tree;
    // A match over the axes and no table of closures, which is longer: two of the arms are two passes.
    match request.axis {
        Axis::Itself => mark_same(tree, from, found),
        Axis::Child => mark_children(tree, from, found),
        Axis::Descendant => mark_below(tree, from, found),
        Axis::DescendantOrSelf => {
            mark_below(tree, from, found);
            mark_same(tree, from, found);
        }
        Axis::Parent => mark_parents(tree, from, found),
        Axis::Ancestor => mark_above(tree, from, found),
        Axis::AncestorOrSelf => {
            mark_above(tree, from, found);
            mark_same(tree, from, found);
        }
        Axis::Following => mark_following(tree, from, found),
        Axis::Preceding => mark_preceding(tree, from, found),
        Axis::FollowingSibling => mark_later(tree, from, found),
        Axis::PrecedingSibling => mark_earlier(tree, from, found),
    }
}

// Keeps the marks of those elements whose names pass the test.
fn keep_named(request: &Request, found: &mut RankMarks)
    ensures { Marks request.now.tree.n (λ j. marked found.old j && passes request.now.name ((entries_of width request.now.tree.sig.now).name j)) found.new }
{
    let sig = request.tree.sig;
    let name = request.name;
    for j in 1..request.tree.n + 1 {
        let at = j as usize;
        found[at] = found[at] && is_named(sig, name, PreRank(j));
    }
}

// Marks the answer, where nothing has a mark. The marks that the passes start from are a fixed array: the library has no heap.
fn mark_union(request: &Request, found: &mut RankMarks)
    requires { Marks request.now.tree.n (λ j. false) found.old }
    ensures { Marks request.now.tree.n (in_answer (axis_number request.now.axis) request.now.tree.n (entries_of width request.now.tree.sig.now).fa (entries_of width request.now.tree.sig.now).name request.now.name 0 request.now.contexts.now) found.new }
{
    let mut from = [false; 4097];
    mark_contexts(request, &mut from);
    mark_axis(request, &from, found);
    keep_named(request, found);
}

// The elements on an axis of the contexts, with no position. The promise is that of `axes::axis` with position 0.
// The axis is a number, as in `axes::axis`: the 8 for one over 10 has its place in the order of refusals.
pub fn axis_without_position(
    sig: &[u16],
    contexts: &[u16],
    axis: u16,
    name: u16,
    room: &mut [u16],
) -> Result<usize, Refusal>
    ensures { AxisPromise sig.now contexts.now axis name 0 room.old result room.new }
{
    let request = Request::judge(sig, contexts, axis, name)?;
    let mut marks = [false; 4097];
    mark_union(&request, &mut marks);
    write_ranks(request.tree.n, &marks, room)
}
