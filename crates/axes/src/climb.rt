// The two axes of ancestors: the way up from an element meets it and its ancestors, the last in document order first.
ghost use Rattle.std.specs.Prelude.{◌≡◌, ◌≤◌, length};
ghost use Rattle.trees.specs.Signature.{entries_of, width};
ghost use Rattle.xpath.specs.Select.{up_to};
ghost use Rattle.xpath.specs.Axes.{chosen};
ghost use Rattle.axes.specs.Kept.{Kept};

use entries::parent;
use marks::{Request, is_named};
use terms::PreRank;

// How many of the elements on the way up from start, which is one of them, pass the name test. From rank 0 there is no way up.
fn count_above(request: &Request, start: u16) -> u16
    requires { start ≤ request.now.tree.n }
    ensures { result ≡ length (up_to request.now.tree.n (chosen 6 request.now.tree.n (entries_of width request.now.tree.sig.now).fa (entries_of width request.now.tree.sig.now).name request.now.name start)) }
{
    let mut met = 0;
    let mut j = start;
    // A `while`, since the climb goes from parent to parent and not from rank to rank.
    while 0 < j {
        met += u16::from(is_named(request.tree.sig, request.name, PreRank(j)));
        j = parent(request.tree.sig, j);
    }
    met
}

// The rank of the p-th element, in document order, that is met on the way up from start and passes the name test; or 0. Above it p - 1 pass, so that
// it is met where what is left of their number falls below p. It answers 0 and no `Option`, as `find_named` does: `Only` says of 0 that there is none.
pub fn find_above(request: &Request, p: u16, start: u16) -> u16
    requires { (1 ≤ p) × (start ≤ request.now.tree.n) }
    ensures { Kept 6 request.now.tree.sig.now request.now.tree.n request.now.name p start result }
{
    let mut left = count_above(request, start);
    let mut j = start;
    // A `while`, since the climb goes from parent to parent and not from rank to rank.
    while p <= left {
        left -= u16::from(is_named(request.tree.sig, request.name, PreRank(j)));
        if left < p {
            return j;
        }
        j = parent(request.tree.sig, j);
    }
    0
}
