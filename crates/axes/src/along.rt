// Searches that go from one rank on: along a row of siblings, and over all that comes before a context.
ghost use Rattle.std.specs.Prelude.{◌&&◌, ◌≤◌};
ghost use Rattle.trees.specs.Names.{passes};
ghost use Rattle.trees.specs.Signature.{entries_of, width};
ghost use Rattle.xpath.specs.Axes.{kept};
ghost use Rattle.searching.specs.Only.{Only};
ghost use Rattle.axes.specs.Row.{in_row, Row};
ghost use Rattle.axes.specs.Kept.{Kept};

use entries::first_past;
use marks::{Request, is_named};
use terms::PreRank;

// The rank of the p-th element of a row, after one rank, up to another, whose name passes the test; or 0. From each element its ff leads to the next one.
// It answers 0 and no `Option`, as `find_named` does: `Only` says of 0 that there is none.
pub fn find_row(request: &Request, p: u16, up: u16, after: u16, last: u16) -> u16
    requires { (1 ≤ p) × Row request.now.tree.n (entries_of width request.now.tree.sig.now) up after last }
    ensures { Only request.now.tree.n (kept 1 p (λ j. in_row (entries_of width request.now.tree.sig.now) up after last j && passes request.now.name ((entries_of width request.now.tree.sig.now).name j))) result }
{
    let mut met = 0;
    let mut j = after;
    // A `while`, since the search goes from an element past its whole block and not from rank to rank.
    while j < last {
        j += 1;
        met += u16::from(is_named(request.tree.sig, request.name, PreRank(j)));
        if met == p {
            return j;
        }
        j = first_past(request.tree.sig, j) - 1;
    }
    0
}

// The rank of the p-th element that precedes the context c and passes the name test; or 0. What comes before c and is none of its ancestors ends before it.
// It answers 0 and no `Option`, as `find_named` does: `Only` says of 0 that there is none. The loop is over `1..c + 1`, since the last turn of one over `1..=c`
// is a goal of its own, which was tried and did not close.
pub fn find_before(request: &Request, p: u16, c: u16) -> u16
    requires { (1 ≤ p) × (1 ≤ c) × (c ≤ request.now.tree.n) }
    ensures { Kept 8 request.now.tree.sig.now request.now.tree.n request.now.name p c result }
{
    let mut met = 0;
    for j in 1..c + 1 {
        let past = first_past(request.tree.sig, j);
        met += u16::from((past <= c) & is_named(request.tree.sig, request.name, PreRank(j)));
        if met == p {
            return j;
        }
    }
    0
}
