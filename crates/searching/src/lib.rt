// Layer 5, searching: the p-th element, among the ranks of a range, whose name passes a test.
#![tactic(auto)]

ghost use Rattle.trees.specs.Signature.{entries_of, width};
ghost use Rattle.xpath.specs.Axes.{pth};
ghost use Rattle.searching.specs.Only.{Only, named_after};

use marks::is_named;
use terms::PreRank;

// The rank of the p-th element after one rank, up to another, whose name passes the test; or 0. There is no element with position 0. It answers 0 and no
// `Option`, because `Only` says of 0 that there is none.
pub fn find_named(sig: &[u16], test: u16, p: u16, after: u16, last: u16) -> u16
    ensures { Only last (pth 0 p (named_after after test (entries_of width sig.now).name)) result }
{
    let mut met = 0;
    for before in after..last {
        let named = is_named(sig, test, PreRank(before + 1));
        met += u16::from(named);
        if named & (met == p) {
            return before + 1;
        }
    }
    0
}
