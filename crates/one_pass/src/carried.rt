// Passes that carry one number along: below and following from the first entry up, above and preceding from the last one down. They stay four, each a `for` of
// three lines: one pass with a closure for what is carried, one for the test and a direction is longer.
ghost use Rattle.std.specs.Prelude.{◌≡◌};
ghost use Rattle.xpath.specs.Spread.{raised_to, lowered_to};
ghost use Rattle.marks.specs.Marks.{Marked};
ghost use Rattle.one_pass.specs.Reached.{reached};

use blocks::Accepted;
use entries::first_past;
use marks::RankMarks;

// The greater of two numbers where the mark is set, else the first.
fn raised(mark: bool, x: u16, y: u16) -> u16
    ensures { result ≡ raised_to mark x y }
{
    if mark { x.max(y) } else { x }
}

// The lesser of two numbers where the mark is set, else the first.
fn lowered(mark: bool, x: u16, y: u16) -> u16
    ensures { result ≡ lowered_to mark x y }
{
    if mark { x.min(y) } else { x }
}

// Marks what lies below an element: the greatest ff of the elements before j is above j. The loops are over
// `1..n + 1`, since the last turn of one over `1..=n` is a goal of its own, which was tried and did not close.
pub fn mark_below(tree: &Accepted, from: &RankMarks, found: &mut RankMarks)
    ensures { Marked tree.now.n (reached 2 tree.now.sig.now tree.now.n from.now) found.old found.new }
{
    let sig = tree.sig;
    let mut reach = 0;
    for j in 1..tree.n + 1 {
        let at = j as usize;
        found[at] |= j < reach;
        reach = raised(from[at], reach, first_past(sig, j));
    }
}

// Marks what follows an element: the least ff of the elements before j is at most j.
pub fn mark_following(tree: &Accepted, from: &RankMarks, found: &mut RankMarks)
    ensures { Marked tree.now.n (reached 7 tree.now.sig.now tree.now.n from.now) found.old found.new }
{
    let sig = tree.sig;
    let mut past = u16::MAX;
    for j in 1..tree.n + 1 {
        let at = j as usize;
        let own = first_past(sig, j);
        found[at] |= past <= j;
        past = lowered(from[at], past, own);
    }
}

// Marks what has an element below it: the next element after j lies before the ff of j.
pub fn mark_above(tree: &Accepted, from: &RankMarks, found: &mut RankMarks)
    ensures { Marked tree.now.n (reached 5 tree.now.sig.now tree.now.n from.now) found.old found.new }
{
    let sig = tree.sig;
    let mut next = u16::MAX;
    for j in (1..tree.n + 1).rev() {
        let at = j as usize;
        found[at] |= next < first_past(sig, j);
        next = lowered(from[at], next, j);
    }
}

// Marks what an element follows: the last element is at or past the ff of j.
pub fn mark_preceding(tree: &Accepted, from: &RankMarks, found: &mut RankMarks)
    ensures { Marked tree.now.n (reached 8 tree.now.sig.now tree.now.n from.now) found.old found.new }
{
    let sig = tree.sig;
    let mut last = 0;
    for j in (1..tree.n + 1).rev() {
        let at = j as usize;
        let past = first_past(sig, j);
        found[at] |= past <= last;
        last = raised(from[at], last, j);
    }
}
