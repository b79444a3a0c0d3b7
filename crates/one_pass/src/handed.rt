// Passes that hand marks from an element to its parent, or from a parent to its children.
ghost use Rattle.std.specs.Prelude.{◌≡◌, false, not, ◌&&◌, ◌≤◌, eqb};
ghost use Rattle.marks.specs.Marks.{marked, Marks, Marked};
ghost use Rattle.one_pass.specs.Reached.{reached};

use blocks::Accepted;
use entries::parent;
use marks::RankMarks;

// Whether there is a parent and it has a mark.
fn is_marked_above(marks: &RankMarks, up: u16) -> bool
    requires { up ≤ 4096 }
    ensures { result ≡ (not (eqb up 0) && marked marks.now up) }
{
    (up != 0) & marks[up as usize]
}

// Marks the children of an element: the parent of j has a mark.
pub fn mark_children(tree: &Accepted, from: &RankMarks, found: &mut RankMarks)
    ensures { Marked tree.now.n (reached 1 tree.now.sig.now tree.now.n from.now) found.old found.new }
{
    let sig = tree.sig;
    for j in 1..tree.n + 1 {
        let up = parent(sig, j);
        found[j as usize] |= is_marked_above(from, up);
    }
}

// Marks the parents of the elements, where nothing has a mark.
pub fn mark_parents(tree: &Accepted, from: &RankMarks, found: &mut RankMarks)
    requires { Marks tree.now.n (λ j. false) found.old }
    ensures { Marks tree.now.n (reached 4 tree.now.sig.now tree.now.n from.now) found.new }
{
    let sig = tree.sig;
    for j in 1..tree.n + 1 {
        let up = parent(sig, j);
        found[up as usize] |= from[j as usize];
    }
}

// Marks the siblings that come after an element: an element seen before j handed its mark to their parent.
pub fn mark_later(tree: &Accepted, from: &RankMarks, found: &mut RankMarks)
    ensures { Marked tree.now.n (reached 9 tree.now.sig.now tree.now.n from.now) found.old found.new }
{
    let sig = tree.sig;
    let mut seen = [false; 4097];
    for j in 1..tree.n + 1 {
        let at = j as usize;
        let up = parent(sig, j);
        found[at] |= is_marked_above(&seen, up);
        seen[up as usize] |= from[at];
    }
}

// Marks the siblings that come before an element: the same from the last entry down. The two stay two: one loop for both would go over
// an iterator that its caller picks, and its contract would have to say what that gives.
pub fn mark_earlier(tree: &Accepted, from: &RankMarks, found: &mut RankMarks)
    ensures { Marked tree.now.n (reached 10 tree.now.sig.now tree.now.n from.now) found.old found.new }
{
    let sig = tree.sig;
    let mut seen = [false; 4097];
    for j in (1..tree.n + 1).rev() {
        let at = j as usize;
        let up = parent(sig, j);
        found[at] |= is_marked_above(&seen, up);
        seen[up as usize] |= from[at];
    }
}
