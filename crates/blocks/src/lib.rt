// Layer 4, blocks: the level of an entry, and its block.
#![tactic(auto)]

mod accepted;

ghost use Rattle.std.specs.Prelude.{◌≡◌, ◌≤◌};
ghost use Rattle.xpath.specs.Axes.{level_of};
ghost use Rattle.trees.specs.Signature.{entries_of, width};
ghost use Rattle.blocks.specs.Checked.{is_rank};
ghost use Rattle.blocks.specs.Level.{level_told, level_within, LevelPromise};
ghost use Rattle.blocks.specs.Block.{place_told, place_within, PlacePromise, BlockPromise};

pub use accepted::Accepted;
use entries::{first_past, parent};
use terms::{Fault, PreRank, Refusal};

// Whether i is a rank of n entries.
fn is_rank(n: u16, i: u16) -> bool
    ensures { result ≡ is_rank n i }
{
    (1 <= i) & (i <= n)
}

// How many steps lead from an entry up to the root.
fn climb(tree: &Accepted, start: u16) -> u16
    requires { (1 ≤ start) × (start ≤ tree.now.n) }
    ensures { result ≡ level_of tree.now.n (entries_of width tree.now.sig.now).fa start }
{
    let mut up = parent(tree.sig, start);
    let mut level = 0;
    // A `while`, since the climb goes from parent to parent and not from rank to rank.
    while 0 < up {
        up = parent(tree.sig, up);
        level += 1;
    }
    level
}

// The level of an entry of a signature that was accepted.
fn level_within(tree: &Accepted, i: u16) -> Result<u16, Refusal>
    ensures { level_told result ≡ level_within tree.now.sig.now i }
{
    if !is_rank(tree.n, i) {
        return Err(Fault::BadArgument.into());
    }
    Ok(climb(tree, i))
}

// How many ancestors an entry has.
pub fn level(sig: &[u16], rank: PreRank) -> Result<u16, Refusal>
    ensures { LevelPromise sig.now rank.0 result }
{
    let tree = Accepted::check(sig)?;
    level_within(&tree, rank.0)
}

// Where the block of an entry lies in a signature that was accepted.
fn place_within(tree: &Accepted, i: u16) -> Result<(usize, usize), Refusal>
    ensures { place_told result ≡ place_within tree.now.sig.now i }
{
    if !is_rank(tree.n, i) {
        return Err(Fault::BadArgument.into());
    }
    let first = usize::from(i);
    let past = usize::from(first_past(tree.sig, i));
    Ok((4 * (first - 1), 4 * (past - first)))
}

// Where the block of an entry lies: entries i to ff-1.
pub fn block_place(sig: &[u16], rank: PreRank) -> Result<(usize, usize), Refusal>
    ensures { PlacePromise sig.now rank.0 result }
{
    let tree = Accepted::check(sig)?;
    place_within(&tree, rank.0)
}

// The block of an entry: that part of the lent numbers, with no copy. Refused, it is empty; block_place says why.
pub fn block<'a>(sig: &'a [u16], rank: PreRank) -> &'a [u16]
    ensures { BlockPromise sig.now rank.0 result.now }
{
    let Ok((first, count)) = block_place(sig, rank) else {
        return &[];
    };
    let end = first + count;
    &sig[first..end]
}
