// Layer 2, entries: the numbers of an entry, for every caller and every rank.
#![tactic(auto)]

ghost use Rattle.std.specs.Prelude.{◌≡◌, ◌∷◌, get_or};
ghost use Rattle.trees.specs.Names.{passes};
ghost use Rattle.trees.specs.Signature.{cell, entries_of, width};

use terms::PreRank;

// The number at a place, or 0 past the end.
fn number_or_zero(sig: &[u16], at: usize) -> u16
    ensures { result ≡ get_or sig.now at 0 }
{
    sig.get(at).copied().unwrap_or(0)
}

// Number k of entry i for every caller: 0 past the end of the signature, and rank 0 reads as rank 1, so that every number may be handed in.
// k is no enum: the clause speaks of every k.
pub fn entry_number(sig: &[u16], i: PreRank, k: u16) -> u16
    ensures { result ≡ cell width sig.now i.0 k }
{
    let rank = i.0 as usize;
    if rank == 0 {
        number_or_zero(sig, k as usize)
    } else {
        number_or_zero(sig, 4 * (rank - 1) + (k as usize))
    }
}

// The name of entry i.
pub fn name(sig: &[u16], i: u16) -> u16
    ensures { result ≡ (entries_of width sig.now).name i }
{
    entry_number(sig, PreRank(i), 0)
}

// The first rank after entry i that is not below it, or n+1: its ff.
pub fn first_past(sig: &[u16], i: u16) -> u16
    ensures { result ≡ (entries_of width sig.now).ff i }
{
    entry_number(sig, PreRank(i), 2)
}

// The parent of entry i, or 0: its fa.
pub fn parent(sig: &[u16], i: u16) -> u16
    ensures { result ≡ (entries_of width sig.now).fa i }
{
    entry_number(sig, PreRank(i), 3)
}

// Whether an entry's name passes for one that is wanted, where 0 asks for any name.
pub fn is_passing(wanted: u16, name: u16) -> bool
    ensures { result ≡ passes wanted name }
{
    (wanted == 0) | (wanted == name)
}

// Number i of a list that is counted from 1, or 0 outside it.
// It answers 0 and no `Option`, as its clause says.
pub fn listed(list: &[u16], i: u16) -> u16
    ensures { result ≡ get_or (0 ∷ list.now) i 0 }
{
    if i == 0 {
        return 0;
    }
    number_or_zero(list, usize::from(i) - 1)
}
