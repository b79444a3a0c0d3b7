// Layer 3, tag_writing: signatures written back as tag lists, for data trees and twigs.
#![tactic(auto)]

ghost use Rattle.std.specs.Prelude.{◌≡◌, [], ◌∷◌, ◌*◌, ◌≤◌, length};
ghost use Rattle.trees.specs.Tree.{Tree, size, whole};
ghost use Rattle.trees.specs.Signature.{signature};
ghost use Rattle.bytes_read.specs.Bytes.{low, high};
ghost use Rattle.terms.specs.Room.{front_with, left_by, Leaves};
ghost use Rattle.tag_writing.specs.TagsBack.{back_bytes, ends_at, BackPromise};

use terms::{Fault, Kind, Refusal};

// Writes an `OP` and a name.
fn put_open(tag: &mut [u8], name: u16)
    requires { length tag.old ≡ 4 }
    ensures { tag.new ≡ 79 ∷ 80 ∷ low name ∷ high name ∷ [] }
{
    tag[..2].copy_from_slice(b"OP");
    tag[2..4].copy_from_slice(&name.to_le_bytes());
}

// Whether the innermost open element ends before the next entry.
#[tactic(auto, unfolding(crate::specs::TagsBack::ends_at))]
fn is_ending(sig: &[u16], next: u16, top: u16) -> bool
    ensures { result ≡ ends_at sig.now next top }
{
    0 < top && entries::first_past(sig, top) == next
}

// Writes the tag list of a tree's signature to the front of the room: an element that ends before the next entry closes, else the next entry opens.
// The place is counted by hand: a tag has two bytes or four.
fn write_tags(sig: &[u16], count: usize, room: &mut [u8])
    requires { (count ≤ 4096) × (6 * count ≤ length room.old) × ((t : Tree) × (sig.now ≡ signature t) × (size (whole t) ≡ count)) }
    ensures { room.new ≡ front_with (back_bytes sig.now) room.old }
{
    let mut at: usize = 0;
    let mut opened: u16 = 0;
    let mut top: u16 = 0;
    for _ in 0..2 * count {
        let next = opened + 1;
        if is_ending(sig, next, top) {
            room[at..at + 2].copy_from_slice(b"CL");
            top = entries::parent(sig, top);
            at += 2;
        } else {
            put_open(&mut room[at..at + 4], entries::name(sig, next));
            opened = next;
            top = next;
            at += 4;
        }
    }
}

// Writes the tag list of a tree's signature, if the room is long enough.
fn write_back(sig: &[u16], room: &mut [u8]) -> Result<usize, Refusal>
    requires { (t : Tree) × (sig.now ≡ signature t) × (size (whole t) ≤ 4096) }
    ensures { Leaves (left_by 0 0 (back_bytes sig.now) room.old) result room.new }
{
    let size = sig.len() / 4;
    if room.len() / 6 < size {
        return Err(Fault::NoRoom.into());
    }
    write_tags(sig, size, room);
    Ok(6 * size)
}

// Writes a signature of a kind of tree as a tag list into the room.
pub fn signature_to_tags(kind: Kind, sig: &[u16], room: &mut [u8]) -> Result<usize, Refusal>
    ensures { BackPromise kind sig.now room.old result room.new }
{
    checking::check_whole(kind, sig)?;
    write_back(sig, room)
}
