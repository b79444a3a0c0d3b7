// Layer 3, tag_lists: tag lists read into signatures, for data trees and twigs.
#![tactic(auto)]

ghost use Rattle.tag_lists.specs.Readers.{TagsPromise, TreePromise};

use tag_building::read_tags;
use terms::{Kind, Refusal};

// Reads one tree of a kind from a place of the bytes on into the room, and says where it ended.
pub fn read_tree(
    kind: Kind,
    bytes: &[u8],
    from: usize,
    room: &mut [u16],
) -> Result<(usize, usize), Refusal>
    ensures { TreePromise kind bytes.now from room.old result room.new }
{
    let tree = read_tags(kind, bytes, false, from, room);
    tree.verdict?;
    Ok((4 * usize::from(tree.count), tree.at))
}

// Reads one whole tag list of a kind of tree into the room.
pub fn tags_to_signature(kind: Kind, bytes: &[u8], room: &mut [u16]) -> Result<usize, Refusal>
    ensures { TagsPromise kind bytes.now room.old result room.new }
{
    let list = read_tags(kind, bytes, true, 0, room);
    list.verdict?;
    Ok(4 * usize::from(list.count))
}
