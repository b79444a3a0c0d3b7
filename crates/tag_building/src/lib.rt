// Layer 3, tag_building: the tags of a list judged and built into a signature, which is given where the room is long enough.
#![tactic(auto)]

ghost use Rattle.std.specs.Prelude.{◌≡◌, ◌+◌, ◌*◌, ◌≤◌, length};
ghost use Rattle.trees.specs.Signature.{width};
ghost use Rattle.terms.specs.Faults.{tested};
ghost use Rattle.bytes_read.specs.Bytes.{number_at};
ghost use Rattle.tag_building.specs.Filled.{FilledPromise, BuiltPromise};
ghost use Rattle.tag_building.specs.Builds.{open_room, close_room, parent_in};

use bytes_read::is_marked;
use tag_scan::{Cursor, Limits};
use terms::{Fault, Kind, give};

// What reading came to, refused or not: the place where it stopped, the elements read, and its fault.
#[derive(Clone, Copy)]
pub struct Judged {
    pub at: usize,
    pub count: u16,
    pub verdict: Result<(), Fault>,
}

// The name of an element that opens at a place, where its record is not cut. `number_at` takes every place, and would test again what the tag's test has judged.
fn name_at(bytes: &[u8], at: usize) -> u16
    requires { at + 4 ≤ length bytes.now }
    ensures { result ≡ number_at bytes.now (at + 2) }
{
    u16::from_le_bytes([bytes[at + 2], bytes[at + 3]])
}

// The entry of an element that opens after size others. The numbers built are lent to it and to `close_entry`, and no struct holds them: the loop would hold
// that over its own reads.
fn open_entry(own: &mut [u16], size: u16, name: u16, top: u16)
    requires { 4 * size + 4 ≤ length own.old }
    ensures { own.new ≡ open_room own.old size name top }
{
    let at = 4 * usize::from(size);
    own[at..at + 4].copy_from_slice(&[name, 0, 0, top]);
}

// The entry of an element that closes gets its post and ff; what is given is its parent. Numbers that are too few for it are left alone, so that the
// building loop need not carry this bound.
#[tactic(auto, unfolding(crate::specs::Builds::close_room, crate::specs::Builds::parent_in))]
fn close_entry(own: &mut [u16], top: u16, post: u16, ff: u16) -> u16
    ensures { (result ≡ parent_in own.old top) × (own.new ≡ close_room own.old top post ff) }
{
    let end = 4 * usize::from(top);
    if end == 0 || own.len() < end {
        return 0;
    }
    let up = own[end - 1];
    own[end - 3] = post;
    own[end - 2] = ff;
    up
}

// Judges the tags from a place on, to the end of the bytes or to the close of the root, and builds the signature of those that it has passed in numbers of
// the reader's own.
fn build_tree(limits: Limits, bytes: &[u8], whole: bool, from: usize, own: &mut [u16]) -> Judged
    requires { (limits.most ≤ 4096) × (width * limits.most ≤ length own.old) }
    ensures { BuiltPromise «whole» limits.any_name limits.most bytes.now from own.old (tested result.verdict) result.at result.count own.new }
{
    let mut cursor = Cursor {
        at: from,
        depth: 0,
        count: 0,
    };
    let mut top: u16 = 0;
    // No `for`: the place moves on by two or four bytes, up to the close of the root or to the first faulty tag. Whether the tree is read is asked only where
    // an element has closed, since no other tag ends it.
    loop {
        let Cursor { at, depth, count } = cursor;
        let verdict = cursor.test_tag(bytes, limits);
        if verdict.is_err() {
            return Judged { at, count, verdict };
        }
        if is_marked(bytes, at, b"OP") {
            open_entry(own, count, name_at(bytes, at), top);
            top = count + 1;
            cursor = Cursor {
                at: at + 4,
                depth: depth + 1,
                count: count + 1,
            };
        } else {
            top = close_entry(own, top, count - depth + 1, count + 1);
            cursor = Cursor {
                at: at + 2,
                depth: depth - 1,
                count,
            };
            if cursor.is_tree_end(bytes, whole) {
                return Judged {
                    at: at + 2,
                    count,
                    verdict: Ok(()),
                };
            }
        }
    }
}

// Reads one tree from a place on, to the end of the bytes or to the close of its root. It builds the signature beside the room, so that a refusal at any tag
// leaves the room alone.
pub fn read_tags(kind: Kind, bytes: &[u8], whole: bool, from: usize, room: &mut [u16]) -> Judged
    ensures { FilledPromise «whole» kind bytes.now from room.old (tested result.verdict) result.at (4 * result.count) room.new }
{
    let limits = Limits::from(kind);
    // The project has no heap: here stand the numbers of the largest tree, four to an element.
    let mut own = [0u16; 16384];
    let built = build_tree(limits, bytes, whole, from, &mut own);
    if built.verdict.is_err() {
        return built;
    }
    let verdict = give(&own[..4 * usize::from(built.count)], room);
    Judged { verdict, ..built }
}
