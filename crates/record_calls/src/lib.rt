// Layer 6, record_calls: the calls on signature records and tag lists, on bare numbers.
// Kinds and axes are numbers, and states and out arrays of a fixed length: C hands them in so.
#![tactic(auto)]

ghost use Rattle.record_calls.specs.Records.{ReadNumbers, WriteNumbers, TagsNumbers, BackNumbers};

use telling::tell;
use terms::Kind;

// Signature records to numbers. out: numbers written, 0.
pub fn read_records(bytes: &[u8], room: &mut [u16], out: &mut [u64; 2]) -> u16
    ensures { ReadNumbers bytes.now room.old result room.new out.new }
{
    tell(records::read_records(bytes, room), out)
}

// A signature to signature records. out: bytes written, 0.
pub fn write_records(sig: &[u16], room: &mut [u8], out: &mut [u64; 2]) -> u16
    ensures { WriteNumbers sig.now room.old result room.new out.new }
{
    tell(record_writing::write_records(sig, room), out)
}

// A tag list to a signature. out: numbers written, 0.
pub fn tags_to_signature(kind: u16, bytes: &[u8], room: &mut [u16], out: &mut [u64; 2]) -> u16
    ensures { TagsNumbers kind bytes.now room.old result room.new out.new }
{
    tell(
        tag_lists::tags_to_signature(Kind::from(kind), bytes, room),
        out,
    )
}

// A signature back to its tag list. out: bytes written, entry.
pub fn signature_to_tags(kind: u16, sig: &[u16], room: &mut [u8], out: &mut [u64; 2]) -> u16
    ensures { BackNumbers kind sig.now room.old result room.new out.new }
{
    tell(
        tag_writing::signature_to_tags(Kind::from(kind), sig, room),
        out,
    )
}
