// Layer 3, record_writing: signature records, written from signatures of data trees.
#![tactic(auto)]

ghost use Rattle.std.specs.Prelude.{◌≡◌, ◌==◌, [], ◌*◌, ◌≤◌, length, slice_index};
ghost use Rattle.std.specs.List.{list_any, range_with_len};
ghost use Rattle.trees.specs.Signature.{width};
ghost use Rattle.terms.specs.Faults.{tested};
ghost use Rattle.terms.specs.Room.{front_with};
ghost use Rattle.records.specs.Records.{entry_bytes, bytes_from, write_fault, WritePromise};

use terms::{Fault, Kind, Refusal};

// Writes one signature record.
fn put_record(record: &mut [u8], name: u16, post: u16, ff: u16, fa: u16)
    requires { length record.old ≡ 10 }
    ensures { record.new ≡ entry_bytes name post ff fa [] }
{
    record[..2].copy_from_slice(b"SE");
    record[2..4].copy_from_slice(&name.to_le_bytes());
    record[4..6].copy_from_slice(&post.to_le_bytes());
    record[6..8].copy_from_slice(&ff.to_le_bytes());
    record[8..10].copy_from_slice(&fa.to_le_bytes());
}

// Whether one of the first size entries has name 0.
fn has_nameless(sig: &[u16], size: usize) -> bool
    requires { width * size ≤ length sig.now }
    ensures { result ≡ list_any (λ i. slice_index sig.now (4 * i) == 0) (range_with_len 0 size) }
{
    (0..size).any(|i| sig[4 * i] == 0)
}

// Writes the records of the first size entries to the front of the room.
fn fill_records(sig: &[u16], size: usize, room: &mut [u8])
    requires { (width * size ≤ length sig.now) × (10 * size ≤ length room.old) }
    ensures { room.new ≡ front_with (bytes_from sig.now 0 size) room.old }
{
    for i in 0..size {
        let k = 4 * i;
        let record = &mut room[10 * i..10 * i + 10];
        put_record(record, sig[k], sig[k + 1], sig[k + 2], sig[k + 3]);
    }
}

// The fault of a signature whose records are to be written.
#[tactic(auto, using(records::proofs::Filling::names_any), unfolding(records::specs::Records::write_fault))]
fn test_signature(sig: &[u16]) -> Result<(), Fault>
    ensures { tested result ≡ write_fault sig.now }
{
    terms::test_length(Kind::Data, sig.len())?;
    if has_nameless(sig, sig.len() / 4) {
        return Err(Fault::Nameless);
    }
    Ok(())
}

// Writes the signature records of a data tree into the room.
pub fn write_records(sig: &[u16], room: &mut [u8]) -> Result<usize, Refusal>
    ensures { WritePromise sig.now room.old result room.new }
{
    test_signature(sig)?;
    let size = sig.len() / 4;
    if room.len() / 10 < size {
        return Err(Fault::NoRoom.into());
    }
    fill_records(sig, size, room);
    Ok(10 * size)
}
