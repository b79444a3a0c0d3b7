// Layer 3, records: signature records, read into signatures of data trees.
#![tactic(auto)]

ghost use Rattle.std.specs.Prelude.{◌≡◌, ◌+◌, ◌*◌, ◌≤◌, length};
ghost use Rattle.trees.specs.Signature.{width};
ghost use Rattle.bytes_read.specs.Bytes.{number_at};
ghost use Rattle.terms.specs.Faults.{tested};
ghost use Rattle.terms.specs.Room.{front_with};
ghost use Rattle.records.specs.Records.{record_at, record_fault, records_end, numbers_from, CountPromise, ReadPromise};

use bytes_read::number_at;
use terms::{Fault, Kind, Refusal};

// The fault of the signature record after count others.
#[tactic(auto, unfolding(crate::specs::Records::record_fault))]
fn test_record(bytes: &[u8], count: u16) -> Result<(), Fault>
    requires { 10 * count ≤ length bytes.now }
    ensures { tested result ≡ record_fault bytes.now (record_at count) }
{
    let at = 10 * usize::from(count);
    let left = bytes.len() - at;
    if left < 2 {
        Err(Fault::Cut)
    } else if !bytes_read::is_marked(bytes, at, b"SE") {
        Err(Fault::UnknownMark)
    } else if left < 10 {
        Err(Fault::Cut)
    } else if number_at(bytes, at + 2) == 0 {
        Err(Fault::Nameless)
    } else if Kind::Data.most() <= count {
        Err(Fault::TooMany)
    } else {
        Ok(())
    }
}

// Whether all records are read.
#[tactic(auto, unfolding(crate::specs::Records::records_end))]
fn is_records_end(bytes: &[u8], count: u16) -> bool
    ensures { result ≡ records_end bytes.now (record_at count) }
{
    10 * usize::from(count) == bytes.len() && 0 < count
}

// Judges the signature records from the front, and counts them.
fn count_records(bytes: &[u8]) -> Result<u16, Fault>
    ensures { CountPromise bytes.now result }
{
    let mut count = 0;
    // No `for`: how many records there are is known at the end only, or at the first faulty one.
    while !is_records_end(bytes, count) {
        test_record(bytes, count)?;
        count += 1;
    }
    Ok(count)
}

// The number at a place whose two bytes are there. `number_at` takes every place, and would test again what the count has judged: three times the time.
fn number_in(bytes: &[u8], at: usize) -> u16
    requires { at + 2 ≤ length bytes.now }
    ensures { result ≡ number_at bytes.now at }
{
    u16::from_le_bytes([bytes[at], bytes[at + 1]])
}

// Writes the numbers of the first size records to the front of the room.
fn fill_numbers(bytes: &[u8], size: usize, room: &mut [u16])
    requires { (size ≤ 4096) × (10 * size ≤ length bytes.now) × (width * size ≤ length room.old) }
    ensures { room.new ≡ front_with (numbers_from bytes.now 0 size) room.old }
{
    for i in 0..size {
        let at = 10 * i;
        let name = number_in(bytes, at + 2);
        let post = number_in(bytes, at + 4);
        let ff = number_in(bytes, at + 6);
        let fa = number_in(bytes, at + 8);
        room[4 * i..4 * i + 4].copy_from_slice(&[name, post, ff, fa]);
    }
}

// Reads signature records of a data tree into the room.
pub fn read_records(bytes: &[u8], room: &mut [u16]) -> Result<usize, Refusal>
    ensures { ReadPromise bytes.now room.old result room.new }
{
    let size = usize::from(count_records(bytes)?);
    if room.len() < 4 * size {
        return Err(Fault::NoRoom.into());
    }
    fill_numbers(bytes, size, room);
    Ok(4 * size)
}
