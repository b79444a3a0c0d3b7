// The bytes that are read: those of a line, or the records or the tag list of a large tree.
use std::alloc::{AllocError, Global};
use trial_lines::numbers_into;

// How many bytes are read at most.
const MOST_BYTES: usize = 40970;

// Which bytes are read.
#[derive(Clone, Copy)]
pub enum Made {
    // The tag list of a root with leaves.
    List,
    // The same record again and again.
    Records,
    // What the line lists.
    Listed,
}

impl From<u16> for Made {
    // By a word's first letter.
    fn from(word: u16) -> Made {
        match u8::try_from(word) {
            Ok(b'l') => Made::List,
            Ok(b'r') => Made::Records,
            _ => Made::Listed,
        }
    }
}

// Adds the same bytes so many times.
fn repeat(bytes: &mut Vec<u8>, part: &[u8], times: u16) -> Result<(), AllocError> {
    for _ in 0..times {
        bytes.extend_from_slice(part)?;
    }
    Ok(())
}

// Adds the bytes that a line lists: up to forty numbers, and 0 for each further one.
fn listed(bytes: &mut Vec<u8>, list: &[u8]) -> Result<(), AllocError> {
    let mut numbers = [0; 40];
    let len = numbers_into(list, &mut numbers);
    for x in numbers.iter().take(len) {
        bytes.push((x % 256) as u8)?;
    }
    bytes.resize(len, 0)
}

// The bytes of a case. What is made is of n elements, each named 1, and of none if they are too many.
pub fn bytes_of(alloc: Global, made: Made, n: u16, list: &[u8]) -> Result<Vec<u8>, AllocError> {
    let mut bytes = Vec::new(alloc);
    if 5000 < n {
        return Ok(bytes);
    }
    match made {
        Made::List if n == 0 => {}
        Made::List => {
            bytes.extend_from_slice(b"OP\x01\x00")?;
            repeat(&mut bytes, b"OP\x01\x00CL", n - 1)?;
            bytes.extend_from_slice(b"CL")?;
        }
        // The record of the entry 1,1,2,0.
        Made::Records => repeat(&mut bytes, b"SE\x01\x00\x01\x00\x02\x00\x00\x00", n)?,
        Made::Listed => listed(&mut bytes, list)?,
    }
    bytes.truncate(MOST_BYTES);
    Ok(bytes)
}
