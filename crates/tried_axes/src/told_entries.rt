// The level, the place and the block of entries.
use blocks::{block, block_place, level};
use std::io;
use std::io::Write;
use terms::PreRank;
use trial_lines::told_by;

// The level, the place and the length of the block of one entry.
fn entry_told<W: Write>(out: &mut W, sig: &[u16], i: PreRank) -> io::Result<()> {
    write!(out, " {}", i.0)?;
    told_by(out, level(sig, i), |out, level| write!(out, " {level}"))?;
    told_by(out, block_place(sig, i), |out, (first, count)| {
        write!(out, " {first} {count}")
    })?;
    write!(out, " {} /", block(sig, i).len())
}

// The same of the ranks from one up to another.
pub fn entries_told(out: &mut impl Write, sig: &[u16], from: u16, end: u16) -> io::Result<()> {
    for i in from..end {
        entry_told(out, sig, PreRank(i))?;
    }
    out.write_all(b"\n")
}
