// The cases that a program tries, from the standard input.
use crate::fields::Case;
use std::alloc::Global;
use std::io;
use std::io::{BufWriter, Input, Read, Write};
use std::rt::Stdout;

// Where programs print what the cases answer.
pub type Out = BufWriter<Stdout, Global>;

// How many bytes of cases there are at most; what stands behind them is not read.
const MOST_BYTES: u64 = 65536;

// The text of the cases: the whole input, or as much of it as one program tries.
pub fn read_cases<R: Input + Alloc>(rt: &R) -> io::Result<Vec<u8, R::A>> {
    let mut cases = Vec::new(rt.alloc());
    rt.reader().take(MOST_BYTES).read_to_end(&mut cases)?;
    Ok(cases)
}

// Hands each line of the standard input to what tries it, with the place to print to. A read or a write that fails ends the program with its error.
pub fn try_cases<F: FnMut(&mut Out, Case) -> io::Result<()>>(
    rt: &HostRuntime,
    mut tries: F,
) -> io::Result<()>
    requires { F.IsAlwaysCallable tries }
{
    let lines = read_cases(rt)?;
    let mut out = BufWriter::new(rt.alloc(), rt.stdout())?;
    for line in lines.as_slice().split(|byte| *byte == b'\n') {
        tries(&mut out, Case(line))?;
    }
    out.flush()
}
