// Layer 9, listing: the listing program. It reads a data tag list and at once a twig tag list from standard input, and prints the loose answers. All that decides what is
// printed stands in `lines`. One byte more than the longest input is read, so that a longer one is known; a read or a write that fails ends the program with
// its error. The text has at most 800,025 bytes.
#![tactic(auto)]

ghost use Rattle.std.specs.Prelude.{◌≡◌, ◌+◌, ◌<◌, ◌≤◌, length, take, IfOk};
ghost use Rattle.std.specs.Io.KnownBytes.{Consumes, IsAtEnd};
ghost use Rattle.lines.specs.Listing.{most_bytes, text_room};

use std::io;
use std::io::{Read, Write};

// The rooms are arrays, since a `Vec` would add the heap's C functions to those whose contracts the program assumes (docs/PROMISES.md).
// They are two functions, since the clause of each says that its size is the one that specs/ names, which a const parameter can't say.

// One byte more than the longest input.
fn input_room() -> [u8; 24673]
    ensures { most_bytes + 1 ≡ length result }
{
    [0; 24673]
}

// Room for the longest text.
fn text_room() -> [u8; 819200]
    ensures { text_room ≡ length result }
{
    [0; 819200]
}

// Reads until the room is full or the input ends, and answers how many bytes were read: they stand at the front of the room, in their order.
// The loop is a `while`, since a read takes as many bytes as come; std's own loop, `read_to_end`, wants a `Vec`.
fn read_full<R: Read>(input: &mut R, room: &mut [u8]) -> io::Result<usize>
    ensures within { IfOk result (λ count. count ≤ length room.new) }
    ensures bytes { IfOk result (λ count. Consumes (R.remaining input.old) (R.remaining input.new) (take count room.new)) }
    ensures end { IfOk result (λ count. count < length room.new → IsAtEnd (R.remaining input.new)) }
{
    let mut done = 0;
    while done < room.len() {
        let count = input.read(&mut room[done..])?;
        if count == 0 {
            return Ok(done);
        }
        done += count;
    }
    Ok(done)
}

fn main(rt: HostRuntime) -> io::Result<()> {
    let mut input = input_room();
    let count = read_full(&mut rt.stdin(), &mut input)?;
    let mut text = text_room();
    let length = lines::list(&input[..count], &mut text);
    rt.stdout().write_all(&text[..length])
}
