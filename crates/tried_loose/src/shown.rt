// Printing: what a turn handed back, in numbers.
use preparing::Prep;
use std::io;
use std::io::Write;
use terms::Turn;
use trial_lines::{Row, came_to};
use walking::Walk;

// What stopped a turn of preparing, its steps, and the next entry.
pub fn shown_prep(out: &mut impl Write, turn: Turn<Prep>) -> io::Result<()> {
    came_to(out, turn.stop, turn.steps, &[turn.state.next.0])?;
    out.write_all(b"\n")
}

// What stopped a turn of walking, its steps, and node, candidate, phase and images of its state.
pub fn shown_walk(out: &mut impl Write, turn: Turn<Walk>) -> io::Result<()> {
    let Walk {
        images,
        node,
        candidate,
        phase,
    } = turn.state;
    came_to(
        out,
        turn.stop,
        turn.steps,
        &[node, candidate.0, u16::from(phase)],
    )?;
    writeln!(out, "{}", Row(&images))
}
