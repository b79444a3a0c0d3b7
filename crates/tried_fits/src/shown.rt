// Printing: what a turn handed back, in numbers.
use fits::Fit;
use std::io;
use std::io::Write;
use terms::Turn;
use trial_lines::came_to;

// What stopped a turn, its steps, and node, entry and stage of its state.
pub fn shown(out: &mut impl Write, turn: Turn<Fit>) -> io::Result<()> {
    let Fit { node, entry, stage } = turn.state;
    came_to(
        out,
        turn.stop,
        turn.steps,
        &[node, entry.0, u16::from(stage)],
    )
}
