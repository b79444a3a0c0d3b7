// Layer 9, check_menu: checks a sample menu of ten elements in turns of seven steps, and tells a person what each turn came to.
#![tactic(auto)]

use checking::CheckState;
use std::io;
use terms::{Kind, Stop};

// The sample menu: name, post, ff and fa of each element. It stands here and not in `trial_lines`, since a sample is read by itself.
const TEN: [u16; 40] = [
    1, 10, 11, 0, 2, 5, 7, 1, 3, 3, 6, 2, 4, 1, 5, 3, 5, 2, 6, 3, 7, 4, 7, 2, 6, 9, 11, 1, 8, 8,
    11, 7, 9, 6, 10, 8, 10, 7, 11, 8,
];

// Turns of seven steps until the check stops by itself; the menu can be used by others between two of them.
fn check(rt: &impl Print, sig: &[u16]) -> io::Result<()> {
    let mut state = CheckState::fresh();
    for _ in 0..8192u16 {
        let turn = state.turn(Kind::Data, sig, 7);
        print!(rt; "a turn of {} steps, ", turn.steps)?;
        match turn.stop {
            Stop::Answer => return println!(rt; "at an answer"),
            Stop::End => return println!(rt; "accepted: a tree yields this signature"),
            Stop::Budget => println!(rt; "given back, to go on later")?,
            Stop::Refused(refusal) => {
                return println!(rt;
                    "refused with number {} at entry {}",
                    refusal.number, refusal.entry.0
                );
            }
        }
        state = turn.state;
    }
    Ok(())
}

// A write that fails ends the program with its error.
fn main(rt: HostRuntime) -> io::Result<()> {
    println!(rt; "a menu of ten elements:")?;
    check(&rt, &TEN)?;
    println!(rt; "the same with a wrong pointer at entry 6:")?;
    let mut bad = TEN;
    bad[23] = 3;
    check(&rt, &bad)
}
