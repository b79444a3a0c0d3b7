// Layer 2, trial_lines: what the programs that try the calls share. Their cases are lines of text: here those lines are read, the trees that they name are
// made, and answers are printed. A line is cut by strokes into fields: the first is the case's label, the second says what is tried in words and numbers, and
// the others are lists of numbers. A line without a stroke is a comment.
#![tactic(auto)]

mod cases;
mod fields;
mod made;
mod shown;

pub use cases::{Out, read_cases, try_cases};
pub use fields::{Case, UnknownWord, front, great, kind_of, numbers_into};
pub use made::tree_into;
pub use shown::{Row, came_to, room_left, stopped, told, told_by};
