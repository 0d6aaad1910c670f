// The functions of the matching tool over lines and blocks. What they answer and what is promised of it is in `match_lines_spec`.
#![tactic(auto)]

mod line;
mod write;

pub use line::judge;
pub use match_lines_spec::{Progress, Verdict};
pub use write::{answer_block, answer_end};
