// Lines of the matching tool, as document 01 has it: `pattern resource`, one space, at most 600 bytes; yes, no or bad for each. The
// input comes in blocks of any length. What is promised is in specs/Promises.antt. No function: here are the
// types of what is answered; `match_lines` has the functions.
#![tactic(auto)]

// The verdict on a line.
#[derive(Clone, Copy)]
pub enum Verdict {
    IsYes,
    IsNo,
    IsBad,
}

// What was done with a block: how many bytes were written at the start of the output; how many of the block's last bytes are kept for
// the next; whether the line that has begun is too long. What may be refused answers None where the output is too short; then nothing was
// done.
#[derive(Clone, Copy)]
pub struct Progress {
    pub written: usize,
    pub kept: usize,
    pub long: bool,
}
