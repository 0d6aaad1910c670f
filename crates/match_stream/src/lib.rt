// The matching tool's reading and writing, in blocks as large as the lent buffers. The work is in match_lines, whose contracts say what is
// written for what was read; no contract can say what a program reads or writes.
#![tactic(auto)]

use std::io;
use std::io::{Read, Write};

// Writes the first n bytes of `out`, or fails where a write takes nothing or fails.
fn write<W: Write>(output: &mut W, out: &[u8], n: usize) -> io::Result<()> {
    output.write_all(&out[..n.min(out.len())])
}

// Reads into the buffer from the place `kept` on, and answers how many bytes the buffer then has; `kept` at the end of the input.
fn read_more<R: Read>(input: &mut R, buffer: &mut [u8], kept: usize) -> io::Result<usize> {
    if buffer.len() < kept {
        return Ok(kept);
    }
    let got = input.read(&mut buffer[kept..])?;
    Ok(kept + got)
}

// Answers a last line without newline.
fn finish<W: Write>(
    output: &mut W,
    buffer: &[u8],
    kept: usize,
    long: bool,
    out: &mut [u8],
) -> io::Result<()> {
    match match_lines::answer_end(buffer, kept, long, out) {
        Some(progress) => write(output, out, progress.written),
        None => Ok(()),
    }
}

// Answers the lines of the input on the output, block by block. `buffer` has room for a line's 600 bytes and more, and `out` for four bytes
// for each of `buffer`; with less room it stops at the first block that does not fit. A read that fails ends the input: what was kept is
// answered, and the error handed on. It stops at a write that fails, and reads no more.
pub fn answer_input<R: Read, W: Write>(
    input: &mut R,
    output: &mut W,
    buffer: &mut [u8],
    out: &mut [u8],
) -> io::Result<()> {
    let mut kept: usize = 0;
    let mut long = false;
    // a proved loop has to end, and nothing says that an input does: the count is one that no run uses up
    for _ in 0..u64::MAX {
        match read_more(input, buffer, kept) {
            Ok(n) if n == kept => return finish(output, buffer, kept, long, out),
            Ok(n) => {
                let Some(progress) = match_lines::answer_block(buffer, n, long, out) else {
                    return Ok(());
                };
                write(output, out, progress.written)?;
                kept = progress.kept;
                long = progress.long;
            }
            Err(e) => {
                finish(output, buffer, kept, long, out)?;
                return Err(e);
            }
        }
    }
    Ok(())
}
