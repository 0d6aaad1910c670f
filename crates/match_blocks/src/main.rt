// The matching tool with a buffer of 1,024 bytes, so that a stored test of some thousand bytes has lines across a block's end and lines
// longer than the buffer.
#![tactic(auto)]

use std::io;

fn main(rt: HostRuntime) -> io::Result<()> {
    let mut buffer = [0u8; 1024];
    let mut out = [0u8; 4096];
    match_stream::answer_input(
        &mut rt.reader(),
        &mut io::writer(&rt),
        &mut buffer,
        &mut out,
    )
}
