// The matching tool of document 01: reads lines `pattern resource` from standard input and writes yes, no or bad for each.
#![tactic(auto)]

use std::io;

// A block of the input has 65,536 bytes, and its answers four for each.
fn main(rt: HostRuntime) -> io::Result<()> {
    let mut buffer = [0u8; 65536];
    let mut out = [0u8; 262144];
    match_stream::answer_input(
        &mut rt.reader(),
        &mut io::writer(&rt),
        &mut buffer,
        &mut out,
    )
}
