// Reads records from standard input, each a call of `cap`, and writes what is answered, with every number. The image stays from record
// to record. tests/make_vectors.py makes the stored input and output.
#![tactic(auto)]

mod calls;
mod images;
mod record;
mod show;

ghost use Rattle.std.specs.Prelude.{IfOk};
ghost use Rattle.std.specs.Counts.{IsPrefixLen};

use std::io;
use std::io::Read;

fn room() -> [u8; 3145728] {
    [0; 3145728]
}

// Room for 1,024 rows with the shortest bodies, and more.
fn store() -> [u8; 524288] {
    [0; 524288]
}

// Makes the call of the record at the place, on the first `len` bytes of the image; the answer is how many are lent from then on.
fn one<P: Print>(rt: &P, s: &[u8], at: usize, image: &mut [u8], len: usize) -> io::Result<usize> {
    rt.write_all(record::part(s, at, 0))?;
    let call = record::number(s, at, 0);
    calls::made(rt, call, s, at)?;
    let lent = images::made(rt, call, s, at, image, len)?;
    rt.write_all(b"\n")?;
    Ok(lent)
}

// Makes the call of every record. Where the next begins is known only when one is read.
fn all<P: Print>(rt: &P, s: &[u8], image: &mut [u8]) -> io::Result<()> {
    let mut at: usize = 0;
    let mut len: usize = 0;
    while at < s.len() {
        len = one(rt, s, at, image, len)?;
        let next = record::place(s, at, 8);
        if next <= at {
            return Ok(());
        }
        at = next;
    }
    Ok(())
}

// Reads until the buffer is full or the input ends, and answers how many bytes came; `read_to_end` would want a heap.
fn read_full<R: Read>(input: &mut R, buffer: &mut [u8]) -> io::Result<usize>
    ensures { IfOk result (λ n. IsPrefixLen n buffer.new) }
{
    let mut done: usize = 0;
    while done < buffer.len() {
        let n = input.read(&mut buffer[done..])?;
        if n == 0 {
            return Ok(done);
        }
        done += n;
    }
    Ok(done)
}

// Reads the whole input, and makes each call.
fn run<R: Input + Print>(rt: &R, buffer: &mut [u8], image: &mut [u8]) -> io::Result<()> {
    let n = read_full(&mut rt.reader(), buffer)?;
    all(rt, &buffer[..n], image)
}

fn main(rt: HostRuntime) -> io::Result<()> {
    let mut buffer = room();
    let mut image = store();
    run(&rt, &mut buffer, &mut image)
}
