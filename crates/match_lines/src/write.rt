// Answers written to a lent buffer, and the bytes of a line that has begun kept for the next block.
ghost use Rattle.std.specs.Prelude.{◌≡◌, ◌+◌, ◌≤◌, length, take};
ghost use Rattle.octets.specs.Write.{over};
ghost use Rattle.match_lines_spec.specs.Lines.{verdict_line};
ghost use Rattle.match_lines_spec.specs.Block.{end_of, progress_of, output_of, buffer_of, end_progress, end_output};

use crate::line::verdict_if;
use match_lines_spec::{Progress, Verdict};

// Writes a text at a place of `out` that has room for it.
fn store(out: &mut [u8], at: usize, text: &[u8])
    requires { at + length text.now ≤ length out.old }
    ensures { out.new ≡ over out.old at text.now }
{
    for i in 0..text.len() {
        out[at + i] = text[i];
    }
}

// Writes a verdict's line at a place of `out`, and answers the place after it. Each line is a text of a length that the compiler knows, so
// that it is stored at once, and no call copies it.
fn put(out: &mut [u8], at: usize, v: Verdict) -> usize
    requires { at + 4 ≤ length out.old }
    ensures place { result ≡ at + length (verdict_line v) }
    ensures holds { out.new ≡ over out.old at (verdict_line v) }
{
    match v {
        Verdict::IsYes => {
            store(out, at, b"yes\n");
            at + 4
        }
        Verdict::IsNo => {
            store(out, at, b"no\n");
            at + 3
        }
        Verdict::IsBad => {
            store(out, at, b"bad\n");
            at + 4
        }
    }
}

// The end of a block whose last line begins at `from`.
#[tactic(auto, unfolding(match_lines_spec::specs::Block::end_of))]
fn end(s: &[u8], from: usize, long: bool, written: usize) -> Progress
    requires { from ≤ length s.now }
    ensures { result ≡ end_of long s.now from written }
{
    let begun = s.len() - from;
    if long || 600 < begun {
        return Progress {
            written,
            kept: 0,
            long: true,
        };
    }
    Progress {
        written,
        kept: begun,
        long: false,
    }
}

// Answers the lines that end in the block s. What stands after the last newline is no line yet; a split would hand it out as one.
#[tactic(auto, unfolding(match_lines_spec::specs::Block::progress_of, match_lines_spec::specs::Block::output_of))]
fn answers(s: &[u8], long: bool, out: &mut [u8]) -> Option<Progress>
    ensures answer { result ≡ progress_of long s.now (length out.old) }
    ensures output { out.new ≡ output_of long s.now out.old }
{
    if out.len() / 4 < s.len() {
        return None;
    }
    let mut from: usize = 0;
    let mut at: usize = 0;
    let mut too_long = long;
    loop {
        let stop = octets::until(s, from, b'\n');
        if stop == s.len() {
            return Some(end(s, from, too_long, at));
        }
        at = put(out, at, verdict_if(too_long, &s[from..stop]));
        too_long = false;
        from = stop + 1;
    }
}

// Answers the lines that end in a block, the first n bytes of `buffer`: those kept of the block before, and those that came. `long`
// where a line too long has begun. The output has four bytes for each byte of the block, or nothing is done. The bytes that are kept
// are moved to the start of `buffer`. The promise `BlockKept` holds for any n, so that n stays beside the buffer.
pub fn answer_block(buffer: &mut [u8], n: usize, long: bool, out: &mut [u8]) -> Option<Progress>
    ensures answer { result ≡ progress_of long (take n buffer.old) (length out.old) }
    ensures output { out.new ≡ output_of long (take n buffer.old) out.old }
    ensures kept { buffer.new ≡ buffer_of long buffer.old n (length out.old) }
{
    let size = n.min(buffer.len());
    let progress = answers(&buffer[..size], long, out)?;
    octets::move_down(buffer, size - progress.kept, 0, progress.kept);
    Some(progress)
}

// Answers a last line without newline, the first n bytes of `buffer`; an output of fewer than four bytes is refused.
#[tactic(auto, unfolding(match_lines_spec::specs::Block::end_progress, match_lines_spec::specs::Block::end_output))]
pub fn answer_end(buffer: &[u8], n: usize, long: bool, out: &mut [u8]) -> Option<Progress>
    ensures answer { result ≡ end_progress long (take n buffer.now) (length out.old) }
    ensures output { out.new ≡ end_output long (take n buffer.now) out.old }
{
    if out.len() < 4 {
        return None;
    }
    let line = &buffer[..n.min(buffer.len())];
    let written = if !long && line.is_empty() {
        0
    } else {
        put(out, 0, verdict_if(long, line))
    };
    Some(Progress {
        written,
        kept: 0,
        long: false,
    })
}
