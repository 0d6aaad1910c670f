// Writes what is answered: each number by its name in include/cap.h, a part as its length (a map's as its pairs) and its place; or, where
// all but the first are 0, that they are.
use cbor_item::ItemNumbers;
use descriptor::{DescriptorNumbers, GrantNumbers};
use image::StoredNumbers;
use image_write::Written;
use narrowing::NarrowingNumbers;
use request::DecisionNumbers;
use resource::MatchingNumbers;
use std::io;

fn number<P: Print>(rt: &P, name: &[u8], n: u64) -> io::Result<()> {
    rt.write_all(name)?;
    rt.print(n)
}

// The line, with a number for each '#' in it. The numbers stand in a list, since it is also asked whether all are 0; `print!` would name each
// a second time.
fn line<P: Print>(rt: &P, s: &[u8], numbers: &[u64]) -> io::Result<()> {
    let mut from: usize = 0;
    for n in numbers {
        let to = octets::until(s, from, b'#');
        if s.len() <= to {
            return Ok(());
        }
        rt.write_all(&s[from..to])?;
        rt.print(*n)?;
        from = to + 1;
    }
    rt.write_all(&s[from..])
}

// The answer, then the line; or, where all numbers are 0, that they are.
fn answer<P: Print>(rt: &P, n: u64, s: &[u8], numbers: &[u64]) -> io::Result<()> {
    number(rt, b": ", n)?;
    for value in numbers {
        if *value != 0 {
            return line(rt, s, numbers);
        }
    }
    rt.write_all(b", all else 0")
}

pub(crate) fn item<P: Print>(rt: &P, i: ItemNumbers) -> io::Result<()> {
    answer(
        rt,
        i.answer,
        b", kind #, number #, content # at #, next #",
        &[i.kind, i.number, i.content_len, i.content_at, i.next],
    )
}

// The bytes of a string's content, in hexadecimal.
pub(crate) fn content<P: Print>(rt: &P, s: &[u8]) -> io::Result<()> {
    if s.len() == 0 {
        return Ok(());
    }
    rt.write_all(b": ")?;
    for byte in s {
        print!(rt; "{byte:02x}")?;
    }
    Ok(())
}

pub(crate) fn descriptor<P: Print>(rt: &P, d: DescriptorNumbers) -> io::Result<()> {
    answer(
        rt,
        d.answer,
        b"
    payload # at #, issued_at #, not_before #, not_after #
    id_at #, issuer # at #, grantor # at #, fay_at #, terminal_at #
    grants #, metadata # at #, constraint_pairs #, mask #
    key_id # at #, algorithm #, signature # at #",
        &[
            d.payload_len,
            d.payload_at,
            d.issued_at,
            d.not_before,
            d.not_after,
            d.id_at,
            d.issuer_len,
            d.issuer_at,
            d.grantor_len,
            d.grantor_at,
            d.fay_at,
            d.terminal_at,
            d.grants,
            d.metadata_pairs,
            d.metadata_at,
            d.constraint_pairs,
            d.mask,
            d.key_id_len,
            d.key_id_at,
            d.algorithm,
            d.signature_len,
            d.signature_at,
        ],
    )
}

// The grant with the index.
pub(crate) fn grant<P: Print>(rt: &P, index: u64, g: GrantNumbers) -> io::Result<()> {
    number(rt, b"\n    grant ", index)?;
    answer(
        rt,
        g.found,
        b", pattern # at #, mask #, modes_at #, constraints # at #",
        &[
            g.pattern_len,
            g.pattern_at,
            g.mask,
            g.modes_at,
            g.constraint_pairs,
            g.constraints_at,
        ],
    )
}

pub(crate) fn matching<P: Print>(rt: &P, m: MatchingNumbers) -> io::Result<()> {
    line(rt, b": #, yes #, names #", &[m.answer, m.yes, m.names])
}

pub(crate) fn narrowing<P: Print>(rt: &P, n: NarrowingNumbers) -> io::Result<()> {
    answer(
        rt,
        n.answer,
        b", grant #, mode #, levels #",
        &[n.grant, n.mode, n.levels],
    )
}

pub(crate) fn stored<P: Print>(rt: &P, f: StoredNumbers) -> io::Result<()> {
    answer(rt, f.answer, b", body # at #", &[f.body_len, f.body_at])
}

// A margin without its sign: its negation less one, which every negative i64 has, and one after the cast.
fn size(margin: i64) -> u64 {
    if margin < 0 {
        return (-1 - margin) as u64 + 1;
    }
    margin as u64
}

// A decision's numbers, with the line that has the margin's sign.
fn signed<P: Print>(rt: &P, d: DecisionNumbers, s: &[u8]) -> io::Result<()> {
    answer(
        rt,
        d.answer,
        s,
        &[d.grant, d.mask, d.session_end, size(d.margin)],
    )
}

pub(crate) fn decision<P: Print>(rt: &P, d: DecisionNumbers) -> io::Result<()> {
    if d.margin < 0 {
        return signed(rt, d, b", grant #, mask #, session_end #, margin -#");
    }
    signed(rt, d, b", grant #, mask #, session_end #, margin #")
}

// A sum over all the bytes, which changes with each of them and with their order.
fn sum(s: &[u8]) -> u64 {
    let mut n: u64 = 7;
    for byte in s {
        n = n % 4294967291 * 257 + u64::from(*byte);
    }
    n % 4294967291
}

// How long the payload part of a descriptor is, and the sum over its bytes.
pub(crate) fn payload<P: Print>(rt: &P, s: &[u8]) -> io::Result<()> {
    line(
        rt,
        b"\n    payload part of # bytes, sum #",
        &[s.len() as u64, sum(s)],
    )
}

// How long the image is, how many rows its header names, and the sum over its bytes.
pub(crate) fn image<P: Print>(rt: &P, s: &[u8]) -> io::Result<()> {
    line(
        rt,
        b"; # bytes, rows #, sum #",
        &[s.len() as u64, octets::number_at(s, 4, 2), sum(s)],
    )
}

// The answer of a call that may write, and the image after it.
pub(crate) fn written<P: Print>(rt: &P, n: u64, s: &[u8]) -> io::Result<()> {
    number(rt, b": ", n)?;
    image(rt, s)
}

// The answer of an upgrade, how many bytes it wrote, and the image after it.
pub(crate) fn upgraded<P: Print>(rt: &P, w: Written, s: &[u8]) -> io::Result<()> {
    line(rt, b": #, len #", &[w.answer, w.len])?;
    image(rt, s)
}
