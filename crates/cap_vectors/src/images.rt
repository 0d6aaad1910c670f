// The calls that take the image.
use crate::record::{number, part};
use crate::show;
use std::io;

// The image begins with these bytes, and so many of it are lent.
fn lend<P: Print>(rt: &P, bytes: &[u8], n: u64, image: &mut [u8]) -> io::Result<usize> {
    octets::put(image, 0, bytes);
    let len = n as usize;
    show::image(rt, octets::part_at(image, 0, len))?;
    Ok(len)
}

fn submit(s: &[u8], at: usize, image: &mut [u8]) -> u64 {
    cap::cap_submit(
        image,
        part(s, at, 2),
        number(s, at, 1),
        number(s, at, 2),
        number(s, at, 3),
        number(s, at, 4),
        number(s, at, 5),
    )
}

fn request<P: Print>(rt: &P, s: &[u8], at: usize, image: &mut [u8]) -> io::Result<()> {
    let decision = cap::cap_request(
        image,
        part(s, at, 2),
        part(s, at, 3),
        part(s, at, 4),
        part(s, at, 5),
        number(s, at, 1),
        number(s, at, 2),
        number(s, at, 3),
        part(s, at, 6),
        part(s, at, 7),
        number(s, at, 4),
        number(s, at, 5),
        number(s, at, 6),
        number(s, at, 7),
    );
    show::decision(rt, decision)?;
    show::image(rt, image)
}

// Submits the descriptor so many times, with 1, 2, 3 and so on in the four bytes at the place, each time a step later; the answer is
// the last one's.
fn fill(body: &mut [u8], place: usize, count: u64, start: u64, step: u64, image: &mut [u8]) -> u64 {
    let mut answer: u64 = 0;
    let mut clock = start;
    for k in 0..count {
        octets::put_number(body, place, 4, k + 1);
        answer = cap::cap_submit(image, body, clock, 0, 0, 0, 0);
        let Some(next) = clock.checked_add(step) else {
            return answer;
        };
        clock = next;
    }
    answer
}

// Fills the image with the descriptor of the record at the place, which is copied to `body`; the four bytes are the last of its id.
fn fill_with(s: &[u8], at: usize, body: &mut [u8], image: &mut [u8]) -> u64 {
    let bytes = part(s, at, 2);
    let len = bytes.len();
    let id_at = number(s, at, 2);
    if body.len() < len {
        return 1;
    }
    if 1024 < id_at {
        return 1;
    }
    octets::put(body, 0, bytes);
    fill(
        &mut body[..len],
        id_at as usize + 12,
        number(s, at, 1),
        number(s, at, 3),
        number(s, at, 4),
        image,
    )
}

// The same, of a descriptor of at most 1,024 bytes.
fn filled(s: &[u8], at: usize, image: &mut [u8]) -> u64 {
    let mut body = [0u8; 1024];
    fill_with(s, at, &mut body, image)
}

// Makes the call with the number, of the record at the place, on the image, where it takes one. Each call takes parts of its own.
fn on_image<P: Print>(rt: &P, call: u64, s: &[u8], at: usize, image: &mut [u8]) -> io::Result<()> {
    match call {
        7 => {
            let answer = cap::cap_image_new(image);
            show::written(rt, answer, image)
        }
        8 => show::stored(rt, cap::cap_image_find(image, part(s, at, 2))),
        9 => {
            let answer = submit(s, at, image);
            show::written(rt, answer, image)
        }
        10 => request(rt, s, at, image),
        11 => {
            let upgrade = cap::cap_image_upgrade(part(s, at, 2), image);
            show::upgraded(rt, upgrade, image)
        }
        12 => {
            let answer = filled(s, at, image);
            show::written(rt, answer, image)
        }
        _ => Ok(()),
    }
}

// Makes the call with the number, of the record at the place, on the first `len` bytes of the image; the answer is how many are lent from
// then on.
pub(crate) fn made<P: Print>(
    rt: &P,
    call: u64,
    s: &[u8],
    at: usize,
    image: &mut [u8],
    len: usize,
) -> io::Result<usize> {
    if call == 6 {
        return lend(rt, part(s, at, 2), number(s, at, 1), image);
    }
    if image.len() < len {
        return Ok(len);
    }
    on_image(rt, call, s, at, &mut image[..len])?;
    Ok(len)
}
