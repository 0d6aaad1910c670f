// Records of eight parts: a name, numbers of eight bytes, and six byte strings. A part is four bytes with its length, the highest
// first, and so many bytes.

// The place after so many parts, or past the end.
pub(crate) fn place(s: &[u8], at: usize, parts: usize) -> usize {
    let mut place = at;
    for _ in 0..parts {
        if s.len() <= place {
            return place;
        }
        place = place + 4 + octets::number_at(s, place, 4) as usize;
    }
    place
}

// The part with the index, of the record at the place: 0 is its name, 1 its numbers, 2 to 7 its byte strings. Nothing where it is not
// whole.
pub(crate) fn part(s: &[u8], at: usize, i: usize) -> &[u8] {
    let start = place(s, at, i);
    if s.len() <= start {
        return octets::part_at(s, 0, 0);
    }
    octets::part_at(s, start + 4, octets::number_at(s, start, 4) as usize)
}

// Its number with the index.
pub(crate) fn number(s: &[u8], at: usize, i: usize) -> u64 {
    if 100 < i {
        return 0;
    }
    octets::number_at(part(s, at, 1), 8 * i, 8)
}
