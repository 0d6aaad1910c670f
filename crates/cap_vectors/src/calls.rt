// The calls that take no image. With an item and a descriptor go the parts of the bytes that `cbor_item` and `descriptor` hand back.
use crate::record::{number, part};
use crate::show;
use std::io;

// The first grants, as many as are asked for.
fn grants<P: Print>(rt: &P, bytes: &[u8], count: u64) -> io::Result<()> {
    for index in 0..count {
        show::grant(rt, index, cap::cap_grant_at(bytes, index))?;
    }
    Ok(())
}

// Makes the call with the number, of the record at the place, where it takes no image. Each call takes parts of its own from the record.
pub(crate) fn made<P: Print>(rt: &P, call: u64, s: &[u8], at: usize) -> io::Result<()> {
    let a = part(s, at, 2);
    let b = part(s, at, 3);
    let n = number(s, at, 1);
    match call {
        1 => {
            show::item(rt, cap::cap_item_read(a, n))?;
            show::content(
                rt,
                cbor_item::content(a, cbor_item::read_item(a, n as usize)),
            )
        }
        2 => {
            show::descriptor(rt, cap::cap_descriptor_read(a))?;
            show::payload(
                rt,
                descriptor::payload_part(a, descriptor::read_descriptor(a)),
            )?;
            grants(rt, a, n)
        }
        3 => show::grant(rt, n, cap::cap_grant_at(a, n)),
        4 => show::matching(rt, cap::cap_match(a, b)),
        5 => show::narrowing(rt, cap::cap_narrow(a, b)),
        _ => Ok(()),
    }
}
