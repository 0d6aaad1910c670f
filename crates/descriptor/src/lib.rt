// The functions that read descriptors. What a descriptor is and what is promised of reading one is in `descriptor_spec`.
#![tactic(auto)]

mod grants;
mod ids;
mod modes;
mod payload;
mod whole;

ghost use Rattle.octets.specs.Bytes.{PartOf};
ghost use Rattle.descriptor_spec.specs.Numbers.{payload_span};

pub use descriptor_spec::{DescriptorNumbers, Fields, GrantNumbers, Part, ReadError};
pub use grants::read_grant;
pub use whole::{by_period, read_descriptor, read_form};

// What is seen of a grant: the mask of its modes, the place of their array, the place of the constraints' map (0 where there is none) and
// the number of its pairs, and the pattern's place and length.
#[derive(Clone, Copy)]
pub struct GrantFields {
    pub mask: u64,
    pub modes: usize,
    pub constraints: usize,
    pub pairs: u64,
    pub pattern: usize,
    pub len: usize,
}

// The payload of what was read from s, which the signature covers, as the part of s itself; the empty part at the start on a refusal.
pub fn payload_part(s: &[u8], reading: Result<Fields, ReadError>) -> &[u8]
    ensures { PartOf s.entry result (payload_span s.now reading).start (payload_span s.now reading).len }
{
    match reading {
        Ok(fields) => {
            let payload = fields.payload;
            octets::part_at(s, payload.at, payload.len)
        }
        Err(_) => &s[..0],
    }
}
