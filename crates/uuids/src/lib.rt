// The functions that say whether a UUID is of version 7, by its octets and by its text. What that is and what is promised of it is in
// `uuid_spec`.
#![tactic(auto)]

ghost use Rattle.std.specs.Prelude.{◌≡◌};
ghost use Rattle.uuid_spec.specs.Version7.{is_version7, no_upper, is_variant_digit, is_version7_text};

use uuid_spec::sizes::{UUID_SIZE, UUID_TEXT_SIZE};

// Whether b is 16 octets with version 7 and RFC 9562's variant.
#[tactic(auto, unfolding(uuid_spec::specs::Version7::is_version7))]
pub fn is_version7(b: &[u8]) -> bool
    ensures { result ≡ is_version7 b.now }
{
    b.len() == UUID_SIZE && b[6] / 16 == 7 && b[8] / 64 == 2
}

// Whether t has no letter of A-Z. There is no way out before the last character, so that many are looked at at once.
#[tactic(auto, using(crate::proofs::UuidCode::left_next, crate::proofs::UuidCode::left_end))]
fn no_upper(t: &[u8]) -> bool
    ensures { result ≡ no_upper t.now }
{
    let mut ok = true;
    for c in t {
        ok &= !c.is_ascii_uppercase();
    }
    ok
}

// Whether c is a digit whose two high bits are 10.
#[tactic(auto, unfolding(uuid_spec::specs::Version7::is_variant_digit))]
fn is_variant_digit(c: u8) -> bool
    ensures { result ≡ is_variant_digit c }
{
    matches!(c, b'8' | b'9' | b'a' | b'b')
}

// Whether the UUID text t is in lower case, with version 7 and RFC 9562's variant. That it is a UUID text is not looked at again.
#[tactic(auto, unfolding(uuid_spec::specs::Version7::is_version7_text))]
pub fn is_version7_text(t: &[u8]) -> bool
    ensures { result ≡ is_version7_text t.now }
{
    t.len() == UUID_TEXT_SIZE && no_upper(t) && t[14] == b'7' && is_variant_digit(t[19])
}
