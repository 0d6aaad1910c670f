// Terminal ids.
ghost use Rattle.std.specs.Prelude.{◌≡◌, ◌+◌, ◌≤◌, length};
ghost use Rattle.octets.specs.Bytes.{part, same};
ghost use Rattle.resource_spec.specs.Identifier.{terminal_size};

use resource_spec::sizes::TERMINAL_SIZE;

// Whether the terminal ids that stand at a and at b are equal.
pub(crate) fn equal_terminals(s: &[u8], a: usize, b: usize) -> bool
    requires { (a + terminal_size ≤ length s.now) × (b + terminal_size ≤ length s.now) }
    ensures { result ≡ same (part s.now a terminal_size) (part s.now b terminal_size) }
{
    octets::same_start(&s[a..], &s[b..], TERMINAL_SIZE)
}
