// The grant reader: it keeps the lent bytes of a descriptor and its place, and gives one grant after the other. What is promised is in
// specs/Promises.antt.
#![tactic(auto)]

mod walk;

ghost use Rattle.std.specs.Prelude.{◌≡◌};
ghost use Rattle.descriptor.specs.Code.{grant_read};
ghost use Rattle.descriptor_spec.specs.Reader.{grant_at};
ghost use Rattle.grant_reader.specs.Code.{start_of, place_after};

use descriptor::{GrantFields, read_grant};
pub use walk::nth;

// A reader of grants: the bytes, and the place of the next grant. Past the last grant, and in bytes that don't read, no grant stands there.
#[derive(Clone, Copy)]
pub struct GrantReader<'a> {
    pub src: &'a [u8],
    pub at: usize,
}

impl<'a> GrantReader<'a> {
    // A reader before the first grant of the bytes; one that gives none where they don't read.
    pub fn new(src: &'a [u8]) -> GrantReader<'a>
        ensures { (result.src ≡ src.entry) × (result.at ≡ start_of src.now) }
    {
        GrantReader {
            src,
            at: walk::start_of(src),
        }
    }

    // The grant at the reader's place, and the place after it.
    pub fn next(self) -> Option<(GrantFields, usize)>
        ensures { grant_read result ≡ grant_at self.entry.src.now self.entry.at }
    {
        read_grant(self.src, self.at)
    }

    // The reader after that grant; the same reader where there is none.
    pub fn advanced(self) -> GrantReader<'a>
        ensures { (result.src ≡ self.entry.src) × (result.at ≡ place_after self.entry.src.now self.entry.at) }
    {
        GrantReader {
            src: self.src,
            at: walk::place_after(self.src, self.at),
        }
    }
}
