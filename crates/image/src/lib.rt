// The functions that read the stored image; what an image is and what is promised of it is in `image_spec`.
#![tactic(auto)]

mod rows;

ghost use Rattle.std.specs.Prelude.{◌≡◌};
ghost use Rattle.octets.specs.Bytes.{PartOf};
ghost use Rattle.image_spec.specs.Layout.{edition1};
ghost use Rattle.image_spec.specs.Check.{body_span, layout_of, check_of as checkBy};
ghost use Rattle.image_spec.specs.Readable.{check_of, find_of};
ghost use Rattle.image_spec.specs.Edition2.{check_of as checkLatest};

use descriptor::Part;
use image_spec::layout::{EDITION_PLACE, EDITION1, EDITION2, HEADER_WIDTH, Layout};
pub use image_spec::{Contents, FindError, StoredBody, StoredNumbers};

// The layout that the header names: that of edition 2, and else that of edition 1, whose check refuses another.
#[tactic(auto, using(crate::proofs::CheckCode::names_1, crate::proofs::CheckCode::names_2))]
pub fn layout_of(image: &[u8]) -> Layout
    ensures { result ≡ layout_of image.now }
{
    if octets::number_at(image, EDITION_PLACE, HEADER_WIDTH) == EDITION2.edition {
        EDITION2
    } else {
        EDITION1
    }
}

// Checks the image, of edition 1 or 2, and looks for the body with the id in the same pass.
pub fn check(image: &[u8], id: &[u8]) -> Option<Contents>
    ensures { result ≡ check_of image.now id.now }
{
    rows::check(layout_of(image), image, id)
}

// The same for an image that is to be written, which is of edition 2. Each of the three promises a definition of its own.
pub fn check_latest(image: &[u8], id: &[u8]) -> Option<Contents>
    ensures { result ≡ checkLatest image.now id.now }
{
    rows::check(EDITION2, image, id)
}

// The same for an image that is to be upgraded, which is of edition 1.
pub fn check_first(image: &[u8], id: &[u8]) -> Option<Contents>
    ensures { result ≡ checkBy edition1 image.now id.now }
{
    rows::check(EDITION1, image, id)
}

// Looks for the body with the id.
pub fn find(image: &[u8], id: &[u8]) -> Result<Part, FindError>
    ensures { result ≡ find_of image.now id.now }
{
    rows::find(layout_of(image), image, id)
}

// The body that was found in the image, as the part of the image itself; the empty part at the start where none was.
pub fn body_part(image: &[u8], finding: Result<Part, FindError>) -> &[u8]
    ensures { PartOf image.entry result (body_span image.now finding).start (body_span image.now finding).len }
{
    match finding {
        Ok(part) => octets::part_at(image, part.at, part.len),
        Err(_) => &image[..0],
    }
}
