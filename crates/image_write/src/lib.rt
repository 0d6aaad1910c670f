// The functions that write the stored image; what an image is and what is promised of it is in `image_spec`.
#![tactic(auto)]

mod copy;
mod grow;
mod moments;

ghost use Rattle.std.specs.Prelude.{◌≡◌};
ghost use Rattle.image_spec.specs.NewImage.{creation_of};
ghost use Rattle.image_spec.specs.Touch.{after_touch};
ghost use Rattle.image_spec.specs.Upgrade.{upgrade_of, after_upgrade};
ghost use Rattle.image_spec.specs.Edition2.{after_new, added_of, after_add};

use crate::grow::NewRow;
use image_spec::Room;
use image_spec::layout::EDITION2;
pub use image_spec::{AddError, CreateError, UpgradeError, Written};
use time::Seconds;

// Makes a new image of no bodies; a buffer under 8 bytes is left as it was.
pub fn new_image(image: &mut [u8]) -> Result<(), CreateError>
    ensures { (result ≡ creation_of image.old) × (image.new ≡ after_new image.old) }
{
    grow::new_image(EDITION2, image)
}

// Adds the body last to an image of so many rows, whose bodies end at `end`; its id stands at `id` in it, and it was last used at `used`.
// Where it cannot be added nothing is written. The parts stay plain parameters: `submission` has them in a struct of its own, and would take
// that apart to fill another.
pub fn add_body(
    image: &mut [u8],
    rows: u64,
    end: usize,
    body: &[u8],
    id: usize,
    mask: u64,
    used: Seconds,
) -> Result<(), AddError>
    ensures { (result ≡ added_of image.old rows end body.now id)
        × (image.new ≡ after_add image.old rows end body.now id mask used.0) }
{
    let room = Room { rows, end };
    let row = NewRow {
        body,
        id,
        mask,
        used,
    };
    grow::add_body(EDITION2, image, room, row)
}

// Raises the last-used moment of a row of the image, of edition 1 or 2, where the moment is later; in edition 1, whose rows have none, nothing
// is written.
pub fn touch(image: &mut [u8], row: usize, moment: Seconds)
    ensures { image.new ≡ after_touch image.old row moment.0 }
{
    let layout = image::layout_of(image);
    moments::touch(layout, image, row, moment);
}

// Turns the old image, of edition 1, into one of edition 2 in the buffer. Where the old one is not sound, or the buffer is too short, nothing
// is written.
pub fn upgrade(old: &[u8], image: &mut [u8]) -> Result<usize, UpgradeError>
    ensures { (result ≡ upgrade_of old.now image.old)
        × (image.new ≡ after_upgrade old.now image.old) }
{
    copy::upgrade(old, image)
}
