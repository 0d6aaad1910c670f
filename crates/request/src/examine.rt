// The check of the image, and the steps on the body that is held. Nothing is written here.
ghost use Rattle.std.specs.Prelude.{◌≡◌};
ghost use Rattle.request.specs.Code.{asked_of, ExaminedAs};

use crate::{Asked, Environment, Granted, Refusal};

// Examines a request for the descriptor with the id: the row that is held and what is granted.
pub(crate) fn examine(
    image: &[u8],
    asked: Asked,
    host: Environment,
) -> Result<(usize, Granted), Refusal>
    ensures { ExaminedAs image.now (asked_of asked.entry host) result }
{
    let lease = crate::arguments::check(asked, host)?;
    let Some(contents) = image::check(image, asked.id) else {
        return Err(Refusal::BadImage);
    };
    let Some(held) = contents.held else {
        return Err(Refusal::NotFound);
    };
    let body = &image[held.at..held.at + held.len];
    let granted = crate::decide::on_body(body, held.fields, asked, lease, host)?;
    Ok((held.row, granted))
}
