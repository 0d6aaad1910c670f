// What is answered of bytes that are submitted, before the image is looked at: as reading answers, and 1 for an id that is not of version 7.
ghost use Rattle.std.specs.Prelude.{◌≡◌};
ghost use Rattle.submission_spec.specs.Submission.{ids_in, entering};
ghost use Rattle.submission.specs.Code.{IdsFit};

use descriptor::{Fields, ReadError};
use descriptor_spec::sizes::ID_SIZE;
use resource_spec::sizes::{FAY_SIZE, TERMINAL_SIZE};
use submission_spec::sizes::{FAY_TEXT, TERMINAL_TEXT};

// Whether the descriptor id, the fay id and the terminal id are of version 7, the two texts in lower case.
fn are_version7(body: &[u8], fields: Fields) -> bool
    requires { IdsFit body.now fields }
    ensures { result ≡ ids_in body.now fields }
{
    let id = fields.id;
    let fay = fields.fay;
    let terminal = fields.terminal;
    uuids::is_version7(&body[id..id + ID_SIZE])
        & (uuids::is_version7_text(&body[fay + FAY_TEXT..fay + FAY_SIZE])
            & uuids::is_version7_text(&body[terminal + TERMINAL_TEXT..terminal + TERMINAL_SIZE]))
}

// What is answered of the body: the ids come with structure, before the period.
pub(crate) fn read_entering(body: &[u8]) -> Result<Fields, ReadError>
    ensures { result ≡ entering body.now }
{
    let Some(fields) = descriptor::read_form(body) else {
        return Err(ReadError::Structure);
    };
    if !are_version7(body, fields) {
        return Err(ReadError::Structure);
    }
    descriptor::by_period(fields)
}
