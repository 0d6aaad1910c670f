// Submission of a descriptor to a stored image, as document 01 has it. What is promised is in specs/Promises.antt. No function: here are the
// refusals of a submission; `submission` has the functions.
#![tactic(auto)]

pub mod sizes;

// Why a submission is refused, by the first step that fails: 15 malformed arguments, 16 bad image, 1 and 2 from reading (1 also for an id
// that is not of version 7, 2 also where it begins more than a day ahead), 3 unknown issuer, 14 the key is not valid, 4 bad signature, 5
// other bytes under a held id, 6 no room.
#[derive(Clone, Copy)]
pub enum Refusal {
    Malformed,
    BadImage,
    Structure,
    Validity,
    UnknownIssuer,
    KeyInvalid,
    BadSignature,
    Duplicate,
    Full,
}
