// The fixed byte strings of the maps of source 002: published keys, algorithms and mode names, each with its head, as it stands in the
// bytes.

// The head of a map of three, and "payload".
pub const BEFORE_PAYLOAD: [u8; 9] = *b"\xa3gpayload";
// "version", 1, "signature", the head of a map of three, and "key_id".
pub const BEFORE_KEY_ID: [u8; 27] = *b"gversion\x01isignature\xa3fkey_id";

// Keys with the head of their value behind them, where that head is always the same or the usual one: a time of four bytes, a terminal
// id of 45 bytes, an id of 16, a fay id of 40; and "algorithm", "ed25519", "signature_value" with the head of 64 bytes.
pub const ISSUED_AT_FOUR: [u8; 11] = *b"iissued_at\x1a";

pub const NOT_AFTER_FOUR: [u8; 11] = *b"inot_after\x1a";

pub const NOT_BEFORE_FOUR: [u8; 12] = *b"jnot_before\x1a";

pub const BEFORE_TERMINAL_ID: [u8; 14] = *b"kterminal_id\x78\x2d";

pub const BEFORE_DESCRIPTOR_ID: [u8; 15] = *b"mdescriptor_id\x50";

pub const BEFORE_SUBJECT_FAY_ID: [u8; 17] = *b"nsubject_fay_id\x78\x28";

pub const BEFORE_ED25519_VALUE: [u8; 36] = *b"ialgorithmged25519osignature_value\x58\x40";

// The other keys of a payload, a signature and a grant.
pub const GRANTS: [u8; 7] = *b"fgrants";

pub const METADATA: [u8; 9] = *b"hmetadata";

pub const ISSUED_AT: [u8; 10] = *b"iissued_at";

pub const ISSUER_ID: [u8; 10] = *b"iissuer_id";

pub const NOT_AFTER: [u8; 10] = *b"inot_after";

pub const GRANTOR_ID: [u8; 11] = *b"jgrantor_id";

pub const NOT_BEFORE: [u8; 11] = *b"jnot_before";

pub const TERMINAL_ID: [u8; 12] = *b"kterminal_id";

pub const DESCRIPTOR_ID: [u8; 14] = *b"mdescriptor_id";

pub const SUBJECT_FAY_ID: [u8; 15] = *b"nsubject_fay_id";

pub const ALGORITHM: [u8; 10] = *b"ialgorithm";

pub const SIGNATURE_VALUE: [u8; 16] = *b"osignature_value";

pub const MODES: [u8; 6] = *b"emodes";

pub const CONSTRAINTS: [u8; 12] = *b"kconstraints";

pub const RESOURCE_PATTERN: [u8; 17] = *b"presource_pattern";

// Algorithms.
pub const ED25519: [u8; 8] = *b"ged25519";

pub const ECDSA_P256_SHA256: [u8; 18] = *b"qecdsa-p256-sha256";

// Modes, in the order of their numbers.
pub const READ: [u8; 5] = *b"dread";

pub const WRITE: [u8; 6] = *b"ewrite";

pub const EXECUTE: [u8; 8] = *b"gexecute";

pub const CONFIGURE: [u8; 10] = *b"iconfigure";
