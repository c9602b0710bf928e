//! The statuses of calls.

/// The call did what it is for.
pub const OK: u32 = 0;

/// The octets are no encoding, the text spells no types, or the JSON is no value of the type.
pub const REJECTED: u32 = 1;

/// The handle has no types.
pub const NO_TYPES: u32 = 2;

/// No definition has the Name.
pub const UNNAMED: u32 = 3;

/// An allocation failed.
pub const MEMORY: u32 = 4;

/// The buffer is too small.
pub const ROOM: u32 = 5;

/// The text spells no path, or no names.
pub const NO_PATH: u32 = 6;

/// The path leads nowhere, or the names do.
pub const NO_STEP: u32 = 7;

/// The path, or the names, lead to a component or an addition that is absent, or the names to an alternative that isn't chosen.
pub const ABSENT: u32 = 8;

/// The text is not JSON.
pub const NO_JSON: u32 = 9;

/// The message is not all in the octets.
pub const OUTSIDE: u32 = 10;

/// The octets are an encoding, but not the canonical one.
pub const NOT_CANONICAL: u32 = 11;

/// Octets follow the encoding.
pub const FOLLOWS: u32 = 12;
