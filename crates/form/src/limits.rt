// The numbers of document 01 that a later request may change. Every crate has them from here; proofs hold them to `specs/Limits.antt`.

// The bytes of a name or a text number.
pub const NAME_WIDTH: usize = 2;

// One past the largest name.
pub const NAME_END: usize = 65536;

// The most bytes of a value or a type.
pub const MOST_BYTES: usize = 16384;

// The levels that a value reaches, counting types inside it.
pub const VALUE_LEVELS: usize = 31;

// The levels that a type reaches.
pub const TYPE_LEVELS: usize = 32;

// The largest exponent of a decimal number.
pub const MOST_EXPONENT: u8 = 18;

// The most names of a path.
pub const MOST_NAMES: usize = 31;
