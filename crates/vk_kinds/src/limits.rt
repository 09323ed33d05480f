// The limits of functions and names.

/// A function has at most this many parameters.
pub const MAX_PARAMETERS: usize = 64;

/// An identifier has at most this many bytes.
pub const MAX_IDENTIFIER_BYTES: usize = 1024;
