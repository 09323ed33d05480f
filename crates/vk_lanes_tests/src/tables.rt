// What gcc makes of C's operators at the ends of each type: data/lanes.c.

pub(crate) mod conversions;
pub(crate) mod signed;
pub(crate) mod unsigned;
