// Tests and sums over the arrays of a record: the places that its counts use, those that they leave unused, and how far its numbers reach.
#![tactic(auto)]

pub mod span;
pub mod spare;
pub mod used;

// Document 01's limits: of an exponent and of a record's identifier.
pub const MAX_EXPONENT: u8 = 63;

pub const MAX_IDENTIFIER: u32 = 2000000000;
