/// The greatest value of a literal.
pub const GREATEST_LITERAL: u128 = (1 << 127) - 1;
