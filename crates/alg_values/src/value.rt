use alg_num::Frac;

/// What a tree denotes: a fraction, one past the range, or nothing.
#[derive(Clone, Copy, Debug)]
pub enum Value {
    Num(Frac),
    Past,
    Without,
}
