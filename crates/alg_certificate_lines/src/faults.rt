ghost use Rattle.std.specs.Prelude.{◌≡◌};

use alg_expr::Memory;
use thiserror::Error;

/// Why no line is built: the causes of the first look at a line, the first of them first.
#[derive(Clone, Copy, Debug, Drop, Error)]
pub enum LineFault {
    /// A number of a variable, function or type that the base hasn't.
    #[error("bad name")]
    BadName,
    /// A tree whose arities or sorts don't fit.
    #[error("bad sort")]
    BadSort,
    /// A class is missing that a symbol, a literal or a relation needs.
    #[error("no instance")]
    NoInstance,
    /// Want of memory.
    #[error("out of memory")]
    Memory,
}

impl From<Memory> for LineFault {
    ghost use Rattle.alg_certificate_lines.specs.declared.faults.LineFault.TheVariants as fault;

    ghost from_gives = { λ _ f. f ≡ fault.Memory };

    fn from(_: Memory) -> LineFault {
        LineFault::Memory
    }
}
