ghost use Rattle.std.specs.Prelude.{◌≡◌};
ghost use Rattle.alg_parse.specs.Files.{lexical_cause, cause_of};

use alg_commands::readings::Unreadable;
use alg_elaborate::Cause;
use alg_lex::LexFault;

fn lexical_cause(fault: LexFault) -> Cause
    ensures { result ≡ lexical_cause fault }
{
    match fault {
        LexFault::BadChar { line: _ } => Cause::BadChar,
        LexFault::OpenComment { line: _ } => Cause::OpenComment,
        LexFault::LiteralTooWide { line: _ } => Cause::LiteralTooWide,
    }
}

/// The cause of a command that wasn't read.
pub fn cause_of(why: Unreadable) -> Cause
    ensures { result ≡ cause_of why }
{
    match why {
        Unreadable::Fault(fault) => lexical_cause(fault),
        Unreadable::TooDeep => Cause::TooDeep,
        Unreadable::Syntax => Cause::Syntax,
    }
}
