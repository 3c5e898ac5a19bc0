//! The program as a library: words in, a report out, over any host.
#![tactic(auto)]

mod program;

pub use alg_exts::{NumExt, SignExt};
pub use alg_host::{Failed, Host, LoadFault, Memory, MemoryHost, RealHost};
pub use alg_run::Status;
pub use program::{Extensions, run};
