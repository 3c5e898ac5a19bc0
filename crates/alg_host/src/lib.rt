//! The host: what the program may ask of the outside world, a host in memory and the real one.
#![tactic(auto)]

mod buffer;
pub mod host;
pub mod memory_host;
pub mod real_host;

pub use alg_expr::Memory;
pub use alg_kernel::Proved;
pub use host::{CreateFault, Failed, Host, LoadFault};
pub use memory_host::MemoryHost;
pub use real_host::RealHost;
