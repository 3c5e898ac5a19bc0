ghost use Rattle.std.specs.Prelude.{◌≡◌, ◌<◌, ◌≤◌, ◌||◌, List, ℕ, Bool, IsTrue, is_ok, length, IfOk, IsErrOf, Option, IfSome};
ghost use Rattle.std.specs.Option.{IsSomeAnd};

use alg_expr::Memory;
use alg_kernel::Proved;
use std::alloc::Global;
use thiserror::Error;

/// Why a file isn't loaded.
#[derive(Clone, Copy, Debug, Drop, PartialEq, Eq, Error)]
pub enum LoadFault {
    #[error("cannot read")]
    Failed,
    #[error("longer than the limit")]
    TooLong,
    #[error("out of memory")]
    Memory,
}

/// Why a file isn't created.
#[derive(Clone, Copy, Debug, Drop, PartialEq, Eq, Error)]
pub enum CreateFault {
    #[error("cannot create")]
    Failed,
    #[error("out of memory")]
    Memory,
}

/// A call on the outside world failed.
#[derive(Clone, Copy, Debug, Drop, PartialEq, Eq, Error)]
#[error("cannot read or write")]
pub struct Failed;

/// What a run may ask for: a file's bytes, a file to append to, bytes on standard output and standard error, and a place
/// for checked goals.
///
/// A host counts its faults, those of `complain` apart from those of `load`, `create`, `append` and `say`, and neither
/// count ever falls. It may also tell what its files hold, which files were loaded and created, what was appended, said
/// and complained, and which goals were handed over: all of these, or none. A host that doesn't tell still keeps the
/// counts and the limit.
pub trait Host {
    ghost use Rattle.alg_host.specs.Host.{Told, Counts, CountsLoad, CountsCreate, after_load, after_create, after_proved, Adds, adds_appended, adds_said, adds_complained};

    /// How often a `load`, `create`, `append` or `say` has answered `Failed`.
    ghost faults: { Self → ℕ };

    /// How often a `complain` has answered `Failed`.
    ghost complaint_faults: { Self → ℕ };

    /// Whether a `create` has answered Ok.
    ghost made: { Self → Bool };

    /// What the host tells of its files, calls, outputs and goals, where it tells.
    ghost told: { Self → Option Told };

    /// The bytes of the file at `path`. After `Memory` the host is as it was.
    fn load(&mut self, alloc: Global, path: &str, limit: u64) -> Result<Vec<u8>, LoadFault>
        ensures told { told self.new ≡ after_load path.now result (told self.old) }
        ensures cause { CountsLoad (faults self.old) (faults self.new) result }
        ensures complaint_faults { complaint_faults self.new ≡ complaint_faults self.old }
        ensures made { made self.new ≡ made self.old }
        ensures within { IfOk result (λ bytes. length bytes.items ≤ limit) }
        ensures bytes { IfSome (told self.old) (λ t. IfOk result (λ bytes. t.files path.now ≡ Some bytes.items)) }
        ensures too_long { IfSome (told self.old) (λ t. IsErrOf result LoadFault.TooLong → IsSomeAnd (t.files path.now) (λ bytes. limit < length bytes)) };

    /// Makes the file at `path`, or empties it, for `append` to add to. It is told apart from the files by path. After
    /// `Failed` the file is as before or empty; after `Memory` the host is as it was.
    fn create(&mut self, alloc: Global, path: &str) -> Result<(), CreateFault>
        ensures told { told self.new ≡ after_create path.now result (told self.old) }
        ensures cause { CountsCreate (faults self.old) (faults self.new) result }
        ensures complaint_faults { complaint_faults self.new ≡ complaint_faults self.old }
        ensures made { made self.new ≡ (made self.old || is_ok result) };

    /// Adds the whole piece to the created file, or answers `Failed` after a prefix of it.
    fn append(&mut self, bytes: &[u8]) -> Result<(), Failed>
        requires { IsTrue (made self.old) }
        ensures told { Adds adds_appended bytes.now result (told self.old) (told self.new) }
        ensures cause { Counts (faults self.old) (faults self.new) result }
        ensures complaint_faults { complaint_faults self.new ≡ complaint_faults self.old }
        ensures made { made self.new ≡ made self.old };

    /// Writes the whole piece to standard output, or answers `Failed` after a prefix of it.
    fn say(&mut self, bytes: &[u8]) -> Result<(), Failed>
        ensures told { Adds adds_said bytes.now result (told self.old) (told self.new) }
        ensures cause { Counts (faults self.old) (faults self.new) result }
        ensures complaint_faults { complaint_faults self.new ≡ complaint_faults self.old }
        ensures made { made self.new ≡ made self.old };

    /// Writes the whole piece to standard error, or answers `Failed` after a prefix of it.
    fn complain(&mut self, bytes: &[u8]) -> Result<(), Failed>
        ensures told { Adds adds_complained bytes.now result (told self.old) (told self.new) }
        ensures cause { Counts (complaint_faults self.old) (complaint_faults self.new) result }
        ensures faults { faults self.new ≡ faults self.old }
        ensures made { made self.new ≡ made self.old };

    /// Takes a checked goal. After `Memory` the host is as it was.
    fn proved(&mut self, alloc: Global, goal: Proved) -> Result<(), Memory>
        ensures told { told self.new ≡ after_proved goal result (told self.old) }
        ensures faults { faults self.new ≡ faults self.old }
        ensures complaint_faults { complaint_faults self.new ≡ complaint_faults self.old }
        ensures made { made self.new ≡ made self.old };
}
