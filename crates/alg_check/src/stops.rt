ghost use Rattle.std.specs.Prelude.{◌≡◌, IfErr};
ghost use Rattle.alg_host.specs.Host.{Adds, adds_said};
ghost use Rattle.alg_check.specs.Faults.{CountsFaults};

use alg_expr::Memory;
use alg_host::{Failed, Host};

/// Why the check ends early.
#[derive(Clone, Copy, Debug, PartialEq, Eq)]
pub enum Stop {
    /// A call on the host failed.
    HostFailed,
    /// Want of memory.
    Memory,
}

impl From<Memory> for Stop {
    ghost use Rattle.alg_check.specs.declared.stops.Stop.TheVariants as stop;

    ghost from_gives = { λ _ s. s ≡ stop.Memory };

    fn from(_: Memory) -> Stop {
        Stop::Memory
    }
}

pub(crate) fn say<H: Host>(host: &mut H, bytes: &[u8]) -> Result<(), Stop>
    ensures told { Adds adds_said bytes.now result (H.told host.old) (H.told host.new) }
    ensures faults { CountsFaults (Err Stop.HostFailed) result (H.faults host.old) (H.faults host.new) (H.complaint_faults host.old) (H.complaint_faults host.new) }
    ensures stop { IfErr result (λ e. e ≡ Stop.HostFailed) }
{
    match host.say(bytes) {
        Ok(()) => Ok(()),
        Err(Failed) => Err(Stop::HostFailed),
    }
}
