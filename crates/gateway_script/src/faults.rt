//! Why a run of a script ends before the script does.
ghost use Rattle.std.specs.Prelude.{◌≡◌};
ghost use Rattle.gateway_script.specs.Faults.{script_fault};

use common::Stop;
use gateway_streams::Refused;
use std::alloc::AllocError;

/// Why a call of a script's line isn't done.
#[derive(Clone, Copy, Debug, PartialEq, Eq, Drop)]
pub enum CallFault {
    /// Out of memory outside the calls of the connections, or the disk failed.
    Stop(Stop),
    /// The writer refused.
    Io,
}

/// Why a run over uploads ends before its script does.
#[derive(Clone, Copy, Debug, PartialEq, Eq, Drop)]
pub enum ScriptFault {
    /// Out of memory outside the calls of the connections, or the disk failed.
    Stop(Stop),
    /// The line of this number, counted from 1, is no line of a script, or it or the script is too long.
    Script(u64),
    /// The reader or the writer refused.
    Io,
}

impl From<AllocError> for CallFault {
    ghost use Rattle.common.specs.declared.stop.Stop.{Stop};
    ghost use Rattle.gateway_script.specs.declared.faults.CallFault.{CallFault};

    ghost from_gives = { λ _ fault. fault ≡ CallFault.Stop Stop.NoMemory };

    fn from(_error: AllocError) -> CallFault {
        CallFault::Stop(Stop::NoMemory)
    }
}

impl From<Refused> for ScriptFault {
    ghost use Rattle.gateway_script.specs.declared.faults.ScriptFault.{ScriptFault};

    ghost from_gives = { λ _ fault. fault ≡ ScriptFault.Io };

    fn from(_refused: Refused) -> ScriptFault {
        ScriptFault::Io
    }
}

impl From<AllocError> for ScriptFault {
    ghost use Rattle.common.specs.declared.stop.Stop.{Stop};
    ghost use Rattle.gateway_script.specs.declared.faults.ScriptFault.{ScriptFault};

    ghost from_gives = { λ _ fault. fault ≡ ScriptFault.Stop Stop.NoMemory };

    fn from(_error: AllocError) -> ScriptFault {
        ScriptFault::Stop(Stop::NoMemory)
    }
}

impl From<CallFault> for ScriptFault {
    ghost from_gives = { λ call fault. fault ≡ script_fault call };

    fn from(fault: CallFault) -> ScriptFault {
        match fault {
            CallFault::Stop(stop) => ScriptFault::Stop(stop),
            CallFault::Io => ScriptFault::Io,
        }
    }
}
