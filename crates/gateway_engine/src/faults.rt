//! Why a run over a disk ends before its script does.
ghost use Rattle.std.specs.Prelude.{◌≡◌};

use gateway_script::ScriptFault;
use spool_image::OpenFault;

/// Why a run over a disk ends before its script does.
#[derive(Clone, Copy, Debug, PartialEq, Eq, Drop)]
pub enum RunFault {
    /// The disk wasn't opened as a spool: nothing of the script was read, and nothing was written.
    Open(OpenFault),
    /// The script ended early.
    Script(ScriptFault),
}

impl From<ScriptFault> for RunFault {
    ghost use Rattle.gateway_engine.specs.declared.faults.RunFault.{RunFault};

    fn from(fault: ScriptFault) -> Self
        ensures { result ≡ RunFault.Script fault }
    {
        RunFault::Script(fault)
    }
}
