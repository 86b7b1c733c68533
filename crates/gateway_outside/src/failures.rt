//! What the program reports at its end: the fault, and the system's error if it was the system that failed.

ghost use Rattle.std.specs.Prelude.{◌≡◌};
ghost use Rattle.std.specs.IoError.{error_kind};
ghost use Rattle.gateway_outside.specs.Faults.{opening_fault, exit_status_of};
ghost use Rattle.gateway_outside.specs.Failures.{status_with, fault_in};

use crate::advice::{Advice, Task};
use crate::faults::Fault;
use common::Stop;
use std::alloc::AllocError;
use std::io::Write;
use std::{fmt, io};

// What is in the second line.
#[derive(Clone, Copy, Debug, Drop)]
enum Cause<'a> {
    // what the system failed at, and why
    System(Task<'a>, io::Error),
    Advice(Advice<'a>),
}

/// Why the program ends before its work is done: one line, and a second one where the system failed or where there is
/// an advice.
#[derive(Clone, Copy, Debug, Drop)]
pub struct Failure<'a> {
    fault: Fault,
    cause: Option<Cause<'a>>,
}

impl<'a> Failure<'a> {
    ghost use Rattle.gateway_outside.specs.declared.faults.Fault.{Fault};

    /// The system failed at a task.
    pub fn new(fault: Fault, task: Task<'a>, error: io::Error) -> Self
        ensures { fault_in result ≡ fault }
    {
        Failure {
            fault,
            cause: Some(Cause::System(task, error)),
        }
    }

    /// A refusal, with an advice.
    pub fn advised(fault: Fault, advice: Advice<'a>) -> Self
        ensures { fault_in result ≡ fault }
    {
        Failure {
            fault,
            cause: Some(Cause::Advice(advice)),
        }
    }

    /// The system didn't open or make the spool at this path.
    pub fn on_opening(task: Task<'a>, path: &'a str, error: io::Error) -> Self
        ensures fault { fault_in result ≡ opening_fault (error_kind error) }
        ensures never_io { fault_in result ≡ Fault.Io → ⊥ }
    {
        match Fault::of_opening(error.kind()) {
            Fault::InUse => Failure::advised(Fault::InUse, Advice::InUse(path)),
            fault => Failure::new(fault, task, error),
        }
    }

    /// As `on_disk`, with an advice where the file can't be read as a spool.
    pub(crate) fn on_given(fault: Fault, path: &'a str, error: Option<io::Error>) -> Self
        ensures { fault_in result ≡ fault }
    {
        match fault {
            Fault::NotASpool => Failure::advised(fault, Advice::NoSpool(path)),
            Fault::Damaged => Failure::advised(fault, Advice::Damaged(path)),
            Fault::Version => Failure::advised(fault, Advice::Version(path)),
            Fault::AlreadyNew => Failure::advised(fault, Advice::AlreadyNew(path)),
            Fault::NumberTooLarge => Failure::advised(fault, Advice::Number),
            _ => Failure::on_disk(fault, path, error),
        }
    }

    /// Work on the spool at this path failed. If it was for the disk, this error is the reason.
    pub fn on_disk(fault: Fault, path: &'a str, error: Option<io::Error>) -> Self
        ensures { fault_in result ≡ fault }
    {
        match (fault, error) {
            (Fault::Stop(Stop::DiskFault), Some(error)) => Failure::new(
                fault,
                Task::UseSpool(path),
                error,
            ),
            _ => Failure::from(fault),
        }
    }

    /// A run over what was read and written failed. If reading failed, its error is the reason, or else the writer's.
    pub fn on_streams(fault: Fault, input: Option<io::Error>, output: Option<io::Error>) -> Self
        ensures { fault_in result ≡ fault }
    {
        match (fault, input, output) {
            (Fault::Io, Some(error), _) => Failure::new(fault, Task::ReadInput, error),
            (Fault::Io, None, Some(error)) => Failure::new(fault, Task::Print, error),
            _ => Failure::from(fault),
        }
    }

    /// Why it ended.
    pub fn fault(&self) -> Fault
        ensures { result ≡ fault_in self.now }
    {
        self.fault
    }

    /// The status that the program ends with, as `Fault::status`.
    pub fn status(&self) -> u8
        ensures { result ≡ exit_status_of (fault_in self.now) }
    {
        self.fault.status()
    }
}

/// The status that the program ends with. A failure is reported to a writer. If that takes nothing, only the status
/// shows it.
pub fn ended<W: Write>(writer: &mut W, outcome: Result<u8, Failure>) -> u8
    ensures { result ≡ status_with outcome.entry }
{
    match outcome {
        Ok(status) => status,
        Err(failure) => {
            let reported = writeln!(writer, "{failure}");
            drop(reported);
            failure.status()
        }
    }
}

impl fmt::Display for Failure<'_> {
    fn fmt<W: fmt::Write>(&self, f: &mut fmt::Formatter<W>) -> fmt::Result {
        match &self.cause {
            Some(Cause::System(task, error)) => {
                let advice = task.advice(error.kind());
                write!(f, "{}\n{task}: {error}{advice}", self.fault)
            }
            Some(Cause::Advice(advice)) => write!(f, "{}\n{advice}", self.fault),
            None => write!(f, "{}", self.fault),
        }
    }
}

impl<'a> From<Fault> for Failure<'a> {
    ghost from_gives = { λ fault failure. fault_in failure ≡ fault };

    fn from(fault: Fault) -> Self {
        Failure { fault, cause: None }
    }
}

impl<'a> From<AllocError> for Failure<'a> {
    ghost use Rattle.common.specs.declared.stop.Stop.{Stop};
    ghost use Rattle.gateway_outside.specs.declared.faults.Fault.{Fault};

    ghost from_gives = { λ _ failure. fault_in failure ≡ Fault.Stop Stop.NoMemory };

    fn from(error: AllocError) -> Self {
        Failure::from(Fault::from(error))
    }
}
