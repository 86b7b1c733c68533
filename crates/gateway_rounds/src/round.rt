//! One round: work on a disk, and its end.
ghost use Rattle.std.specs.Prelude.{◌≡◌, ℕ, List, [], None};
ghost use Rattle.upload_rules.specs.Store.{Store};
ghost use Rattle.gateway_engine.specs.RanOn.{AllShowOne};
ghost use Rattle.gateway_rounds.specs.Rounds.{IsEnd, IsRaise, IsRound, IsRun, IsUpgrade, IsWork};

use crate::streams::{ScriptBytes, WrittenBytes};
use gateway_engine::{RunFault, run};
use spool_disk::CrashDisk;
use spool_image::{RaiseError, UpgradeError, raise, upgrade};
use std::alloc::Global;

/// A round of a disk's life: what is done, what came of it, and how the round ends.
#[derive(Drop)]
pub struct Round<C> {
    /// What is done.
    pub work: Work,
    /// How the round ends.
    pub end: End<C>,
}

/// What is done in a round.
#[derive(Drop)]
pub enum Work {
    /// The spool is opened, and a script is run over it.
    Run(Run),
    /// The spool is brought to version 2. Afterwards it has why it wasn't.
    Upgrade(Option<UpgradeError>),
    /// The spool gets a later next number.
    Raise(Raise),
}

/// How a round ends.
#[derive(Drop)]
pub enum End<C> {
    /// The disk crashes, and goes on with the image that is chosen so.
    Crash(C),
    /// The disk goes on as it is, also where it failed.
    Nothing,
}

/// A run of a script.
#[derive(Drop)]
pub struct Run {
    /// The script.
    pub script: Vec<u8>,
    /// What the run writes is put after what is here. The run ends with `Script(Io)` where this is refused to grow.
    pub written: WrittenBytes,
    /// Why the run ended before its script did.
    pub fault: Option<RunFault>,
}

/// A next number for a spool.
#[derive(Drop)]
pub struct Raise {
    /// What the next number is to be, unless it is that or later already.
    pub number: u64,
    /// Why it isn't. In a raise that isn't begun yet, `None`.
    pub fault: Option<RaiseError>,
}

impl Run {
    /// A run that isn't begun yet.
    pub fn new(alloc: Global, script: Vec<u8>) -> Self
        ensures script { result.script ≡ script }
        ensures unwritten { result.written.bytes.items ≡ [] }
        ensures unrefused { result.written.refusals ≡ 0 }
        ensures unended { result.fault ≡ None }
    {
        Run {
            script,
            written: WrittenBytes {
                bytes: Vec::new(alloc),
                refusals: 0,
            },
            fault: None,
        }
    }
}

// The disk is opened, and the script is run over it.
fn live_run<D: CrashDisk>(alloc: Global, disk: D, round: &mut Run) -> D
    ensures { (n : ℕ) (before : List Store) → AllShowOne D.Disk disk n before → (left : List Store)
        × AllShowOne D.Disk result n left × IsRun D.Disk n disk result before left round.old round.new }
{
    let mut script = ScriptBytes::new(round.script.as_slice());
    match run(alloc, &mut script, &mut round.written, disk) {
        Ok(disk) => {
            round.fault = None;
            disk
        }
        Err((disk, fault)) => {
            round.fault = Some(fault);
            disk
        }
    }
}

// The spool is brought to version 2.
fn live_upgrade<D: CrashDisk>(alloc: Global, disk: D, error: &mut Option<UpgradeError>) -> D
    ensures { (n : ℕ) (before : List Store) → AllShowOne D.Disk disk n before → (left : List Store)
        × AllShowOne D.Disk result n left × IsUpgrade D.Disk n disk result before left error.new }
{
    let mut disk = disk;
    match upgrade(alloc, &mut disk) {
        Ok(()) => {
            *error = None;
            disk
        }
        Err(refusal) => {
            *error = Some(refusal);
            disk
        }
    }
}

// The spool gets a later next number.
fn live_raise<D: CrashDisk>(alloc: Global, disk: D, asked: &mut Raise) -> D
    ensures { (n : ℕ) (before : List Store) → AllShowOne D.Disk disk n before → (left : List Store)
        × AllShowOne D.Disk result n left × IsRaise D.Disk n disk result before left asked.old asked.new }
{
    let mut disk = disk;
    match raise(alloc, &mut disk, asked.number) {
        Ok(_next) => {
            asked.fault = None;
            disk
        }
        Err(fault) => {
            asked.fault = Some(fault);
            disk
        }
    }
}

// The work is done on the disk.
fn work_on<D: CrashDisk>(alloc: Global, disk: D, work: &mut Work) -> D
    ensures { (n : ℕ) (before : List Store) → AllShowOne D.Disk disk n before → (left : List Store)
        × AllShowOne D.Disk result n left × IsWork D.Disk n disk result before left work.old work.new }
{
    match work {
        Work::Run(run) => live_run(alloc, disk, run),
        Work::Upgrade(error) => live_upgrade(alloc, disk, error),
        Work::Raise(asked) => live_raise(alloc, disk, asked),
    }
}

// The disk crashes, or it goes on as it is.
fn end_of<D: CrashDisk>(disk: D, end: &End<D::How>) -> D
    ensures { (n : ℕ) (left : List Store) → AllShowOne D.Disk disk n left → (next : List Store)
        × AllShowOne D.Disk result n next × IsEnd D.Disk D.chosen end.now disk result left next }
{
    match end {
        End::Crash(how) => disk.restart(how),
        End::Nothing => disk,
    }
}

// The work is done on the disk, and the round ends.
pub(crate) fn live<D: CrashDisk>(alloc: Global, disk: D, round: &mut Round<D::How>) -> D
    ensures { (n : ℕ) (before : List Store) → AllShowOne D.Disk disk n before
        → (next : List Store) × IsRound D.Disk D.chosen n disk result before next round.old round.new }
{
    let back = work_on(alloc, disk, &mut round.work);
    end_of(back, &round.end)
}
