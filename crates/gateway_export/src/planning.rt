//! Which texts are to be written, and the names of their files.
ghost use Rattle.std.specs.Prelude.{◌≡◌, IfErr, IfOk, OnOk, Bool, ◌∷◌, ◌++◌, [], map, option_map, string_bytes};
ghost use Rattle.common.specs.declared.stop.Stop.{Stop};
ghost use Rattle.upload_rules.specs.Lengths.{is_length};
ghost use Rattle.upload_rules.specs.World.{World};
ghost use Rattle.gateway_outside.specs.declared.faults.Fault.{Fault};
ghost use Rattle.gateway_outside.specs.Files.{Files};
ghost use Rattle.gateway_outside.specs.InOrder.{IsInOrder};
ghost use Rattle.gateway_export.specs.Planning.{file_name, job_for, job_in, jobs_of, name_or, number_name, taken_or};

use crate::folders::Folder;
use common::Stop;
use gateway_outside::Fault;
use gateway_texts::{given_name, is_safe_name};
use std::alloc::{AllocError, Global};
use upload_rules::{Record, Uploads, is_length};

// The most bytes of a file's name.
const LONGEST: usize = 255;

/// An upload, and the name of its file. `None` where its text isn't written.
#[derive(Drop)]
pub struct Job {
    /// The upload's number.
    pub number: u64,
    /// The name of the file.
    pub name: Option<String>,
    /// Its name where the folder doesn't take that one.
    pub plain: String,
}

/// All uploads by number. The text of one is written where it is complete, or where all are. Its file has its number, a
/// hyphen and the name that its metadata gives, where that is safe and the folder takes it, and else its number and
/// `.txt`: the plain name, which each job has too, since a folder may refuse the other one only later.
///
/// Refused with `NoMemory`.
pub fn plan<U: Uploads, F: Folder>(
    alloc: Global,
    uploads: &U,
    folder: &F,
    all: bool,
) -> Result<Vec<Job>, Fault>
    // On any disk: for the uploads that they represent.
    ensures jobs { (sure : Bool) (w : World) → U.represents uploads.now sure w → IsInOrder w.store → (files : Files)
        → F.holds folder.now files
        → IfOk result (λ jobs. map (job_in (F.takes folder.now)) jobs.items
        ≡ jobs_of (F.takes folder.now) all w.store) }
    ensures refused { IfErr result (λ fault. fault ≡ Fault.Stop Stop.NoMemory) }
{
    let mut jobs = Vec::new(alloc);
    let mut number = 0;
    for _ in 0..u64::MAX {
        let Some(record) = uploads.record_after(number) else {
            return Ok(jobs);
        };
        push_job(alloc, &mut jobs, folder, record, all)?;
        number = record.number;
    }
    // No memory holds so many jobs.
    Err(Fault::Stop(Stop::NoMemory))
}

// Adds the job of an upload.
fn push_job<F: Folder>(
    alloc: Global,
    jobs: &mut Vec<Job>,
    folder: &F,
    record: &Record,
    all: bool,
) -> Result<(), Fault>
    ensures job { (files : Files) → F.holds folder.now files
        → OnOk result (map (job_in (F.takes folder.now)) jobs.new.items
        ≡ map (job_in (F.takes folder.now)) jobs.old.items ++ job_for (F.takes folder.now) all record.now.number
        (is_length record.now.declared record.now.accepted) record.now.metadata.bytes.items ∷ []) }
    ensures refused { IfErr result (λ fault. fault ≡ Fault.Stop Stop.NoMemory) }
{
    let name = if all || is_length(record.declared, record.accepted) {
        Some(file_name(alloc, folder, record.number, record.metadata.as_str())?)
    } else {
        None
    };
    let number = record.number;
    let plain = plain_name(alloc, number)?;
    match jobs.push(Job {
        number,
        name,
        plain,
    }) {
        Ok(()) => Ok(()),
        Err(full) => Err(AllocError::from(full).into()),
    }
}

// The name of an upload's file.
fn file_name<F: Folder>(
    alloc: Global,
    folder: &F,
    number: u64,
    metadata: &str,
) -> Result<String, Fault>
    ensures name { (files : Files) → F.holds folder.now files
        → IfOk result (λ name. taken_or (F.takes folder.now) (string_bytes name) (number_name number)
        ≡ file_name (F.takes folder.now) number metadata.now) }
    ensures refused { IfErr result (λ fault. fault ≡ Fault.Stop Stop.NoMemory) }
{
    match long_name(alloc, folder, number, metadata)? {
        Some(name) => Ok(name),
        None => plain_name(alloc, number),
    }
}

// The name by an upload's number alone.
fn plain_name(alloc: Global, number: u64) -> Result<String, Fault>
    ensures name { IfOk result (λ name. string_bytes name ≡ number_name number) }
    ensures refused { IfErr result (λ fault. fault ≡ Fault.Stop Stop.NoMemory) }
{
    Ok(format!(in alloc; "{number}.txt")?)
}

// The name by an upload's number and a name that its metadata gives, where the folder may take it.
fn long_name<F: Folder>(
    alloc: Global,
    folder: &F,
    number: u64,
    metadata: &str,
) -> Result<Option<String>, Fault>
    ensures name { (files : Files) → F.holds folder.now files
        → IfOk result (λ name. name_or (F.takes folder.now) (option_map string_bytes name) number
        ≡ file_name (F.takes folder.now) number metadata.now) }
    ensures refused { IfErr result (λ fault. fault ≡ Fault.Stop Stop.NoMemory) }
{
    let Some(given) = given_name(alloc, metadata.as_bytes())? else {
        return Ok(None);
    };
    if !is_safe_name(&given) {
        return Ok(None);
    }
    let name = format!(in alloc; "{number}-{given}")?;
    if name.len() > LONGEST {
        return Ok(None);
    }
    if folder.may_take(&name)? {
        Ok(Some(name))
    } else {
        Ok(None)
    }
}
