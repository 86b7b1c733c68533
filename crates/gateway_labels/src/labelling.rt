//! The labels that input may have, printed.
ghost use Rattle.std.specs.Prelude.{◌≡◌, ◌+◌, false, IfErr, IfOk, IsErrOf, OnOk, string_bytes};
ghost use Rattle.common.specs.Counts.{Counts};
ghost use Rattle.gateway_outside.specs.declared.faults.Fault.{Fault};
ghost use Rattle.gateway_labels.specs.Labelled.{IsUnprinted, LabelsAt, LabelsBy, Prints, fault_of, most_for};
ghost use Rattle.gateway_labels.specs.Lines.{label_lines};

use crate::json::json_of;
use crate::lines::lines_of;
use crate::notes::notes_of;
use crate::reading::{FIRST, Labels, labels_on};
use crate::unread::Unread;
use common::Stop;
use enc_index::IndexSet;
use gateway_indexes::{IndexFolders, read_indexes, report_others};
use gateway_outside::{Failure, Fault, Input, Output};
use std::alloc::{AllocError, Global};

/// What is wanted of the labels that input may have.
#[derive(Clone, Copy, Debug, Drop)]
pub struct WantedLabels {
    /// Whether all of the input is read, and not only its first MiB.
    pub all: bool,
    /// Whether all is printed by lines of JSON.
    pub json: bool,
}

/// Prints what each encoding makes of the input, the least strange text first, by the index files of a folder: of its
/// first MiB, or of all. On standard error it prints which index files aren't the standard's, what wasn't read and
/// which encodings weren't tried.
pub fn labels_in<'a, R: IndexFolders, I: Input, W: Output, E: Output>(
    alloc: Global,
    folders: &mut R,
    input: &mut I,
    output: &mut W,
    errors: &mut E,
    wanted: WantedLabels,
    folder: &'a str,
) -> Result<(), Failure<'a>>
    // The lines were printed, by the indexes of this folder; or these can't be read, and then neither the input nor the
    // output was called. `Io` is answered for the labels exactly where the input or the output refused.
    ensures labels { LabelsAt (R.have folders.old) (R.calls folders.old) (R.calls folders.new) folder.now
        (I.remaining input.old) (I.remaining input.new) (W.contents output.old) (W.contents output.new)
        (I.refusals input.old + W.refusals output.old) (I.refusals input.new + W.refusals output.new)
        ((input.new ≡ input.old) × (output.new ≡ output.old)) result wanted.all wanted.json }
{
    let read = match read_indexes(alloc, folders, folder) {
        Ok(read) => read,
        Err(failure) => return Err(failure),
    };
    // If standard error can't be written, this isn't reported.
    drop(report_others(errors, &read.files));
    labels_by(alloc, &read.set, input, output, errors, wanted, folder)
}

// Prints what each encoding makes of the input, by these indexes, which are of this folder.
fn labels_by<'a, I: Input, W: Output, E: Output>(
    alloc: Global,
    set: &IndexSet,
    input: &mut I,
    output: &mut W,
    errors: &mut E,
    wanted: WantedLabels,
    folder: &'a str,
) -> Result<(), Failure<'a>>
    ensures { LabelsBy set.now (I.remaining input.old) (I.remaining input.new) (W.contents output.old)
        (W.contents output.new) (I.refusals input.old + W.refusals output.old)
        (I.refusals input.new + W.refusals output.new) result wanted.all wanted.json }
{
    let labels = match labels_on(alloc, set, input, most_for(wanted.all)) {
        Ok(labels) => labels,
        Err(unread) => {
            return Err(Failure::on_streams(fault_of(unread), input.error(), None));
        }
    };
    match print_labels(alloc, set, &labels, output, wanted.json) {
        Ok(()) => {
            if !wanted.json {
                note(alloc, set, &labels, errors, folder);
            }
            return Ok(());
        }
        Err(fault) => return Err(Failure::on_streams(fault, None, output.error())),
    }
}

// How many bytes are read at most.
fn most_for(all: bool) -> u64
    ensures { result ≡ most_for all }
{
    if all { u64::MAX } else { FIRST }
}

// Why there are no labels, as the program reports it.
fn fault_of(unread: Unread) -> Fault
    ensures { result ≡ fault_of unread }
{
    match unread {
        Unread::NoMemory => Fault::Stop(Stop::NoMemory),
        Unread::Input | Unread::NoText => Fault::Io,
    }
}

// Prints lines, all at once: so whoever reads but the first one, as `head` does, is no failure.
fn print_labels<W: Output>(
    alloc: Global,
    set: &IndexSet,
    labels: &Labels,
    output: &mut W,
    json: bool,
) -> Result<(), Fault>
    ensures printed { OnOk result (Prints json (W.contents output.old) (W.contents output.new) labels.now) }
    ensures unprinted { IfErr result (IsUnprinted (W.contents output.old) (W.contents output.new)) }
    ensures io { Counts (IsErrOf result Fault.Io) (W.refusals output.old) (W.refusals output.new) }
{
    let lines = text_of(alloc, set, labels, json)?;
    output.put(lines.as_bytes())?;
    Ok(())
}

// What is printed of labels.
fn text_of(alloc: Global, set: &IndexSet, labels: &Labels, json: bool) -> Result<String, AllocError>
    ensures { json ≡ false → IfOk result (λ lines. string_bytes lines ≡ label_lines labels.now.choices.items) }
{
    if json {
        json_of(alloc, set, labels)
    } else {
        lines_of(alloc, &labels.choices)
    }
}

// Tells what wasn't read and which encodings weren't tried, if there is memory and standard error can be written.
fn note<E: Output>(alloc: Global, set: &IndexSet, labels: &Labels, errors: &mut E, folder: &str) {
    if let Ok(notes) = notes_of(alloc, set, labels, folder) {
        drop(errors.put(notes.as_bytes()));
    }
}
