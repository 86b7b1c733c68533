//! What is told of a text beside its labels.

use crate::reading::{Labels, lacking_in};
use enc_index::IndexSet;
use std::alloc::{AllocError, Global};
use std::fmt::Write;

/// Which part of a text was read, where it isn't all, and which encodings weren't tried.
pub(crate) fn notes_of(
    alloc: Global,
    set: &IndexSet,
    labels: &Labels,
    folder: &str,
) -> Result<String, AllocError> {
    let mut notes = String::new(alloc);
    if !labels.is_whole {
        writeln!(
            notes,
            "read: the first {} bytes; --all reads all",
            labels.bytes
        )?;
    }
    let lacking = lacking_in(alloc, set)?;
    if lacking.is_empty() {
        return Ok(notes);
    }
    write!(notes, "not tried, since {folder} lacks their index files: ")?;
    push_names(&mut notes, &lacking)?;
    notes.push('\n')?;
    Ok(notes)
}

// Adds names, with commas between them.
fn push_names(notes: &mut String, names: &[&'static str]) -> Result<(), AllocError> {
    let mut before = "";
    for name in names {
        write!(notes, "{before}{name}")?;
        before = ", ";
    }
    Ok(())
}
