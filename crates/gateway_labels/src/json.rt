//! The choices as lines of JSON.

use crate::choice::Choice;
use crate::lines::{have_same, is_first};
use crate::reading::{Labels, lacking_in};
use enc_index::IndexSet;
use enc_labels::name_of;
use serde::Serialize;
use std::alloc::{AllocError, Global};

/// The choices that share a text, as they are in a line.
#[derive(Drop, Serialize)]
struct Group<'a> {
    labels: Vec<&'static str>,
    /// how many U+FFFD the text has
    lost: u64,
    strangeness: u64,
    /// null for a text of ASCII alone
    line: Option<&'a str>,
}

/// The last line: what was read.
#[derive(Drop, Serialize)]
struct Read {
    bytes: u64,
    /// whether the text ended with them
    whole: bool,
    /// the encodings whose index files aren't there
    lacking: Vec<&'static str>,
}

/// A line of JSON for each text that the choices have, in their order, and a last one of what was read. It is only
/// tested what is in them.
pub fn json_of(alloc: Global, set: &IndexSet, labels: &Labels) -> Result<String, AllocError> {
    let choices = labels.choices.as_slice();
    let mut lines = String::new(alloc);
    for choice in choices {
        if is_first(choices, choice) {
            push_object(alloc, &mut lines, &group_of(alloc, choices, choice)?)?;
        }
    }
    let read = Read {
        bytes: labels.bytes,
        whole: labels.is_whole,
        lacking: lacking_in(alloc, set)?,
    };
    push_object(alloc, &mut lines, &read)?;
    Ok(lines)
}

// The choices with the text of one.
fn group_of<'a>(
    alloc: Global,
    choices: &'a [Choice],
    first: &'a Choice,
) -> Result<Group<'a>, AllocError> {
    let mut labels = Vec::new(alloc);
    for choice in choices {
        if have_same(choice, first) {
            labels.push(name_of(choice.encoding))?;
        }
    }
    Ok(Group {
        labels,
        lost: first.lost,
        strangeness: first.strangeness,
        line: first.line.as_deref(),
    })
}

// Adds a line.
fn push_object<T: Serialize>(
    alloc: Global,
    lines: &mut String,
    object: &T,
) -> Result<(), AllocError> {
    // It fails only when out of memory.
    let Ok(line) = serde_json::to_string(alloc, object) else {
        return Err(AllocError);
    };
    lines.push_str(&line)?;
    lines.push('\n')
}
