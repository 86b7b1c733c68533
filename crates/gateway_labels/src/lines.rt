//! The choices as lines for a reader.
ghost use Rattle.std.specs.Prelude.{◌≡◌, ◌++◌, [], IfOk, OnOk, string_bytes};
ghost use Rattle.gateway_labels.specs.Lines.{behind, have_same, is_also, is_first, is_in_common, label_lines, line_of};
ghost use Rattle.gateway_labels.specs.Lines.{lines_of_texts, names_behind, shown_line};

use crate::choice::{Choice, number_of};
use enc_labels::name_of;
use std::alloc::{AllocError, Global};
use std::fmt::Write;

/// The lines of choices: one for each text that they have, in their order, with the names of its encodings. A text of
/// ASCII alone that stands first, isn't strange, and that several have in common, is the only one.
pub fn lines_of(alloc: Global, choices: &[Choice]) -> Result<String, AllocError>
    ensures { IfOk result (λ lines. string_bytes lines ≡ label_lines choices.now) }
{
    let Some((first, _)) = choices.split_first() else {
        return Ok(String::new(alloc));
    };
    let others = names_behind(alloc, ", ", first, choices)?;
    if is_in_common(first, others.as_str()) {
        let name = name_of(first.encoding);
        return format!(in alloc; "any of these: {name}{others}: ASCII alone\n");
    }
    lines_of_texts(alloc, choices)
}

// Whether a text is of ASCII alone, isn't strange, and is that of these others too.
fn is_in_common(choice: &Choice, others: &str) -> bool
    ensures { result ≡ is_in_common choice.now others.now }
{
    choice.line.is_none() && choice.strangeness == 0 && !others.is_empty()
}

// A line for each text.
fn lines_of_texts(alloc: Global, choices: &[Choice]) -> Result<String, AllocError>
    ensures { IfOk result (λ lines. string_bytes lines ≡ lines_of_texts choices.now) }
{
    let mut lines = String::new(alloc);
    for choice in choices {
        push_line(alloc, &mut lines, choices, choice)?;
    }
    Ok(lines)
}

// Adds the line of a choice that is the first with its text.
fn push_line(
    alloc: Global,
    lines: &mut String,
    choices: &[Choice],
    choice: &Choice,
) -> Result<(), AllocError>
    ensures { OnOk result (string_bytes lines.new ≡ string_bytes lines.old ++ line_of choices.now choice.now) }
{
    if !is_first(choices, choice) {
        return Ok(());
    }
    let others = names_behind(alloc, ", also ", choice, choices)?;
    let name = name_of(choice.encoding);
    let line = shown_line(choice);
    writeln!(lines, "{name}{others}: {} lost: {line}", choice.lost)
}

// The line that is shown of a text.
fn shown_line(choice: &Choice) -> &str
    ensures { result.now ≡ shown_line choice.now }
{
    match &choice.line {
        Some(line) => line.as_str(),
        None => "ASCII alone",
    }
}

// The names of the others that have the text of a choice: the first behind a joint of its own, the rest behind commas.
fn names_behind(
    alloc: Global,
    joint: &str,
    choice: &Choice,
    choices: &[Choice],
) -> Result<String, AllocError>
    ensures { IfOk result (λ names. string_bytes names ≡ names_behind joint.now choice.now [] choices.now) }
{
    let mut names = String::new(alloc);
    let mut rest = choices;
    while let Some((other, more)) = rest.split_first() {
        if is_also(other, choice) {
            push_name(&mut names, joint, name_of(other.encoding))?;
        }
        rest = more;
    }
    Ok(names)
}

// Adds a name.
fn push_name(names: &mut String, joint: &str, name: &str) -> Result<(), AllocError>
    ensures { OnOk result (string_bytes names.new ≡ behind joint.now (string_bytes names.old) name.now) }
{
    let joint = if names.is_empty() { joint } else { ", " };
    write!(names, "{joint}{name}")
}

/// Whether a choice is the first that has its text.
pub(crate) fn is_first(choices: &[Choice], choice: &Choice) -> bool
    ensures { result ≡ is_first choice.now choices.now }
{
    let mut rest = choices;
    while let Some((other, more)) = rest.split_first() {
        if have_same(other, choice) {
            return number_of(other.encoding) == number_of(choice.encoding);
        }
        rest = more;
    }
    false
}

// Whether another choice has the text of one.
fn is_also(other: &Choice, choice: &Choice) -> bool
    ensures { result ≡ is_also choice.now other.now }
{
    have_same(other, choice) && number_of(other.encoding) != number_of(choice.encoding)
}

/// Whether two choices have the same text, by its digest.
pub(crate) fn have_same(one: &Choice, other: &Choice) -> bool
    ensures { result ≡ have_same one.now other.now }
{
    one.digest == other.digest
}
