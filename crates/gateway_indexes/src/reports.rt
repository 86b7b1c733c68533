//! What is printed of index files, and of what a spool has.
ghost use Rattle.std.specs.Prelude.{◌≡◌, OnOk, count_by, flat_map};
ghost use Rattle.std.specs.Io.KnownBytes.{Appends};
ghost use Rattle.gateway_indexes.specs.Reports.{free_line, is_read, other_line, read_lines};

use crate::found::Found;
use crate::index_files::IndexFile;
use crate::surveying::Survey;
use common::SLOTS;
use gateway_outside::{Output, Refused};

/// Prints which index files were read, and which of them aren't the standard's.
pub fn report_read<W: Output>(writer: &mut W, files: &[IndexFile]) -> Result<(), Refused>
    ensures { OnOk result (Appends (W.contents writer.old) (W.contents writer.new) (read_lines files.now)) }
{
    writeln!(writer, "index files read: {}", count_read(files))?;
    for file in files {
        write!(writer, "{file}")?;
    }
    Ok(())
}

// How many of the files were read.
fn count_read(files: &[IndexFile]) -> usize
    ensures { result ≡ count_by is_read files.now }
{
    files.iter().filter(|file| file.found.is_there()).count()
}

/// Prints which of the index files that were read aren't the standard's, by which texts are only shown.
pub fn report_others<W: Output>(writer: &mut W, files: &[IndexFile]) -> Result<(), Refused>
    ensures { OnOk result (Appends (W.contents writer.old) (W.contents writer.new) (flat_map other_line files.now)) }
{
    for file in files {
        report_other(writer, file)?;
    }
    Ok(())
}

// Prints that a file isn't the standard's, if it isn't.
fn report_other<W: Output>(writer: &mut W, file: &IndexFile) -> Result<(), Refused>
    ensures { OnOk result (Appends (W.contents writer.old) (W.contents writer.new) (other_line file.now)) }
{
    let (name, encodings) = (file.name, file.encodings);
    match file.found {
        Found::Other(_) => writeln!(
            writer,
            "WARNING: {name} isn't the standard's: what is in {encodings} may be read wrong"
        ),
        Found::Missing | Found::Standard => Ok(()),
    }
}

/// Prints how much of a spool is free.
pub fn report_free<W: Output>(writer: &mut W, survey: &Survey) -> Result<(), Refused>
    ensures { OnOk result (Appends (W.contents writer.old) (W.contents writer.new) (free_line survey.now)) }
{
    writeln!(
        writer,
        "version {}, {} of {} blocks free, {} of {SLOTS} slots free",
        survey.version, survey.free_blocks, survey.blocks, survey.free_slots
    )
}
