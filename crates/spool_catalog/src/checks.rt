//! Checks of what was read from a spool.
ghost use Rattle.std.specs.Prelude.{◌≡◌, ◌<◌, ◌↔◌};
ghost use Rattle.std.specs.Prelude.{ℕ, IsTrue, true, false, Some, None, length, get_or};
ghost use Rattle.enc_model.specs.Transcode.{Phase};
ghost use Rattle.enc_stream.specs.Progress.{progress_of};
ghost use Rattle.spool_blocks.specs.Chains.{Owns};
ghost use Rattle.spool_catalog.specs.Checks.{RecordPasses, RecordsPass, RowPasses, RowsPass};
ghost use Rattle.spool_catalog.specs.Shows.{FitsPhase, HasState};
ghost use Rattle.spool_catalog.specs.Records.{slot_record_of};
ghost use Rattle.spool_pages.specs.Fits.{FitsRow};
ghost use Rattle.spool_pages.specs.View.{SlotRecord};

use crate::lists::blocks_of;
use crate::records::{CatalogRecord, record_at};
use common::{MOST_LENGTH, SLOTS};
use enc_stream::{Progress, Transcoder};
use spool_blocks::Row;
use upload_rules::{NUMBERS_END, Record, is_length};

// Whether a transcoder may be in this state after so many accepted bytes. It is past the end exactly if the upload is
// complete, and holds all accepted bytes until a byte order mark is decided.
fn fits_progress(progress: Progress, accepted: u64, declared: Option<u64>) -> bool
    ensures { (p : Phase) → progress_of p ≡ progress → IsTrue result ↔ FitsPhase p accepted declared }
{
    match progress {
        Progress::Holding(count) => accepted == count as u64 && !is_length(declared, accepted),
        Progress::Decoding => accepted >= 1 && !is_length(declared, accepted),
        Progress::Ended => is_length(declared, accepted),
    }
}

// Whether the state bytes are those of a transcoder after this many bytes.
fn is_state_valid(record: &Record) -> bool
    ensures { IsTrue result ↔ HasState (slot_record_of «record».now) }
{
    match Transcoder::unpack(&record.state) {
        Some(transcoder) => {
            fits_progress(transcoder.progress(), record.accepted, record.declared)
        }
        None => false,
    }
}

// Whether a record's numbers and state are valid.
fn is_record_valid(record: &Record, next: u64) -> bool
    ensures { IsTrue result ↔ RecordPasses next (slot_record_of «record».now) }
{
    let longest = record.declared.unwrap_or(MOST_LENGTH);
    record.number < next
        && record.accepted <= longest
        && longest <= MOST_LENGTH
        && is_state_valid(record)
}

// Whether a slot is free or its record valid.
fn is_valid_at(slots: &[Option<CatalogRecord>], slot: usize, next: u64) -> bool
    requires { slot < length slots.now }
    ensures { IsTrue result ↔ ((r : SlotRecord) → get_or slots.now slot None ≡ Some r → RecordPasses next r) }
{
    match record_at(slots, slot) {
        Some(slot_used) => is_record_valid(slot_used.record(), next),
        None => true,
    }
}

/// Whether the next number and all records are valid. The next number is 1 to 10^18, and all numbers are below it. An
/// upload has at most its declared length of bytes, or 1,073,741,824 if that is unknown, and no length is above this.
/// The state bytes are those of a transcoder after this many bytes.
pub fn are_valid(slots: &[Option<CatalogRecord>], next: u64) -> bool
    ensures { IsTrue result ↔ RecordsPass next slots.now }
{
    if next < 1 || next > NUMBERS_END {
        return false;
    }
    for slot in 0..slots.len() {
        if !is_valid_at(slots, slot, next) {
            return false;
        }
    }
    true
}

// Whether the row's slot is in use, and its ordinal below the number of the text's blocks.
fn is_row_valid(slots: &[Option<CatalogRecord>], row: Row) -> bool
    ensures valid { IsTrue result
        ↔ ((slot ordinal : ℕ) → row ≡ Some (slot, ordinal) → RowPasses slots.now slot ordinal) }
    ensures slot { result ≡ true → (slot ordinal : ℕ) → row ≡ Some (slot, ordinal) → slot < length slots.now }
    ensures fits { result ≡ true → length slots.now ≡ SLOTS → FitsRow row }
{
    let Some((slot, ordinal)) = row else {
        return true;
    };
    match record_at(slots, slot as usize) {
        Some(slot_used) => (ordinal as u64) < blocks_of(slot_used.record().text_len),
        None => false,
    }
}

/// Whether each row's slot is in use, and its ordinal below the number of the text's blocks.
pub fn are_rows_valid(slots: &[Option<CatalogRecord>], rows: &[Row]) -> bool
    requires { length slots.now ≡ SLOTS }
    ensures valid { IsTrue result ↔ RowsPass slots.now rows.now }
    ensures slots { result ≡ true → (b slot ordinal : ℕ) → Owns rows.now b slot ordinal → slot < SLOTS }
    ensures fits { result ≡ true → (b : ℕ) → FitsRow (get_or rows.now b None) }
{
    for i in 0..rows.len() {
        if !is_row_valid(slots, rows[i]) {
            return false;
        }
    }
    true
}
