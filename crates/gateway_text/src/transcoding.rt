//! Input as the text of an upload.
ghost use Rattle.std.specs.Prelude.{◌≡◌, ◌+◌, ◌<◌, [], true, false, IfErr, IfOk, IfSome, IsErrAnd, IsErrOf, IsOk};
ghost use Rattle.std.specs.Prelude.{OnOk, option_map};
ghost use Rattle.std.specs.Io.KnownBytes.{Consumes, IsAtEnd};
ghost use Rattle.common.specs.Counts.{Counts};
ghost use Rattle.enc_model.specs.Indexes.{tables};
ghost use Rattle.enc_labels.specs.Labels.{encoding_of};
ghost use Rattle.enc_stream.specs.TranscoderState.{IsOutput};
ghost use Rattle.tus_request.specs.Metadata.{choice_with, mode_of};
ghost use Rattle.gateway_outside.specs.Failures.{fault_in};
ghost use Rattle.gateway_outside.specs.Openings.{EndsWellBut};
ghost use Rattle.gateway_outside.specs.declared.faults.Fault.{Fault};
ghost use Rattle.gateway_text.specs.Texts.{Offers, TextsAt, TextsBy};
ghost use Rattle.gateway_text.specs.Transcoding.{CodesOn, CopiesOn, EndsOn, IsConverted, IsTextFault, choice_in};

use enc_index::IndexSet;
use enc_labels::{encoding_of, output_of};
use enc_model::{Encoding, Mode};
use enc_stream::Transcoder;
use gateway_indexes::{IndexFolders, read_indexes, report_others};
use gateway_outside::{Advice, Failure, Fault, Input, Output, TextAdvice};
use gateway_texts::{Signs, report_losses};
use std::alloc::Global;
use std::io;

// How many bytes are read at once.
const PIECE: usize = 4096;

/// What bytes are read as, and how their text is stored.
#[derive(Clone, Copy, Debug, PartialEq, Eq, Drop)]
pub struct Conversion {
    /// The encoding by its label.
    pub from: Encoding,
    /// The encoding that the text is stored in.
    pub to: Encoding,
    /// What is done with a character that `to` lacks.
    pub mode: Mode,
}

/// The conversion that these labels and this mode ask for, as those of an upload's metadata do.
pub fn conversion_of(from: &str, to: &str, mode: &str) -> Option<Conversion>
    ensures choice { option_map choice_in result
        ≡ choice_with (encoding_of from.now) (encoding_of to.now) (mode_of mode.now) }
    ensures output { IfSome result (λ c. IsOutput c.to) }
{
    let from = encoding_of(from.as_bytes())?;
    let to = encoding_of(to.as_bytes())?;
    let mode = match mode.as_bytes() {
        b"html" => Mode::Html,
        b"fatal" => Mode::Fatal,
        _ => return None,
    };
    Some(Conversion {
        from,
        to: output_of(to),
        mode,
    })
}

/// What text is wanted of standard input: as an upload with these labels and this mode has it.
#[derive(Clone, Copy, Debug, Drop)]
pub struct WantedText<'a> {
    /// The label of what the bytes are in.
    pub from: &'a str,
    /// The label of what the text is stored in.
    pub to: &'a str,
    /// The mode: `html` or `fatal`.
    pub mode: &'a str,
    /// Whether a text that has U+FFFD is refused.
    pub strict: bool,
}

/// Writes what an upload of the input with these labels and this mode would be stored as, by the index files of a
/// folder. On standard error it writes which of these aren't the standard's, and how often the text has U+FFFD.
/// `BadLabel` where an upload with them is refused so; `Lost` after a text that may have no U+FFFD and has one.
pub fn text_in<'a, R: IndexFolders, I: Input, W: Output, E: Output>(
    alloc: Global,
    folders: &mut R,
    input: &mut I,
    output: &mut W,
    errors: &mut E,
    wanted: WantedText<'a>,
    folder: &'a str,
) -> Result<(), Failure<'a>>
    // The text was written, by the indexes of this folder; or nothing was read of the input and nothing written, for
    // one of three reasons. `Io` is answered for the text exactly where the input or the output refused.
    ensures texts { TextsAt (R.have folders.old) (R.calls folders.old) (R.calls folders.new) folder.now
        (I.remaining input.old) (I.remaining input.new) (W.contents output.old) (W.contents output.new)
        (I.refusals input.old + W.refusals output.old) (I.refusals input.new + W.refusals output.new)
        ((input.new ≡ input.old) × (output.new ≡ output.old)) result wanted.entry.from.now wanted.entry.to.now
        wanted.entry.mode.now wanted.entry.strict }
{
    let WantedText { from, to, mode, .. } = wanted;
    let Some(conversion) = conversion_of(from, to, mode) else {
        return Err(refused_text(Fault::BadLabel, what_is_unknown(from, to, mode)));
    };
    let read = match read_indexes(alloc, folders, folder) {
        Ok(read) => read,
        Err(failure) => return Err(failure),
    };
    // If standard error can't be written, this isn't reported.
    drop(report_others(errors, &read.files));
    match refuse_lacking(&read.set, conversion, &wanted, folder) {
        Ok(()) => return text_by(alloc, &read.set, conversion, input, output, errors, &wanted),
        Err(failure) => return Err(failure),
    }
}

// Refuses a conversion for which a folder lacks an index file.
fn refuse_lacking<'a>(
    set: &IndexSet,
    conversion: Conversion,
    wanted: &WantedText<'a>,
    folder: &'a str,
) -> Result<(), Failure<'a>>
    ensures offered { IsOk result → Offers set.now conversion }
    ensures refused { IfErr result (λ failure. (fault_in failure ≡ Fault.BadLabel) × (Offers set.now conversion → ⊥)) }
{
    if !set.offers(conversion.from) {
        return Err(refused_text(Fault::BadLabel, TextAdvice::NoIndex(folder, wanted.from)));
    }
    if !set.offers(conversion.to) {
        return Err(refused_text(Fault::BadLabel, TextAdvice::NoIndex(folder, wanted.to)));
    }
    Ok(())
}

// Writes what an upload of the input would be stored as, by these indexes.
fn text_by<'a, I: Input, W: Output, E: Output>(
    alloc: Global,
    set: &IndexSet,
    conversion: Conversion,
    input: &mut I,
    output: &mut W,
    errors: &mut E,
    wanted: &WantedText<'a>,
) -> Result<(), Failure<'a>>
    requires { IsOutput conversion.to }
    ensures { TextsBy (tables set.now) conversion (I.remaining input.old) (I.remaining input.new)
        (W.contents output.old) (W.contents output.new) (I.refusals input.old + W.refusals output.old)
        (I.refusals input.new + W.refusals output.new) result wanted.now.strict }
{
    let mut signs = Signs::of(conversion.to);
    match text_on(alloc, set, conversion, input, output, &mut signs) {
        Ok(()) => {
            // If standard error can't be written, the count isn't reported.
            drop(report_losses(errors, signs.losses()));
            return refuse_lost(wanted.strict, wanted.from, signs.losses());
        }
        Err(fault) => return Err(cut_text(fault, wanted.to, &signs, input.error(), output.error())),
    }
}

// The failure of a text that was written in part.
fn cut_text<'a>(
    fault: Fault,
    to: &'a str,
    signs: &Signs,
    input: Option<io::Error>,
    output: Option<io::Error>,
) -> Failure<'a>
    ensures { fault_in result ≡ fault }
{
    match fault {
        Fault::Unencodable(character) => {
            refused_text(fault, TextAdvice::Lacks(to, character, signs.bytes()))
        }
        _ => Failure::on_streams(fault, input, output),
    }
}

// Refuses a text that may have no U+FFFD and has so many.
fn refuse_lost<'a>(strict: bool, from: &'a str, losses: u64) -> Result<(), Failure<'a>>
    ensures passes { (strict ≡ true → losses ≡ 0) → IsOk result }
    ensures refused { strict ≡ true → 0 < losses → IsErrAnd result (λ failure. fault_in failure ≡ Fault.Lost) }
    ensures ends { EndsWellBut result Fault.Lost }
{
    if strict && losses > 0 {
        return Err(refused_text(Fault::Lost, TextAdvice::Losses(from)));
    }
    Ok(())
}

fn refused_text<'a>(fault: Fault, advice: TextAdvice<'a>) -> Failure<'a>
    ensures { fault_in result ≡ fault }
{
    Failure::advised(fault, Advice::Text(advice))
}

// Which of the labels and the mode is unknown.
fn what_is_unknown<'a>(from: &'a str, to: &'a str, mode: &'a str) -> TextAdvice<'a> {
    if encoding_of(from.as_bytes()).is_none() {
        TextAdvice::Label("--from", from)
    } else if encoding_of(to.as_bytes()).is_none() {
        TextAdvice::Label("--to", to)
    } else {
        TextAdvice::Mode(mode)
    }
}

/// Writes what an upload of all that an input has is stored as: read in pieces, and decoded and encoded by the
/// transcoder of uploads; `signs` counts what is written. `Unencodable` where it has no code in the mode `fatal`; what
/// was written then is a prefix.
pub fn text_on<I: Input, W: Output>(
    alloc: Global,
    set: &IndexSet,
    conversion: Conversion,
    input: &mut I,
    output: &mut W,
    signs: &mut Signs,
) -> Result<(), Fault>
    requires { IsOutput conversion.to }
    ensures stored { OnOk result (IsConverted (tables set.now) conversion (I.remaining input.old)
        (W.contents output.old)
        (W.contents output.new)) }
    ensures whole { OnOk result (IsAtEnd (I.remaining input.new)) }
    ensures refused { IfErr result IsTextFault }

    // `Io` is answered exactly where the input or the output refused.
    ensures io { Counts (IsErrOf result Fault.Io) (I.refusals input.old + W.refusals output.old)
        (I.refusals input.new + W.refusals output.new) }
{
    let Conversion { from, to, mode } = conversion;
    let mut transcoder = Transcoder::new(from, to, mode);
    let mut code = Vec::new(alloc);
    let mut more = true;
    while more {
        more = copy_piece(set, &mut transcoder, &mut code, input, output, signs)?;
    }
    copy_end(set, transcoder, code, output, signs)
}

// Reads a piece and writes its code: whether there was one.
fn copy_piece<I: Input, W: Output>(
    set: &IndexSet,
    transcoder: &mut Transcoder,
    code: &mut Vec<u8>,
    input: &mut I,
    output: &mut W,
    signs: &mut Signs,
) -> Result<bool, Fault>
    ensures more { IfOk result (λ more. more ≡ true
        → CopiesOn (tables set.now) transcoder.old transcoder.new (I.remaining input.old) (I.remaining input.new)
        (W.contents output.old) (W.contents output.new)) }
    ensures end { IfOk result (λ more. more ≡ false → (transcoder.new ≡ transcoder.old)
        × Consumes (I.remaining input.old) (I.remaining input.new) []
        × IsAtEnd (I.remaining input.new) × (W.contents output.new ≡ W.contents output.old)) }
    ensures refused { IfErr result IsTextFault }
    ensures fewer { OnOk result (I.pieces input.new < I.pieces input.old) }
    ensures io { Counts (IsErrOf result Fault.Io) (I.refusals input.old + W.refusals output.old)
        (I.refusals input.new + W.refusals output.new) }
{
    let mut piece = [0; PIECE];
    let count = match input.read_piece(&mut piece) {
        Ok(count) => count,
        Err(_) => return Err(Fault::Io),
    };
    if count == 0 {
        return Ok(false);
    }
    match copy_code(set, transcoder, code, &piece[..count], output, signs) {
        Ok(()) => Ok(true),
        Err(fault) => Err(fault),
    }
}

// Writes the code of a piece.
fn copy_code<W: Output>(
    set: &IndexSet,
    transcoder: &mut Transcoder,
    code: &mut Vec<u8>,
    piece: &[u8],
    output: &mut W,
    signs: &mut Signs,
) -> Result<(), Fault>
    ensures copies { OnOk result (CodesOn (tables set.now) transcoder.old transcoder.new piece.now
        (W.contents output.old) (W.contents output.new)) }
    ensures refused { IfErr result IsTextFault }
    ensures io { Counts (IsErrOf result Fault.Io) (W.refusals output.old) (W.refusals output.new) }
{
    code.clear();
    let fed = transcoder.feed(set, piece, code);
    // also what comes before a character without a code
    output.put(code)?;
    signs.add(code);
    fed?;
    Ok(())
}

// Takes the end, and writes its code.
fn copy_end<W: Output>(
    set: &IndexSet,
    transcoder: Transcoder,
    code: Vec<u8>,
    output: &mut W,
    signs: &mut Signs,
) -> Result<(), Fault>
    ensures end { OnOk result (EndsOn (tables set.now) transcoder (W.contents output.old) (W.contents output.new)) }
    ensures refused { IfErr result IsTextFault }
    ensures io { Counts (IsErrOf result Fault.Io) (W.refusals output.old) (W.refusals output.new) }
{
    let mut transcoder = transcoder;
    let mut code = code;
    code.clear();
    transcoder.finish(set, &mut code)?;
    output.put(&code)?;
    signs.add(&code);
    Ok(())
}
