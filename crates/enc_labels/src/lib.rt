//! Names and labels of encodings (Encoding Standard, section 4.2).
#![tactic(auto)]

ghost use Rattle.std.specs.Prelude.{◌≡◌, map};
ghost use Rattle.std.specs.Char.{to_ascii_lowercase};
ghost use Rattle.enc_labels.specs.Labels.{lowered_row, found_label, encoding_of, output_encoding_of, name_of};

mod table;

use enc_model::Encoding;
use table::LABELS;

/// The encoding of the first row with this label, compared without case.
fn find(table: &[(&str, Encoding)], name: &[u8]) -> Option<Encoding>
    ensures { result ≡ found_label (map lowered_row table.now) (map to_ascii_lowercase name.now) }
{
    for (known, encoding) in table {
        if name.eq_ignore_ascii_case(known.as_bytes()) {
            return Some(*encoding);
        }
    }
    None
}

/// Get an encoding: the encoding of a label, ignoring ASCII whitespace around it and the case of its letters. `None` if
/// it isn't a label of an encoding that the gateway has.
pub fn encoding_of(label: &[u8]) -> Option<Encoding>
    ensures { result ≡ encoding_of label.now }
{
    find(&LABELS, label.trim_ascii())
}

/// Get an output encoding (Encoding Standard, section 4.3): UTF-8 for UTF-16, otherwise the same.
pub fn output_of(encoding: Encoding) -> Encoding
    ensures { result ≡ output_encoding_of encoding }
{
    match encoding {
        Encoding::Utf16Be | Encoding::Utf16Le => Encoding::Utf8,
        other => other,
    }
}

/// The name of an encoding.
pub fn name_of(encoding: Encoding) -> &'static str
    ensures { result.now ≡ name_of encoding }
{
    match encoding {
        Encoding::Utf8 => "UTF-8",
        Encoding::Utf16Be => "UTF-16BE",
        Encoding::Utf16Le => "UTF-16LE",
        Encoding::ShiftJis => "Shift_JIS",
        Encoding::EucJp => "EUC-JP",
        Encoding::Iso2022Jp => "ISO-2022-JP",
        Encoding::Ibm866 => "IBM866",
        Encoding::Iso8859X2 => "ISO-8859-2",
        Encoding::Iso8859X5 => "ISO-8859-5",
        Encoding::Iso8859X15 => "ISO-8859-15",
        Encoding::Koi8R => "KOI8-R",
        Encoding::Macintosh => "macintosh",
        Encoding::Windows1250 => "windows-1250",
        Encoding::Windows1251 => "windows-1251",
        Encoding::Windows1252 => "windows-1252",
        Encoding::Windows1253 => "windows-1253",
        Encoding::Windows1254 => "windows-1254",
        Encoding::Windows1255 => "windows-1255",
        Encoding::Windows1256 => "windows-1256",
        Encoding::Windows1257 => "windows-1257",
        Encoding::Windows1258 => "windows-1258",
    }
}
