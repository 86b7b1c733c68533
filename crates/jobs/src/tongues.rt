//! Languages in encodings, as archives hold them.

use crate::words::Language;
use enc_model::Encoding;

/// A language in an encoding.
#[derive(Clone, Copy, Drop)]
pub(crate) struct Tongue {
    pub(crate) language: Language,
    pub(crate) encoding: Encoding,
    /// The encoding's label in Base64, as metadata give it.
    pub(crate) label: &'static str,
}

impl Tongue {
    /// The metadata of a mail in this encoding: `from`, `filename` and `filetype`.
    pub(crate) fn metadata(self) -> &'static str {
        match self.encoding {
            Encoding::ShiftJis => {
                "from c2hpZnRfamlz,filename MjAyNi0wMy0xNC1pbnF1aXJ5LnR4dA==,filetype dGV4dC9wbGFpbg=="
            }
            Encoding::Iso2022Jp => {
                "from aXNvLTIwMjItanA=,filename bWFpbC0wMDE3Lm1zZw==,filetype bWVzc2FnZS9yZmM4MjI="
            }
            Encoding::Koi8R => { "from a29pOC1y,filename cGlzbW8udHh0,filetype dGV4dC9wbGFpbg==" }
            Encoding::Utf16Le => "from dXRmLTE2bGU=,filename bGV0dGVyLnR4dA==",
            _ => "filename bGV0dGVyLnR4dA==,filetype dGV4dC9wbGFpbg==",
        }
    }
}

const fn in_encoding(language: Language, encoding: Encoding, label: &'static str) -> Tongue {
    Tongue {
        language,
        encoding,
        label,
    }
}

/// The label of UTF-8 in Base64.
pub(crate) const UTF_8: &str = "dXRmLTg=";
/// The label of Shift_JIS in Base64.
pub(crate) const SHIFT_JIS: &str = "c2hpZnRfamlz";
/// The label of EUC-JP in Base64.
pub(crate) const EUC_JP: &str = "ZXVjLWpw";
/// The label of ISO-2022-JP in Base64.
pub(crate) const ISO_2022_JP: &str = "aXNvLTIwMjItanA=";
/// The label of windows-1251 in Base64.
pub(crate) const WINDOWS_1251: &str = "d2luZG93cy0xMjUx";
/// The label of windows-1252 in Base64.
pub(crate) const WINDOWS_1252: &str = "d2luZG93cy0xMjUy";
/// The label of KOI8-R in Base64.
pub(crate) const KOI8_R: &str = "a29pOC1y";
/// The label of IBM866 in Base64.
pub(crate) const IBM866: &str = "aWJtODY2";
/// The label of UTF-16LE in Base64.
pub(crate) const UTF_16LE: &str = "dXRmLTE2bGU=";

/// Japanese in Shift_JIS.
pub(crate) fn japanese_sjis() -> Tongue {
    in_encoding(Language::Japanese, Encoding::ShiftJis, SHIFT_JIS)
}

/// Japanese in ISO-2022-JP, the encoding of mails.
pub(crate) fn japanese_mail() -> Tongue {
    in_encoding(Language::Japanese, Encoding::Iso2022Jp, ISO_2022_JP)
}

/// Japanese in UTF-16LE.
pub(crate) fn japanese_utf16() -> Tongue {
    in_encoding(Language::Japanese, Encoding::Utf16Le, UTF_16LE)
}

/// Russian in KOI8-R.
pub(crate) fn russian_koi() -> Tongue {
    in_encoding(Language::Russian, Encoding::Koi8R, KOI8_R)
}

/// A language in UTF-8.
pub(crate) fn in_utf8(language: Language) -> Tongue {
    in_encoding(language, Encoding::Utf8, UTF_8)
}

/// Large texts of archives and publishers.
pub(crate) fn archived() -> [Tongue; 8] {
    [
        japanese_sjis(),
        in_encoding(Language::Japanese, Encoding::EucJp, EUC_JP),
        in_encoding(Language::Russian, Encoding::Windows1251, WINDOWS_1251),
        in_encoding(Language::German, Encoding::Windows1252, WINDOWS_1252),
        russian_koi(),
        japanese_utf16(),
        in_utf8(Language::Japanese),
        in_utf8(Language::English),
    ]
}
