//! The names of refusals.

/// The name of the refusal with this number, which its reply gives as `X-Refusal`.
pub(crate) fn name_of(number: u64) -> Option<&'static str> {
    let name = match number {
        6 => "Unencodable",
        8 => "NoSuch",
        9 => "Offset",
        10 => "TooLong",
        11 => "Slots",
        12 => "TooLarge",
        17 => "Full",
        18 => "Malformed",
        19 => "HeadTooLong",
        20 => "Coding",
        21 => "BadLength",
        22 => "TusVersion",
        23 => "NoRoute",
        24 => "BadMethod",
        25 => "MediaType",
        26 => "BadHeader",
        27 => "BadMetadata",
        28 => "BadLabel",
        34 => "LengthSet",
        _ => return None,
    };
    Some(name)
}
