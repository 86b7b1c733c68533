//! The command line.

use clap::{Arg, ArgAction, Command, Error};
use enc_index::Kind;
use enc_labels::encoding_of;
use enc_model::Encoding;
use std::alloc::{AllocError, Global};

/// What to measure.
#[derive(Drop)]
pub(crate) struct Task<'a> {
    /// The encoding of the file.
    pub(crate) from: Encoding,
    /// The output encoding. For UTF-16, which is never written, the output is UTF-8.
    pub(crate) to: Encoding,
    /// The path of the file.
    pub(crate) file: &'a str,
    /// How many times the file is transcoded.
    pub(crate) rounds: u32,
    jis0208: Option<&'a str>,
    jis0212: Option<&'a str>,
    katakana: Option<&'a str>,
    single: Option<&'a str>,
}

impl<'a> Task<'a> {
    /// The index files by kind. The single-byte index is that of the file's encoding, or of the output encoding if the
    /// file is in UTF-8.
    pub(crate) fn indexes(&self) -> [(Kind, Option<&'a str>); 4] {
        let single = match self.from {
            Encoding::Utf8 => self.to,
            other => other,
        };
        [
            (Kind::Jis0208, self.jis0208),
            (Kind::Jis0212, self.jis0212),
            (Kind::Katakana, self.katakana),
            (Kind::Single(single), self.single),
        ]
    }
}

/// Parses the command line. The result is `None` if a label is unknown.
pub(crate) fn read_task<'a>(alloc: Global, words: &'a [String]) -> Result<Option<Task<'a>>, Error> {
    let given = bench(alloc)?.try_get_matches_from(words)?;
    let label = |name: &str| given
        .get_str(name)
        .and_then(|label| encoding_of(label.as_bytes()));
    Ok(
        match (
            label("from"),
            label("to"),
            given.get_str("FILE"),
            given.get_one::<u32>("rounds"),
        ) {
            (Some(from), Some(to), Some(file), Some(rounds)) => Some(Task {
                from,
                to,
                file,
                rounds,
                jis0208: given.get_str("jis0208"),
                jis0212: given.get_str("jis0212"),
                katakana: given.get_str("katakana"),
                single: given.get_str("single"),
            }),
            _ => None,
        },
    )
}

// The program's arguments.
fn bench<'a>(alloc: Global) -> Result<Command<'a>, AllocError> {
    let rounds = option(alloc, "rounds", "N").value_parser(clap::value_parser!(u32));
    Command::new(alloc, "bench")
        .about("Transcodes a file so many times, in pieces of 4,096 bytes, and tells the quickest")
        .args(vec![in alloc;
            option(alloc, "from", "LABEL")
                .required(true)
                .help("The file's encoding"),
            option(alloc, "to", "LABEL")
                .required(true)
                .help("The encoding that is written"),
            rounds.required(true).help("How many times"),
            option(alloc, "jis0208", "INDEX").help("Its index file"),
            option(alloc, "jis0212", "INDEX").help("Its index file"),
            option(alloc, "katakana", "INDEX").help("Its index file"),
            option(alloc, "single", "INDEX").help("The index file of the single-byte encoding"),
            Arg::new(alloc, "FILE").required(true).help("The file"),
        ]?)
}

// An option with a value.
fn option<'a>(alloc: Global, name: &'a str, value: &'a str) -> Arg<'a> {
    Arg::new(alloc, name)
        .long(name)
        .action(ArgAction::Set)
        .value_name(value)
}
