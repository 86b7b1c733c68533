//! The files of the folder that a job runs in: index files, and the words of four languages.

use crate::faults::Fault;
use crate::marks;
use crate::random::Random;
use enc_index::{Index, IndexSet, Kind};
use enc_model::Encoding;
use std::alloc::{AllocError, Global};
use std::fs::{self, File};
use std::io::ErrorKind;

// The index files that are read where they are there.
static INDEXES: [(&str, Kind); 18] = [
    ("index-jis0208.txt", Kind::Jis0208),
    ("index-jis0212.txt", Kind::Jis0212),
    ("index-iso-2022-jp-katakana.txt", Kind::Katakana),
    ("index-ibm866.txt", Kind::Single(Encoding::Ibm866)),
    ("index-iso-8859-2.txt", Kind::Single(Encoding::Iso8859X2)),
    ("index-iso-8859-5.txt", Kind::Single(Encoding::Iso8859X5)),
    ("index-iso-8859-15.txt", Kind::Single(Encoding::Iso8859X15)),
    ("index-koi8-r.txt", Kind::Single(Encoding::Koi8R)),
    ("index-macintosh.txt", Kind::Single(Encoding::Macintosh)),
    (
        "index-windows-1250.txt",
        Kind::Single(Encoding::Windows1250),
    ),
    (
        "index-windows-1251.txt",
        Kind::Single(Encoding::Windows1251),
    ),
    (
        "index-windows-1252.txt",
        Kind::Single(Encoding::Windows1252),
    ),
    (
        "index-windows-1253.txt",
        Kind::Single(Encoding::Windows1253),
    ),
    (
        "index-windows-1254.txt",
        Kind::Single(Encoding::Windows1254),
    ),
    (
        "index-windows-1255.txt",
        Kind::Single(Encoding::Windows1255),
    ),
    (
        "index-windows-1256.txt",
        Kind::Single(Encoding::Windows1256),
    ),
    (
        "index-windows-1257.txt",
        Kind::Single(Encoding::Windows1257),
    ),
    (
        "index-windows-1258.txt",
        Kind::Single(Encoding::Windows1258),
    ),
];

/// The language of a text, or what it is full of.
#[derive(Clone, Copy, Drop)]
pub(crate) enum Language {
    English,
    German,
    Russian,
    Japanese,
    HalfWidth,
    HalfAndFull,
    Frames,
    Quoted,
    Marks,
    Sparse,
    Short,
    Pictures,
}

/// What all inputs are made of.
#[derive(Drop)]
pub(crate) struct Material {
    pub(crate) indexes: IndexSet,
    english: String,
    german: String,
    russian: String,
    japanese: String,
}

impl Material {
    /// Reads the files.
    pub(crate) fn read(rt: &HostRuntime, alloc: Global) -> Result<Self, Fault> {
        Ok(Material {
            indexes: read_indexes(rt, alloc)?,
            english: fs::read_to_string(rt, "words-en.txt")?,
            german: fs::read_to_string(rt, "words-de.txt")?,
            russian: fs::read_to_string(rt, "words-ru.txt")?,
            japanese: fs::read_to_string(rt, "words-ja.txt")?,
        })
    }

    /// The words of a language.
    pub(crate) fn words(&self, alloc: Global, language: Language) -> Result<Words<'_>, AllocError> {
        let (list, gap, end) = match language {
            Language::English => (self.english.as_str(), " ", ".\n"),
            Language::German => (self.german.as_str(), " ", ".\n"),
            Language::Russian => (self.russian.as_str(), " ", ".\n"),
            Language::Japanese => (self.japanese.as_str(), "", "。\n"),
            Language::HalfWidth => (marks::HALF_WIDTH, " ", "\n"),
            Language::HalfAndFull => (marks::HALF_AND_FULL, "", "。\n"),
            Language::Frames => (marks::FRAMES, " ", "\n"),
            Language::Quoted => (marks::QUOTED, " ", ".\n"),
            Language::Marks => (marks::MARKS, "", "\n"),
            Language::Sparse => (marks::SPARSE, " ", "\n"),
            Language::Short => (marks::SHORT, " ", "\n"),
            Language::Pictures => (marks::PICTURES, " ", "\n"),
        };
        let list = list.lines().collect(alloc)?;
        Ok(Words { list, gap, end })
    }
}

// The indexes whose files are there.
fn read_indexes(rt: &HostRuntime, alloc: Global) -> Result<IndexSet, Fault> {
    let mut set = IndexSet::new(alloc)?;
    for (name, kind) in INDEXES.iter() {
        match File::open(rt, *name) {
            Ok(file) => drop(file),
            Err(error) if error.kind() == ErrorKind::NotFound => continue,
            Err(error) => return Err(Fault::from(error)),
        }
        set.set(Index::read(alloc, &fs::read(rt, *name)?, *kind)?);
    }
    Ok(set)
}

/// The words of a language, the frequent ones first, and what is between two and after the last one of a line.
#[derive(Drop)]
pub(crate) struct Words<'a> {
    list: Vec<&'a str>,
    gap: &'a str,
    end: &'a str,
}

impl Words<'_> {
    /// Appends a line of 3 to 16 words. The frequent ones are drawn more often.
    pub(crate) fn put_line(
        &self,
        random: &mut Random,
        text: &mut String,
    ) -> Result<(), AllocError> {
        let last = random.between(2, 15);
        for _ in 0..last {
            self.put_word(random, text)?;
            text.push_str(self.gap)?;
        }
        self.put_word(random, text)?;
        text.push_str(self.end)
    }

    fn put_word(&self, random: &mut Random, text: &mut String) -> Result<(), AllocError> {
        let count = self.list.len();
        if count > 0 {
            let most = random.below(count);
            let at = random.below(most + 1);
            text.push_str(self.list[at])?;
        }
        Ok(())
    }
}
