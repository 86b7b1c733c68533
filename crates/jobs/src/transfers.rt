//! Large texts, sixteen side by side: each comes in pieces, by turns with the others, and is read back whole.

use crate::digest::Digest;
use crate::faults::Fault;
use crate::heads::{Client, Heads};
use crate::job::Job;
use crate::random::Random;
use crate::server::Server;
use crate::texts::Sample;
use crate::tongues::{
    EUC_JP, IBM866, ISO_2022_JP, KOI8_R, SHIFT_JIS, Tongue, UTF_8, WINDOWS_1251, WINDOWS_1252,
    archived, in_utf8,
};
use crate::words::Language;
use std::alloc::{AllocError, Global};

// How many uploads are under way at once, and how many blocks of 4,096 bytes the spool has.
const SIDE_BY_SIDE: usize = 16;

const BLOCKS: u32 = 32_768;
// The bytes of the lines of which a text is put together.
const SAMPLE: usize = 262_144;
// The bytes of each text, at most, but that its last lines may go beyond, and the sizes of the pieces in which they
// come.
const TEXT: usize = 4_194_304;

const PIECES: [usize; 4] = [4096, 16_384, 65_536, 4096];

/// Whether legacy texts become UTF-8, or UTF-8 is written in a legacy encoding: plain texts in both modes, or texts
/// that are full of marks in html mode.
#[derive(Clone, Copy, Drop)]
pub(crate) enum Direction {
    In,
    Back,
    Marked,
}

/// A text's language and encodings, and the mode in which it is written.
#[derive(Clone, Copy, Drop)]
struct Kind {
    tongue: Tongue,
    to: &'static str,
    mode: &'static str,
}

const HTML: &str = "aHRtbA==";

const FATAL: &str = "ZmF0YWw=";

static BACK: [(Language, &str, &str); 8] = [
    (Language::Japanese, SHIFT_JIS, FATAL),
    (Language::Japanese, EUC_JP, HTML),
    (Language::Japanese, ISO_2022_JP, HTML),
    (Language::Russian, WINDOWS_1251, FATAL),
    (Language::German, WINDOWS_1252, FATAL),
    (Language::Japanese, SHIFT_JIS, HTML),
    (Language::Russian, WINDOWS_1252, HTML),
    (Language::German, WINDOWS_1251, HTML),
];

static MARKED: [(Language, &str, &str); 16] = [
    (Language::HalfWidth, SHIFT_JIS, HTML),
    (Language::HalfWidth, EUC_JP, HTML),
    (Language::HalfAndFull, SHIFT_JIS, HTML),
    (Language::Russian, SHIFT_JIS, HTML),
    (Language::Russian, EUC_JP, HTML),
    (Language::Russian, ISO_2022_JP, HTML),
    (Language::Frames, KOI8_R, HTML),
    (Language::Frames, IBM866, HTML),
    (Language::Quoted, WINDOWS_1252, HTML),
    (Language::Quoted, WINDOWS_1251, HTML),
    (Language::Marks, WINDOWS_1252, HTML),
    (Language::Sparse, SHIFT_JIS, HTML),
    (Language::Sparse, EUC_JP, HTML),
    (Language::Sparse, ISO_2022_JP, HTML),
    (Language::Short, SHIFT_JIS, HTML),
    (Language::Pictures, WINDOWS_1252, HTML),
];

impl Direction {
    // The kinds of sixteen texts, or of eight that come twice.
    fn kinds(self, alloc: Global) -> Result<Vec<Kind>, Fault> {
        match self {
            Direction::In => Ok(Vec::from_array(
                alloc,
                archived().map(|tongue| Kind {
                    tongue,
                    to: UTF_8,
                    mode: HTML,
                }),
            )?),
            Direction::Back => kinds_of(alloc, &BACK),
            Direction::Marked => kinds_of(alloc, &MARKED),
        }
    }
}

fn kinds_of(
    alloc: Global,
    rows: &[(Language, &'static str, &'static str)],
) -> Result<Vec<Kind>, Fault> {
    let mut kinds = Vec::new(alloc);
    for (language, to, mode) in rows {
        kinds.push(Kind {
            tongue: in_utf8(*language),
            to,
            mode,
        })?;
    }
    Ok(kinds)
}

/// One of the uploads that are under way. Its text is of whole lines, so that no character is cut at its end.
#[derive(Drop)]
struct Transfer<'a> {
    conn: usize,
    number: u64,
    piece: usize,
    text: Vec<&'a [u8]>,
    sent: usize,
    kind: Kind,
}

/// Does so many rounds of sixteen texts.
pub(crate) fn run(mut job: Job<'_>, direction: Direction) -> Result<Digest, Fault> {
    let mut samples = Vec::new(job.alloc);
    for kind in direction.kinds(job.alloc)?.iter() {
        let sample = Sample::new(
            job.alloc,
            kind.tongue,
            SAMPLE,
            job.material,
            &mut job.random,
        )?;
        samples.push((*kind, sample))?;
    }
    let mut server = Server::over(job.alloc, BLOCKS, job.material)?;
    let outcome = transfer_all(job.alloc, &mut server, &samples, job.count, &mut job.random);
    server.end(outcome)
}

fn transfer_all(
    alloc: Global,
    server: &mut Server,
    samples: &[(Kind, Sample)],
    rounds: u32,
    random: &mut Random,
) -> Result<(), Fault> {
    let mut heads = Heads::new(alloc, Client::Tuspy);
    for conn in 0..SIDE_BY_SIDE {
        server.connect(conn)?;
    }
    for round in 0..rounds {
        let first = (round as u64)
            .wrapping_mul(SIDE_BY_SIDE as u64)
            .wrapping_add(1);
        let mut transfers = Vec::new(alloc);
        for (conn, (kind, sample)) in (0..SIDE_BY_SIDE).zip(samples.iter().chain(samples.iter())) {
            let number = first.wrapping_add(conn as u64);
            transfers.push(Transfer::drawn(alloc, conn, number, *kind, sample, random)?)?;
        }
        begin_all(alloc, server, &mut heads, &transfers)?;
        feed_all(server, &mut transfers)?;
        read_all(server, &mut heads, &transfers)?;
    }
    Ok(())
}

// Makes the uploads, and sends the head of each one's only PATCH.
fn begin_all(
    alloc: Global,
    server: &mut Server,
    heads: &mut Heads,
    transfers: &[Transfer<'_>],
) -> Result<(), Fault> {
    for transfer in transfers {
        let len = transfer.len();
        let metadata = metadata_of(alloc, transfer.kind)?;
        server.send(transfer.conn, heads.post(len, metadata.as_str())?)?;
        let head = heads.patch(transfer.number, 0, len)?;
        server.send(transfer.conn, head)?;
    }
    Ok(())
}

fn metadata_of(alloc: Global, kind: Kind) -> Result<String, AllocError> {
    let Kind { tongue, to, mode } = kind;
    let from = tongue.label;
    format!(in alloc; "from {from},to {to},mode {mode},filename bGV0dGVyLnR4dA==")
}

// Sends lines of each text by turns, until all are sent.
fn feed_all(server: &mut Server, transfers: &mut [Transfer<'_>]) -> Result<(), Fault> {
    for _ in 0..TEXT {
        let mut goes_on = false;
        for transfer in transfers.iter_mut() {
            goes_on |= transfer.feed(server)?;
        }
        if !goes_on {
            break;
        }
    }
    Ok(())
}

// Reads each text back, and deletes its upload.
fn read_all(
    server: &mut Server,
    heads: &mut Heads,
    transfers: &[Transfer<'_>],
) -> Result<(), Fault> {
    for transfer in transfers {
        server.send(transfer.conn, heads.ask("GET", transfer.number)?)?;
        server.send(transfer.conn, heads.ask("DELETE", transfer.number)?)?;
    }
    Ok(())
}

impl<'a> Transfer<'a> {
    // An upload of a text of lines that are drawn.
    fn drawn(
        alloc: Global,
        conn: usize,
        number: u64,
        kind: Kind,
        sample: &'a Sample,
        random: &mut Random,
    ) -> Result<Self, AllocError> {
        let at = random.below(PIECES.len());
        let piece = PIECES.get(at).copied().unwrap_or(4096);
        let most = random.between(TEXT as u32 / 2, TEXT as u32);
        let mut text = Vec::new(alloc);
        let mut len = 0usize;
        for _ in 0..most {
            let lines = sample.draw(piece.max(16_384), random);
            len = len.saturating_add(lines.len());
            text.push(lines)?;
            if len >= most || lines.is_empty() {
                break;
            }
        }
        Ok(Transfer {
            conn,
            number,
            piece,
            text,
            sent: 0,
            kind,
        })
    }

    fn len(&self) -> usize {
        let mut len = 0usize;
        for lines in self.text.iter() {
            len = len.saturating_add(lines.len());
        }
        len
    }

    // Sends the next lines in pieces: whether there were any.
    fn feed(&mut self, server: &mut Server) -> Result<bool, Fault> {
        let Some(lines) = self.text.get(self.sent) else {
            return Ok(false);
        };
        for piece in lines.chunks(self.piece.max(1)) {
            server.send(self.conn, piece)?;
        }
        self.sent = self.sent.saturating_add(1);
        Ok(true)
    }
}
