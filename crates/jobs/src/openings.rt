//! Starting again: a spool of 511 uploads with all index files is opened, with its gate closed or open, some texts are
//! read, and a little is changed.

use crate::digest::Digest;
use crate::faults::Fault;
use crate::heads::{Client, Heads};
use crate::job::Job;
use crate::random::Random;
use crate::server::Server;
use crate::texts::{Sample, samples};
use crate::tongues::{Tongue, in_utf8, japanese_mail, japanese_sjis, russian_koi};
use crate::words::Language;
use std::alloc::Global;

const BLOCKS: u32 = 65_536;

const SAMPLE: usize = 262_144;
// How many uploads the spool has; fifteen come side by side, so that their blocks lie scattered.
const UPLOADS: u64 = 511;

const SIDE_BY_SIDE: usize = 15;
// How many uploads are read after each opening.
const LOOKS: usize = 4;

/// Opens the spool so many times.
pub(crate) fn run(mut job: Job<'_>) -> Result<Digest, Fault> {
    let tongues = [
        japanese_sjis(),
        in_utf8(Language::English),
        japanese_mail(),
        russian_koi(),
    ];
    let samples = samples(job.alloc, &tongues, SAMPLE, job.material, &mut job.random)?;
    let mut server = Server::over(job.alloc, BLOCKS, job.material)?;
    let filled = fill(job.alloc, &mut server, &samples, &mut job.random);
    let (mut disk, mut digest) = server.close();
    filled?;
    let mut heads = Heads::new(job.alloc, Client::Tuspy);
    for round in 0..job.count {
        if job.random.below(2) == 0 {
            disk.open_gate();
        }
        digest.note(round as u64);
        let mut server = Server::open(job.alloc, disk, digest)?;
        let lived = live(&mut server, &mut heads, &samples, round, &mut job.random);
        (disk, digest) = server.close();
        lived?;
    }
    Ok(digest)
}

// Fills the spool with unfinished uploads.
fn fill(
    alloc: Global,
    server: &mut Server,
    samples: &[(Tongue, Sample)],
    random: &mut Random,
) -> Result<(), Fault> {
    let mut heads = Heads::new(alloc, Client::Curl);
    for conn in 0..SIDE_BY_SIDE {
        server.connect(conn)?;
    }
    for first in (0..UPLOADS).step_by(SIDE_BY_SIDE) {
        let last = first.saturating_add(SIDE_BY_SIDE as u64).min(UPLOADS);
        let group = Group {
            first,
            last,
            len: random.between(40_000, 160_000),
        };
        group.send(server, &mut heads, samples, random)?;
    }
    Ok(())
}

/// Uploads that come side by side.
#[derive(Clone, Copy, Drop)]
struct Group {
    first: u64,
    last: u64,
    len: usize,
}

impl Group {
    fn send(
        self,
        server: &mut Server,
        heads: &mut Heads,
        samples: &[(Tongue, Sample)],
        random: &mut Random,
    ) -> Result<(), Fault> {
        for (conn, number) in (0..SIDE_BY_SIDE).zip(self.first..self.last) {
            let tongue = tongue_of(samples, number);
            server.send(conn, heads.post(1 << 30, tongue)?)?;
            let head = heads.patch(number.saturating_add(1), 0, self.len)?;
            server.send(conn, head)?;
        }
        let mut left = self.len;
        for _ in 0..self.len {
            if left == 0 {
                break;
            }
            let step = left.min(4096);
            for (conn, number) in (0..SIDE_BY_SIDE).zip(self.first..self.last) {
                self.feed(server, conn, sample_of(samples, number), step, random)?;
            }
            left -= step;
        }
        Ok(())
    }

    // Sends exactly so many bytes.
    fn feed(
        self,
        server: &mut Server,
        conn: usize,
        sample: Option<&Sample>,
        step: usize,
        random: &mut Random,
    ) -> Result<(), Fault> {
        let mut left = step;
        for _ in 0..step {
            if left == 0 {
                break;
            }
            let lines = match sample {
                Some(sample) => sample.draw(left, random),
                None => &[],
            };
            let some = lines.get(..left).unwrap_or(lines);
            server.send(conn, some)?;
            left = left.saturating_sub(some.len());
        }
        Ok(())
    }
}

fn sample_of(samples: &[(Tongue, Sample)], number: u64) -> Option<&Sample> {
    let at = number as usize % samples.len().max(1);
    samples.get(at).map(|(_, sample)| sample)
}

fn tongue_of(samples: &[(Tongue, Sample)], number: u64) -> &'static str {
    let at = number as usize % samples.len().max(1);
    match samples.get(at) {
        Some((tongue, _)) => tongue.metadata(),
        None => "",
    }
}

// Reads some uploads, and makes a new one in the place of the last.
fn live(
    server: &mut Server,
    heads: &mut Heads,
    samples: &[(Tongue, Sample)],
    round: u32,
    random: &mut Random,
) -> Result<(), Fault> {
    server.connect(0)?;
    for _ in 0..LOOKS {
        let number = random.between(1, UPLOADS as u32) as u64;
        server.send(0, heads.ask("HEAD", number)?)?;
        server.send(0, heads.ask("GET", number)?)?;
    }
    let newest = UPLOADS.saturating_add(round as u64);
    if round > 0 {
        server.send(0, heads.ask("DELETE", newest)?)?;
    }
    let text = match sample_of(samples, round as u64) {
        Some(sample) => sample.draw(random.between(300, 9000), random),
        None => &[],
    };
    server.send(0, heads.post(text.len(), tongue_of(samples, round as u64))?)?;
    let head = heads.patch(newest.saturating_add(1), 0, text.len())?;
    server.send(0, head)?;
    server.send(0, text)
}
