//! Thousands of small texts: each is made, sent, looked at and read, and deleted once the spool is full.

use crate::digest::Digest;
use crate::faults::Fault;
use crate::heads::{Client, Heads};
use crate::job::Job;
use crate::random::Random;
use crate::server::Server;
use crate::texts::{Sample, samples};
use crate::tongues::{Tongue, in_utf8, japanese_mail, japanese_sjis, russian_koi};
use crate::words::Language;
use std::alloc::Global;

const BLOCKS: u32 = 16_384;

const SAMPLE: usize = 262_144;
// How many connections the importers have, and how many mails lie in the spool at a time.
const CONNECTIONS: usize = 6;

const MOST_UPLOADS: u64 = 500;

/// An importer on its connection.
#[derive(Drop)]
struct Importer {
    conn: usize,
    heads: Heads,
}

/// Sends so many mails.
pub(crate) fn run(mut job: Job<'_>) -> Result<Digest, Fault> {
    let tongues = [
        japanese_mail(),
        japanese_sjis(),
        russian_koi(),
        in_utf8(Language::German),
    ];
    let samples = samples(job.alloc, &tongues, SAMPLE, job.material, &mut job.random)?;
    let mut server = Server::over(job.alloc, BLOCKS, job.material)?;
    let outcome = import(job.alloc, &mut server, &samples, job.count, &mut job.random);
    server.end(outcome)
}

fn import(
    alloc: Global,
    server: &mut Server,
    samples: &[(Tongue, Sample)],
    mails: u32,
    random: &mut Random,
) -> Result<(), Fault> {
    let mut importers = Vec::new(alloc);
    for conn in 0..CONNECTIONS {
        let client = match conn % 3 {
            0 => Client::Curl,
            1 => Client::Tuspy,
            _ => Client::Browser,
        };
        let heads = Heads::new(alloc, client);
        server.connect(conn)?;
        importers.push(Importer { conn, heads })?;
    }
    for number in 1..=mails as u64 {
        let conn = random.below(CONNECTIONS);
        let kind = random.below(samples.len().max(1));
        if let (Some(importer), Some((tongue, sample))) = (
            importers.get_mut(conn),
            samples.get(kind),
        ) {
            importer.import(server, *tongue, sample, number, random)?;
            if number > MOST_UPLOADS {
                importer.delete(server, number - MOST_UPLOADS)?;
            }
        }
    }
    Ok(())
}

impl Importer {
    // Makes an upload, sends its text, looks at its offset, and reads it back.
    fn import(
        &mut self,
        server: &mut Server,
        tongue: Tongue,
        sample: &Sample,
        number: u64,
        random: &mut Random,
    ) -> Result<(), Fault> {
        let most = match random.below(8) {
            0 => 30_000,
            1 | 2 => 8_000,
            _ => 2_500,
        };
        let text = sample.draw(random.between(300, most), random);
        let metadata = tongue.metadata();
        server.send(self.conn, self.heads.post(text.len(), metadata)?)?;
        server.send(self.conn, self.heads.patch(number, 0, text.len())?)?;
        server.send(self.conn, text)?;
        server.send(self.conn, self.heads.ask("HEAD", number)?)?;
        server.send(self.conn, self.heads.ask("GET", number)?)
    }

    // Deletes an upload.
    fn delete(&mut self, server: &mut Server, number: u64) -> Result<(), Fault> {
        server.send(self.conn, self.heads.ask("DELETE", number)?)
    }
}
