//! A line that drops: texts whose connections are lost every few hundred bytes, also inside a character, an escape or a
//! byte order mark. Each time the client asks for the offset and goes on.

use crate::digest::Digest;
use crate::faults::Fault;
use crate::heads::{Client, Heads};
use crate::job::Job;
use crate::random::Random;
use crate::server::Server;
use crate::texts::{Sample, samples};
use crate::tongues::{Tongue, in_utf8, japanese_mail, japanese_sjis, japanese_utf16, russian_koi};
use crate::words::Language;
use enc_model::Encoding;
use std::alloc::Global;

const BLOCKS: u32 = 16_384;

const SAMPLE: usize = 131_072;
// How many uploads lie in the spool at a time, and the connections that are used by turns.
const MOST_UPLOADS: u64 = 200;

const CONNECTIONS: usize = 15;

/// Sends so many texts.
pub(crate) fn run(mut job: Job<'_>) -> Result<Digest, Fault> {
    let tongues = [
        japanese_mail(),
        japanese_sjis(),
        japanese_utf16(),
        in_utf8(Language::Japanese),
        russian_koi(),
    ];
    let samples = samples(job.alloc, &tongues, SAMPLE, job.material, &mut job.random)?;
    let mut server = Server::over(job.alloc, BLOCKS, job.material)?;
    let outcome = send_all(job.alloc, &mut server, &samples, job.count, &mut job.random);
    server.end(outcome)
}

fn send_all(
    alloc: Global,
    server: &mut Server,
    samples: &[(Tongue, Sample)],
    texts: u32,
    random: &mut Random,
) -> Result<(), Fault> {
    let mut sender = Sender {
        heads: Heads::new(alloc, Client::Curl),
        text: Vec::new(alloc),
        conn: 0,
    };
    for number in 1..=texts as u64 {
        let kind = random.below(samples.len().max(1));
        if let Some((tongue, sample)) = samples.get(kind) {
            sender.heads = Heads::new(alloc, Client::drawn(random));
            sender.write(*tongue, sample, random)?;
            sender.send(server, *tongue, number, random)?;
            sender.read(server, number)?;
        }
    }
    Ok(())
}

/// A client that loses its connections.
#[derive(Drop)]
struct Sender {
    heads: Heads,
    text: Vec<u8>,
    conn: usize,
}

impl Sender {
    // Puts a text together, with a byte order mark where its encoding has one.
    fn write(&mut self, tongue: Tongue, sample: &Sample, random: &mut Random) -> Result<(), Fault> {
        self.text.clear();
        match tongue.encoding {
            Encoding::Utf8 => self.text.extend_from_slice(b"\xEF\xBB\xBF")?,
            Encoding::Utf16Le => self.text.extend_from_slice(b"\xFF\xFE")?,
            _ => {}
        }
        let lines = sample.draw(random.between(4000, 16_000), random);
        self.text.extend_from_slice(lines)?;
        Ok(())
    }

    // Makes the upload, and sends its text over one connection after the other. The first ones are lost within two
    // bytes.
    fn send(
        &mut self,
        server: &mut Server,
        tongue: Tongue,
        number: u64,
        random: &mut Random,
    ) -> Result<(), Fault> {
        self.open(server)?;
        server.send(
            self.conn,
            self.heads.post(self.text.len(), tongue.metadata())?,
        )?;
        let mut offset = 0;
        for turn in 0..self.text.len() {
            let rest = self.text.get(offset..).unwrap_or(&[]);
            if rest.is_empty() {
                break;
            }
            let most = if turn < 3 { 2 } else { 600 };
            let piece = rest.get(..random.between(1, most)).unwrap_or(rest);
            server.send(self.conn, self.heads.ask("HEAD", number)?)?;
            let head = self.heads.patch(number, offset, rest.len())?;
            server.send(self.conn, head)?;
            server.send(self.conn, piece)?;
            offset = offset.saturating_add(piece.len());
            server.lose(self.conn)?;
            self.open(server)?;
        }
        Ok(())
    }

    // Reads a text back, and deletes one that was read before.
    fn read(&mut self, server: &mut Server, number: u64) -> Result<(), Fault> {
        server.send(self.conn, self.heads.ask("GET", number)?)?;
        if number > MOST_UPLOADS {
            server.send(self.conn, self.heads.ask("DELETE", number - MOST_UPLOADS)?)?;
        }
        server.lose(self.conn)
    }

    // Opens the next connection.
    fn open(&mut self, server: &mut Server) -> Result<(), Fault> {
        self.conn = (self.conn.min(CONNECTIONS) + 1) % CONNECTIONS;
        server.connect(self.conn)
    }
}
