//! What is rare and hard, as scripts: bytes that come one by one, faults everywhere, an escape at every character, a
//! reference at every character, a spool without room, and requests that are refused.

use crate::digest::Digest;
use crate::faults::Fault;
use crate::heads::{Client, Heads};
use crate::job::Job;
use crate::ram_disk::RamDisk;
use crate::random::Random;
use crate::scripts::Script;
use crate::server::is_refused;
use crate::texts::Sample;
use crate::tongues::{
    ISO_2022_JP, SHIFT_JIS, UTF_8, UTF_16LE, WINDOWS_1252, in_utf8, japanese_sjis,
};
use crate::words::Language;
use gateway_engine::{RunFault, run as run_script};
use std::alloc::{AllocError, Global};

// The spool is small, so that a long text fills it.
const BLOCKS: u32 = 16;

const SAMPLE: usize = 65_536;

// Request lines and fields that are refused: a path, the version, the metadata, the labels, the length, the media type
// and, last, the coding.
static REFUSED: [&str; 7] = [
    "GET /other HTTP/1.1\r\nTus-Resumable: 1.0.0\r\n",
    "HEAD /files/1 HTTP/1.1\r\nTus-Resumable: 0.2.2\r\n",
    "POST /files HTTP/1.1\r\nTus-Resumable: 1.0.0\r\nUpload-Length: 5\r\nUpload-Metadata: from c2hp!\r\n",
    "POST /files HTTP/1.1\r\nTus-Resumable: 1.0.0\r\nUpload-Length: 5\r\nUpload-Metadata: from YmlnNQ==\r\n",
    "POST /files HTTP/1.1\r\nTus-Resumable: 1.0.0\r\nUpload-Length: 5x\r\n",
    "PATCH /files/1 HTTP/1.1\r\nTus-Resumable: 1.0.0\r\nUpload-Offset: 0\r\nContent-Type: text/plain\r\n",
    "PATCH /files/1 HTTP/1.1\r\nTus-Resumable: 1.0.0\r\nTransfer-Encoding: chunked\r\n",
];

// The refused requests of a script: those above, four of a missing upload, its PATCH, and, in most, one without room.
const MOST_REFUSED: usize = 13;

/// Runs so many scripts over one spool.
pub(crate) fn run(mut job: Job<'_>) -> Result<Digest, Fault> {
    let mut writer = Writer::new(&mut job)?;
    let mut disk = RamDisk::spool(job.alloc, BLOCKS, &job.material.indexes)?;
    let mut digest = Digest::new();
    let mut output = Vec::new(job.alloc);
    for _ in 0..job.count {
        writer.write(&mut job.random)?;
        output.clear();
        disk = match run_script(job.alloc, &mut writer.script.as_bytes(), &mut output, disk) {
            Ok(disk) => disk,
            Err((_, RunFault::Open(fault))) => return Err(Fault::from(fault)),
            Err((_, RunFault::Script(fault))) => return Err(Fault::from(fault)),
        };
        if refusals(&output) > MOST_REFUSED {
            return Err(Fault::Refused);
        }
        digest.add(&output);
    }
    Ok(digest)
}

// How many replies of 4xx and 5xx a script's output has. Each reply follows a line `< N k` and has k bytes.
fn refusals(output: &[u8]) -> usize {
    let mut count = 0usize;
    let mut rest = output;
    for _ in 0..output.len() {
        let mut parts = rest.splitn(2, |byte| *byte == b'\n');
        let (Some(line), Some(after)) = (parts.next(), parts.next()) else {
            break;
        };
        rest = match given(line) {
            Some(len) => {
                count = count.saturating_add(is_refused(after) as usize);
                after.get(len.saturating_add(1)..).unwrap_or(&[])
            }
            None => after,
        };
    }
    count
}

// How many bytes follow a line of a script's output.
fn given(line: &[u8]) -> Option<usize> {
    let line = str::from_utf8(line).ok()?;
    let (_conn, len) = line.strip_prefix("< ")?.split_once(' ')?;
    len.parse().ok()
}

/// A writer of scripts.
#[derive(Drop)]
struct Writer {
    script: Script,
    heads: Heads,
    bytes: Vec<u8>,
    /// The number of the latest upload.
    number: u64,
    legacy: Sample,
    russian: Sample,
}

impl Writer {
    // With a Japanese and a Russian sample.
    fn new(job: &mut Job<'_>) -> Result<Self, Fault> {
        let legacy = Sample::new(
            job.alloc,
            japanese_sjis(),
            SAMPLE,
            job.material,
            &mut job.random,
        )?;
        let russian = Sample::new(
            job.alloc,
            in_utf8(Language::Russian),
            SAMPLE,
            job.material,
            &mut job.random,
        )?;
        Ok(Writer {
            script: Script::new(job.alloc),
            heads: Heads::new(job.alloc, Client::Curl),
            bytes: Vec::new(job.alloc),
            number: 0,
            legacy,
            russian,
        })
    }

    // A script of one of each.
    fn write(&mut self, random: &mut Random) -> Result<(), AllocError> {
        self.script.clear();
        self.script.open()?;
        self.slow_line(random)?;
        self.noise(random.between(8000, 16_000), random)?;
        self.transfer(UTF_8, UTF_8, 4096)?;
        self.faults(random)?;
        self.transfer(UTF_8, UTF_8, 4096)?;
        self.noise(random.between(4000, 8000), random)?;
        self.transfer(SHIFT_JIS, UTF_8, 1500)?;
        self.noise(random.between(4000, 8000), random)?;
        self.transfer(UTF_16LE, UTF_8, 1001)?;
        self.escapes(random)?;
        self.transfer(ISO_2022_JP, UTF_8, 4096)?;
        self.lines(random)?;
        self.transfer(UTF_8, WINDOWS_1252, 4096)?;
        self.without_room(random)?;
        self.refusals(random)?;
        self.script.cut()
    }

    // An upload whose head and body come byte by byte.
    fn slow_line(&mut self, random: &mut Random) -> Result<(), AllocError> {
        self.bytes.clear();
        let lines = self.legacy.draw(random.between(2000, 4000), random);
        self.bytes.extend_from_slice(lines)?;
        self.post(SHIFT_JIS, UTF_8)?;
        let head = self.heads.patch(self.number, 0, self.bytes.len())?;
        self.script.came(head, 1)?;
        self.script.came(&self.bytes, 1)?;
        self.read()?;
        self.delete()
    }

    // Bytes of any kind, up to so many.
    fn noise(&mut self, count: usize, random: &mut Random) -> Result<(), AllocError> {
        self.bytes.clear();
        for _ in 0..count / 8 {
            self.bytes
                .extend_from_slice(&random.number().to_le_bytes())?;
        }
        Ok(())
    }

    // Text with a wrong byte every few hundred bytes, then every few bytes.
    fn faults(&mut self, random: &mut Random) -> Result<(), AllocError> {
        self.lines(random)?;
        let half = self.bytes.len() / 2;
        let mut at = 0;
        for _ in 0..self.bytes.len() {
            let most = if at < half { 400 } else { 20 };
            at = random.between(1, most).saturating_add(at);
            match self.bytes.get_mut(at) {
                Some(byte) => *byte = 0xFF,
                None => break,
            }
        }
        Ok(())
    }

    // Lines of Russian in UTF-8.
    fn lines(&mut self, random: &mut Random) -> Result<(), AllocError> {
        self.bytes.clear();
        let lines = self.russian.draw(random.between(6000, 12_000), random);
        self.bytes.extend_from_slice(lines)
    }

    // Kanji and letters by turns, each after an escape.
    fn escapes(&mut self, random: &mut Random) -> Result<(), AllocError> {
        self.bytes.clear();
        for _ in 0..random.between(400, 800) {
            let lead = 0x30 | random.byte() & 0x0F;
            let trail = 0x40 | random.byte() & 0x1F;
            let letter = 0x60 | random.byte() & 0x0F;
            self.bytes
                .extend_from_slice(&[0x1B, b'$', b'B', lead, trail, 0x1B, b'(', b'B', letter])?;
        }
        Ok(())
    }

    // An upload of the bytes, which come in pieces of so many. It is read back and deleted.
    fn transfer(&mut self, from: &str, to: &str, step: usize) -> Result<(), AllocError> {
        self.post(from, to)?;
        self.patch(0, step)?;
        self.read()?;
        self.delete()
    }

    // An upload that takes nearly all blocks, one for which no room is left, and what fits after a deletion.
    fn without_room(&mut self, random: &mut Random) -> Result<(), AllocError> {
        self.bytes.clear();
        for _ in 0..random.between(5, 6) {
            self.bytes
                .extend_from_slice(self.russian.draw(9000, random))?;
        }
        self.post(UTF_8, UTF_8)?;
        self.patch(0, 16_384)?;
        self.read()?;
        let long = self.number;
        self.noise(random.between(9000, 12_000), random)?;
        self.post(UTF_8, UTF_8)?;
        self.patch(0, 4096)?;
        self.script.say(self.heads.ask("DELETE", long)?)?;
        self.patch(0, 4096)?;
        self.read()?;
        self.delete()
    }

    // Requests that are refused. After the last one the connection is closed.
    fn refusals(&mut self, random: &mut Random) -> Result<(), AllocError> {
        let missing = random.between(1_000_000, 2_000_000) as u64;
        for method in ["HEAD", "GET", "DELETE", "PUT"] {
            self.script.say(self.heads.ask(method, missing)?)?;
        }
        let head = self.heads.patch(missing, 5, 0)?;
        self.script.say(head)?;
        for lines in REFUSED.iter() {
            let head = self.heads.refused(lines, missing)?;
            self.script.say(head)?;
        }
        Ok(())
    }

    fn post(&mut self, from: &str, to: &str) -> Result<(), AllocError> {
        self.number = self.number.wrapping_add(1);
        let head = self.heads.post_from(self.bytes.len(), from, to)?;
        self.script.say(head)
    }

    // A PATCH of the bytes.
    fn patch(&mut self, offset: usize, step: usize) -> Result<(), AllocError> {
        let head = self.heads.patch(self.number, offset, self.bytes.len())?;
        self.script.say(head)?;
        self.script.came(&self.bytes, step)
    }

    fn read(&mut self) -> Result<(), AllocError> {
        self.script.say(self.heads.ask("GET", self.number)?)
    }

    fn delete(&mut self) -> Result<(), AllocError> {
        self.script.say(self.heads.ask("DELETE", self.number)?)
    }
}
