//! Talks: scripts together with the output that their runs must write.

use crate::replies::{Wanted, replies};
use crate::steps::Step;
use enc_index::{Index, IndexSet, Kind};
use spool_disk::MemoryDisk;
use spool_image::format;
use std::alloc::Global;
use std::process::Abort;

/// The uploads after a change, and how many bytes of the output were written when it was acknowledged.
#[derive(Drop)]
pub(crate) struct Stage {
    pub(crate) written: usize,
    /// The uploads in the form of `put_upload`, by their numbers.
    pub(crate) uploads: Vec<u8>,
}

/// A script, its wanted output, and the uploads after each change.
#[derive(Drop)]
pub(crate) struct Talk {
    alloc: Global,
    pub(crate) script: Vec<u8>,
    pub(crate) wanted: Vec<u8>,
    pub(crate) stages: Vec<Stage>,
    // The length of the latest reply in bytes.
    latest: usize,
}

const MEMORY: &str = "memory for a talk";

/// Appends bytes.
fn put(rt: &impl Abort, to: &mut Vec<u8>, bytes: &[u8]) {
    to.extend_from_slice(bytes).expect(rt, MEMORY);
}

/// Appends a line with an upload's number, accepted bytes, declared length and text length, and then the text.
pub(crate) fn put_upload(
    rt: &impl Abort,
    alloc: Global,
    to: &mut Vec<u8>,
    number: u64,
    accepted: u64,
    declared: Option<u64>,
    text: &[u8],
) {
    let count = text.len();
    let line = format!(in alloc; "{number}: {accepted} of {declared:?}, {count}: ").expect(
        rt, MEMORY,
    );
    put(rt, to, line.as_bytes());
    put(rt, to, text);
}

impl Talk {
    /// A talk of these steps, over a spool without uploads.
    pub(crate) fn new(rt: &impl Abort, alloc: Global, steps: &[Step]) -> Self {
        let mut talk = Talk {
            alloc,
            script: Vec::new(alloc),
            wanted: Vec::new(alloc),
            stages: Vec::new(alloc),
            latest: 0,
        };
        talk.changed(rt, &[]);
        talk.go_on(rt, steps);
        talk
    }

    /// Appends steps.
    pub(crate) fn go_on(&mut self, rt: &impl Abort, steps: &[Step]) {
        for step in steps.iter() {
            self.take(rt, *step);
        }
    }

    fn take(&mut self, rt: &impl Abort, step: Step) {
        match step {
            Step::Open(last) => self.open(rt, last),
            Step::Line(text) => self.line(rt, text),
            Step::Say(conn, head) => self.say(rt, conn, head),
            Step::Came(conn, bytes) => self.came(rt, conn, bytes),
            Step::Written(text) => self.shows_line(rt, text),
            Step::Given(conn, bytes) => self.given(rt, conn, bytes),
            Step::Replied(conn, reply) => self.replied(rt, conn, reply),
            Step::Reply(conn, status, lines, body) => self.reply(rt, conn, status, lines, body),
            Step::Refused(conn, status, number) => self.refused(rt, conn, status, number),
            Step::Bytes(count) => assert_eq!(rt; self.latest, count),
            Step::Post(length, metadata) => self.post(rt, Some(length), metadata),
            Step::Made(number, length, metadata) => self.made(rt, number, Some(length), metadata),
            Step::Deferred(number, metadata) => self.made(rt, number, None, metadata),
            Step::Patch(conn, number, offset, len) => {
                self.patch(rt, conn, number, offset, None, len);
            }
            Step::Declare(conn, number, offset, declared, len) => {
                self.patch(rt, conn, number, offset, Some(declared), len);
            }
            Step::Patched(conn, offset) => self.replied(rt, conn, Wanted::Patched(offset)),
            Step::Added(number, offset, bytes, reached) => self.added(
                rt, number, offset, bytes, reached,
            ),
            Step::Deleted(conn, number) => self.ask(rt, conn, "DELETE", number, Wanted::Deleted),
            Step::Gone(conn, number) => self.ask(rt, conn, "HEAD", number, Wanted::Gone),
            Step::Shown(conn, number, offset, declared, metadata) => {
                self.ask(
                    rt,
                    conn,
                    "HEAD",
                    number,
                    Wanted::Shown(offset, declared, metadata),
                );
            }
            Step::Text(number, charset, text) => self.text(rt, number, charset, text),
            Step::Changed(uploads) => self.changed(rt, uploads),
        }
    }

    fn line(&mut self, rt: &impl Abort, text: &str) {
        put(rt, &mut self.script, text.as_bytes());
        put(rt, &mut self.script, b"\n");
    }

    fn shows_line(&mut self, rt: &impl Abort, text: &str) {
        put(rt, &mut self.wanted, text.as_bytes());
        put(rt, &mut self.wanted, b"\n");
    }

    fn open(&mut self, rt: &impl Abort, last: u32) {
        for conn in 1..=last {
            self.line(
                rt,
                &format!(in self.alloc; "open {conn}").expect(rt, MEMORY),
            );
        }
    }

    fn say(&mut self, rt: &impl Abort, conn: u32, head: &str) {
        for line in head.split('\n') {
            self.line(
                rt,
                &format!(in self.alloc; "say {conn} {line}").expect(rt, MEMORY),
            );
        }
        self.line(rt, &format!(in self.alloc; "say {conn}").expect(rt, MEMORY));
    }

    fn came(&mut self, rt: &impl Abort, conn: u32, bytes: &[u8]) {
        let digits = hex::encode(self.alloc, bytes).expect(rt, MEMORY);
        self.line(
            rt,
            &format!(in self.alloc; "came {conn} {digits}").expect(rt, MEMORY),
        );
    }

    fn given(&mut self, rt: &impl Abort, conn: u32, bytes: &[u8]) {
        let count = bytes.len();
        self.shows_line(
            rt,
            &format!(in self.alloc; "< {conn} {count}").expect(rt, MEMORY),
        );
        put(rt, &mut self.wanted, bytes);
        self.shows_line(rt, "");
    }

    fn replied(&mut self, rt: &impl Abort, conn: u32, reply: Wanted) {
        let bytes = replies(rt, self.alloc, &[reply]);
        self.latest = bytes.len();
        self.given(rt, conn, &bytes);
    }

    fn reply(&mut self, rt: &impl Abort, conn: u32, status: &str, lines: &str, body: &[u8]) {
        let mut bytes = Vec::new(self.alloc);
        put(rt, &mut bytes, b"HTTP/1.1 ");
        put(rt, &mut bytes, status.as_bytes());
        put(
            rt,
            &mut bytes,
            b"\r\nTus-Resumable: 1.0.0\r\nCache-Control: no-store\r\n",
        );
        for line in lines.lines() {
            put(rt, &mut bytes, line.as_bytes());
            put(rt, &mut bytes, b"\r\n");
        }
        put(rt, &mut bytes, b"\r\n");
        put(rt, &mut bytes, body);
        self.latest = bytes.len();
        self.given(rt, conn, &bytes);
    }

    fn refused(&mut self, rt: &impl Abort, conn: u32, status: &str, number: u8) {
        let lines = format!(in self.alloc; "X-Refusal: {number}\nContent-Length: 0").expect(
            rt, MEMORY,
        );
        self.reply(rt, conn, status, &lines, b"");
    }

    fn post(&mut self, rt: &impl Abort, length: Option<u64>, metadata: &str) {
        let (defers, length) = match length {
            Some(length) => ("Length", length),
            None => ("Defer-Length", 1),
        };
        let named = if metadata.is_empty() {
            ""
        } else {
            "\nUpload-Metadata: "
        };
        let head = format!(in self.alloc;
            "POST /files HTTP/1.1\nTus-Resumable: 1.0.0\nUpload-{defers}: {length}{named}{metadata}"
        ).expect(rt, MEMORY);
        self.say(rt, 1, &head);
    }

    fn made(&mut self, rt: &impl Abort, number: u64, length: Option<u64>, metadata: &str) {
        self.post(rt, length, metadata);
        self.replied(rt, 1, Wanted::Made(number));
    }

    fn patch(
        &mut self,
        rt: &impl Abort,
        conn: u32,
        number: u64,
        offset: u64,
        declare: Option<u64>,
        count: usize,
    ) {
        let mut head = format!(in self.alloc;
            "PATCH /files/{number} HTTP/1.1\nTus-Resumable: 1.0.0\nContent-Type: application/offset+octet-stream\n\
            Upload-Offset: {offset}\nContent-Length: {count}"
        )
        .expect(rt, MEMORY);
        if let Some(length) = declare {
            let line = format!(in self.alloc; "\nUpload-Length: {length}").expect(rt, MEMORY);
            head.push_str(&line).expect(rt, MEMORY);
        }
        self.say(rt, conn, &head);
    }

    /// A request for an upload, and its reply.
    fn ask(&mut self, rt: &impl Abort, conn: u32, method: &str, number: u64, reply: Wanted) {
        let head = format!(in self.alloc;
            "{method} /files/{number} HTTP/1.1\nTus-Resumable: 1.0.0"
        ).expect(rt, MEMORY);
        self.say(rt, conn, &head);
        self.replied(rt, conn, reply);
    }

    fn added(&mut self, rt: &impl Abort, number: u64, offset: u64, bytes: &[u8], reached: u64) {
        self.patch(rt, 1, number, offset, None, bytes.len());
        self.came(rt, 1, bytes);
        self.replied(rt, 1, Wanted::Patched(reached));
    }

    fn text(&mut self, rt: &impl Abort, number: u64, charset: &str, text: &[u8]) {
        let head = format!(in self.alloc; "GET /files/{number} HTTP/1.1").expect(rt, MEMORY);
        self.say(rt, 1, &head);
        let length = text.len();
        let lines = format!(in self.alloc;
            "Content-Type: text/plain; charset={charset}\nContent-Length: {length}"
        ).expect(rt, MEMORY);
        self.reply(rt, 1, "200 OK", &lines, text);
    }

    fn changed(&mut self, rt: &impl Abort, uploads: &[(u64, u64, Option<u64>, &[u8])]) {
        let mut shown = Vec::new(self.alloc);
        for (number, accepted, declared, text) in uploads {
            put_upload(
                rt, self.alloc, &mut shown, *number, *accepted, *declared, text,
            );
        }
        let stage = Stage {
            written: self.wanted.len(),
            uploads: shown,
        };
        self.stages.push(stage).expect(rt, MEMORY);
    }
}

/// Index files: their kinds and lines.
pub(crate) type Files<'a> = &'a [(Kind, &'a [u8])];

/// A new spool of `blocks` blocks on a disk of its size, with this index file if one is given.
pub(crate) fn fresh(
    rt: &impl Abort,
    alloc: Global,
    blocks: u32,
    file: Option<(Kind, &[u8])>,
) -> MemoryDisk {
    with_files(rt, alloc, blocks, file.as_slice())
}

/// A new spool of `blocks` blocks on a disk of its size, with these index files.
pub(crate) fn with_files(rt: &impl Abort, alloc: Global, blocks: u32, files: Files) -> MemoryDisk {
    let mut indexes = IndexSet::new(alloc).expect(rt, "memory for a set");
    for (kind, lines) in files {
        indexes.set(Index::read(alloc, *lines, *kind).expect(rt, "an index file"));
    }
    let size = (541 + blocks as usize) * 4096;
    let mut disk = MemoryDisk::new(alloc, size).expect(rt, "memory for a disk");
    format(&mut disk, blocks, &indexes).expect(rt, "a disk of this size");
    disk
}
