//! Scripts of connections, as `gateway script` reads them.

use std::alloc::{AllocError, Global};

static DIGITS: [u8; 16] = *b"0123456789ABCDEF";

// How many bytes are written at once.
const CHUNK: usize = 16;

/// A script that is being written, all of it on one connection.
#[derive(Drop)]
pub(crate) struct Script {
    text: Vec<u8>,
}

impl Script {
    pub(crate) fn new(alloc: Global) -> Self {
        Script {
            text: Vec::new(alloc),
        }
    }

    pub(crate) fn as_bytes(&self) -> &[u8] {
        &self.text
    }

    /// Forgets the lines so far.
    pub(crate) fn clear(&mut self) {
        self.text.clear();
    }

    /// Opens the connection.
    pub(crate) fn open(&mut self) -> Result<(), AllocError> {
        self.put(b"open 1\n")
    }

    /// Ends the connection.
    pub(crate) fn cut(&mut self) -> Result<(), AllocError> {
        self.put(b"cut 1\n")
    }

    /// Gives the connection the lines of a head, an order for each.
    pub(crate) fn say(&mut self, head: &[u8]) -> Result<(), AllocError> {
        for line in head.split(|byte| *byte == b'\n') {
            let line = line.strip_suffix(b"\r").unwrap_or(line);
            if !line.is_empty() {
                self.put(b"say 1 ")?;
                self.put(line)?;
                self.put(b"\n")?;
            }
        }
        self.put(b"say 1\n")
    }

    /// Gives the connection bytes, a number of them at a time.
    pub(crate) fn came(&mut self, bytes: &[u8], step: usize) -> Result<(), AllocError> {
        for piece in bytes.chunks(step.max(1)) {
            self.put(b"came 1 ")?;
            self.put_hex(piece)?;
            self.put(b"\n")?;
        }
        Ok(())
    }

    fn put(&mut self, bytes: &[u8]) -> Result<(), AllocError> {
        self.text.extend_from_slice(bytes)
    }

    fn put_hex(&mut self, bytes: &[u8]) -> Result<(), AllocError> {
        for chunk in bytes.chunks(CHUNK) {
            let digits = digits_of(chunk);
            self.put(digits.get(..2 * chunk.len()).unwrap_or(&digits))?;
        }
        Ok(())
    }
}

// The digits of up to sixteen bytes.
fn digits_of(bytes: &[u8]) -> [u8; 2 * CHUNK] {
    let mut digits = [0; 2 * CHUNK];
    for (k, byte) in bytes.iter().enumerate() {
        if k < CHUNK {
            digits[2 * k] = DIGITS[(*byte >> 4) as usize];
            digits[2 * k + 1] = DIGITS[(*byte & 15) as usize];
        }
    }
    digits
}
