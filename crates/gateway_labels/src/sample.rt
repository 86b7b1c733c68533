//! The first line of a text that tells something of its encoding.

use std::alloc::{AllocError, Global};
use std::fmt::Write;
use unicode_width::UnicodeWidthChar;

/// How many columns of a line are shown at most.
const COLUMNS: usize = 60;

/// How many bytes, since many characters have no width.
const BYTES: usize = 480;

/// The first line of a text that has a character that isn't ASCII: its start, or if that character is behind that, what
/// begins with it. It is only tested what it is.
#[derive(Drop)]
pub struct Sample {
    line: String,
    columns: usize,
    // no more of the line has room
    is_full: bool,
    // a character that isn't ASCII came
    is_telling: bool,
    is_over: bool,
}

impl Sample {
    /// Of no text so far.
    pub fn new(alloc: Global) -> Self {
        Sample {
            line: String::new(alloc),
            columns: 0,
            is_full: false,
            is_telling: false,
            is_over: false,
        }
    }

    /// Goes on with a text.
    pub fn add(&mut self, text: &str) -> Result<(), AllocError> {
        for c in text.chars() {
            if self.is_over {
                break;
            }
            self.put(c)?;
        }
        Ok(())
    }

    /// The line, if there is one. Controls are in it as `\xNN`.
    pub fn into_line(self) -> Option<String> {
        if self.is_telling {
            Some(self.line)
        } else {
            None
        }
    }

    fn put(&mut self, c: char) -> Result<(), AllocError> {
        if c == '\n' || c == '\r' {
            self.end_line();
            return Ok(());
        }
        if !c.is_ascii() && !self.is_telling {
            self.is_telling = true;
            if self.is_full || !self.has_room(width_of(c)) {
                self.clear();
            }
        }
        if !self.is_full && self.has_room(width_of(c)) {
            self.columns = self.columns.saturating_add(width_of(c));
            return self.show(c);
        }
        self.is_full = true;
        self.is_over = self.is_telling;
        Ok(())
    }

    fn end_line(&mut self) {
        if self.is_telling {
            self.is_over = true;
        } else {
            self.clear();
        }
    }

    fn clear(&mut self) {
        self.line.clear();
        self.columns = 0;
        self.is_full = false;
    }

    fn has_room(&self, width: usize) -> bool {
        self.columns.saturating_add(width) <= COLUMNS && self.line.len() < BYTES
    }

    // Appends a character, or the number of one that a terminal doesn't show.
    fn show(&mut self, c: char) -> Result<(), AllocError> {
        if is_shown(c) {
            return self.line.push(c);
        }
        let code = u32::from(c);
        let written = if code < 0x100 {
            write!(self.line, "\\x{code:02x}")
        } else {
            write!(self.line, "\\u{{{code:04x}}}")
        };
        written.map_err(|_| AllocError)
    }
}

// Whether a character may go to a terminal: neither a control, nor one that ends a line or turns its direction.
fn is_shown(c: char) -> bool {
    !c.is_control()
        && !matches!(c, '\u{2028}'..='\u{202E}' | '\u{2066}'..='\u{2069}' | '\u{FFF9}'..='\u{FFFB}')
}

// How many columns a character takes as it is shown.
fn width_of(c: char) -> usize {
    if !is_shown(c) {
        return if u32::from(c) < 0x100 { 4 } else { 8 };
    }
    c.width().unwrap_or(1)
}
