//! Signs of lost bytes in texts: U+FFFD, which is in the place of bytes that aren't of the encoding that was named.
ghost use Rattle.std.specs.Prelude.{Bool, IfErr, IsErrOf, OnOk};
ghost use Rattle.std.specs.Io.KnownBytes.{Appends};
ghost use Rattle.common.specs.declared.stop.Stop.{Stop};
ghost use Rattle.common.specs.Given.{MoreReads};
ghost use Rattle.upload_rules.specs.Answers.{Counts, Quiet};
ghost use Rattle.upload_rules.specs.World.{World};
ghost use Rattle.gateway_outside.specs.declared.faults.Fault.{Fault};
ghost use Rattle.gateway_outside.specs.Changing.{IsChangeFault};
ghost use Rattle.gateway_texts.specs.Losses.{losses_line, losses_line_of};

use crate::copies::copy_text;
use enc_model::Encoding;
use gateway_outside::{Fault, Output, Refused};
use std::io::{self, Write};
use upload_rules::Uploads;

/// The signs of lost bytes among bytes that were counted, and how many bytes these were. It is only tested what is
/// counted. A sign is U+FFFD in UTF-8, and in the other encodings, which lack it, its reference; a text may have it for
/// other reasons too.
#[derive(Drop)]
pub struct Signs {
    sign: &'static [u8],
    /// how many bytes of a sign came last
    begun: usize,
    bytes: u64,
    losses: u64,
}

impl Signs {
    /// Those of a text in this encoding, of which nothing was counted so far.
    pub fn of(to: Encoding) -> Self {
        let sign: &'static [u8] = match to {
            Encoding::Utf8 => b"\xEF\xBF\xBD",
            _ => b"&#65533;",
        };
        Signs {
            sign,
            begun: 0,
            bytes: 0,
            losses: 0,
        }
    }

    /// Counts bytes.
    pub fn add(&mut self, bytes: &[u8]) {
        self.bytes = self.bytes.saturating_add(bytes.len() as u64);
        for byte in bytes {
            self.go_on(*byte);
        }
    }

    // No byte of a sign but its first is that one, so a sign that breaks off begins again with it alone.
    fn go_on(&mut self, byte: u8) {
        if self.sign.get(self.begun) == Some(&byte) {
            self.begun = self.begun.saturating_add(1);
        } else {
            self.begun = usize::from(self.sign.first() == Some(&byte));
        }
        if self.begun == self.sign.len() {
            self.begun = 0;
            self.losses = self.losses.saturating_add(1);
        }
    }

    /// How many bytes were counted.
    pub fn bytes(&self) -> u64 {
        self.bytes
    }

    /// How many signs there were among them.
    pub fn losses(&self) -> u64 {
        self.losses
    }
}

/// A writer that counts the signs of lost bytes among the bytes that it takes.
#[derive(Drop)]
pub struct Tally<W> {
    stream: W,
    signs: Signs,
}

impl<W> Tally<W> {
    /// Nothing was written so far. What is written will be in this encoding.
    pub fn new(stream: W, to: Encoding) -> Self {
        Tally {
            stream,
            signs: Signs::of(to),
        }
    }

    /// How many signs of lost bytes there were among those that were written.
    pub fn losses(&self) -> u64 {
        self.signs.losses()
    }
}

impl<W: Write> Write for Tally<W> {
    ghost use Rattle.gateway_texts.specs.Losses.{tallied};

    ghost contents = { λ tally. W.contents (tallied tally) };

    fn write(&mut self, buf: &[u8]) -> io::Result<usize> {
        let outcome = self.stream.write(buf);
        if let Ok(count) = outcome {
            self.signs.add(&buf[..count]);
        }
        outcome
    }

    fn flush(&mut self) -> io::Result<()> {
        self.stream.flush()
    }
}

/// How many signs of lost bytes the text of an upload has, which is in this encoding. It is read for that.
pub fn losses_of<U: Uploads>(uploads: &mut U, number: u64, to: Encoding) -> Result<u64, Fault>
    ensures represents { (sure : Bool) (w : World) → U.represents uploads.old sure w
        → OnOk result (U.represents uploads.new sure w) }
    ensures crash { Quiet (U.moment uploads.old) (U.moment uploads.new) (U.left_only uploads.old)
        (U.left_only uploads.new) }
    ensures refused { IfErr result IsChangeFault }
    ensures counts { Counts (IsErrOf result (Fault.Stop Stop.DiskFault)) (U.failures uploads.old)
        (U.failures uploads.new) }
    ensures reads { MoreReads (U.reads uploads.old) (U.reads uploads.new) }
{
    let mut tally = Tally::new(io::sink(), to);
    copy_text(&mut tally, uploads, number)?;
    Ok(tally.losses())
}

/// Prints how often a text has U+FFFD.
pub fn report_losses<W: Output>(writer: &mut W, losses: u64) -> Result<(), Refused>
    ensures { OnOk result (Appends (W.contents writer.old) (W.contents writer.new) (losses_line losses)) }
{
    writeln!(writer, "U+FFFD in the text: {losses}")
}

/// Prints how often the text of an upload has U+FFFD.
pub fn report_losses_of<W: Output>(writer: &mut W, number: u64, losses: u64) -> Result<(), Refused>
    ensures { OnOk result (Appends (W.contents writer.old) (W.contents writer.new) (losses_line_of number losses)) }
{
    writeln!(writer, "U+FFFD in the text of {number}: {losses}")
}
