//! The examples of enc_stream. The docs of its types have the same lines.

use crate::sets::set_of;
use enc_index::{IndexSet, Kind};
use enc_model::{Encoding, Mode};
use enc_stream::{EncodeError, OpenTranscoder, Progress, TranscodeError, Transcoder};
use std::alloc::Global;
use std::process::Abort;
use std::test::Fail;

/// A set with the character that the examples decode.
fn small_set(rt: &impl Abort, alloc: Global) -> IndexSet {
    set_of(rt, alloc, &[(Kind::Jis0208, "283\t0x3042\n")])
}

#[test]
fn example_of_transcoder(rt: HostRuntime) -> Result<(), Fail> {
    let (rt, alloc) = (&rt, rt.alloc());
    let set = small_set(rt, alloc);
    let mut out = Vec::new(alloc);
    let mut before = Transcoder::new(Encoding::ShiftJis, Encoding::Utf8, Mode::Html);
    before.feed(&set, b"\x82", &mut out)?;
    let stored = before.pack();

    let mut after = Transcoder::unpack(&stored).expect(rt, "state bytes");
    after.feed(&set, b"\xA0", &mut out)?;
    after.finish(&set, &mut out)?;
    assert_eq!(rt; out.as_slice(), "\u{3042}".as_bytes());
    Ok(())
}

#[test]
fn example_of_progress(rt: HostRuntime) -> Result<(), Fail> {
    let (rt, alloc) = (&rt, rt.alloc());
    let set = small_set(rt, alloc);
    let mut out = Vec::new(alloc);
    let mut transcoder = Transcoder::new(Encoding::Utf8, Encoding::Utf8, Mode::Html);
    transcoder.feed(&set, b"\xEF\xBB", &mut out)?;
    assert_eq!(rt; transcoder.progress(), Progress::Holding(2));
    transcoder.feed(&set, b"\xBFa", &mut out)?;
    assert_eq!(rt; transcoder.progress(), Progress::Decoding);
    transcoder.finish(&set, &mut out)?;
    assert_eq!(rt; transcoder.progress(), Progress::Ended);
    Ok(())
}

#[test]
fn example_of_open_transcoder(rt: HostRuntime) {
    let (rt, alloc) = (&rt, rt.alloc());
    let set = small_set(rt, alloc);
    let mut out = Vec::new(alloc);
    let new = Transcoder::new(Encoding::Utf8, Encoding::ShiftJis, Mode::Fatal);
    let open = OpenTranscoder::of(new).expect(rt, "a new one");
    let refused = open.fed(&set, "\u{1F600}".as_bytes(), &mut out);
    assert!(rt; matches!(refused, Err(EncodeError::Unencodable('\u{1F600}'))));
    let next = open.fed(&set, b"a", &mut out).expect(rt, "it has a code");
    let end = next.ended(&set, &mut out).expect(rt, "no memory is needed");
    assert!(rt; OpenTranscoder::of(end).is_none());
    assert!(rt; out.as_slice() == b"a".as_slice() && next.pack() == next.copy().pack());
}

#[test]
fn example_of_transcode_error(rt: HostRuntime) {
    let (rt, alloc) = (&rt, rt.alloc());
    let set = small_set(rt, alloc);
    let mut out = Vec::new(alloc);
    let mut transcoder = Transcoder::new(Encoding::Utf8, Encoding::ShiftJis, Mode::Fatal);
    let refused = transcoder.feed(&set, "\u{1F600}".as_bytes(), &mut out);
    assert_eq!(rt; refused, Err(TranscodeError::Unencodable('\u{1F600}')));
    let refused = transcoder.finish(&set, &mut out);
    assert_eq!(rt; refused, Err(TranscodeError::Spent));
}
