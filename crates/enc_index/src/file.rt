//! The lines of an index file.

ghost use Rattle.std.specs.Prelude.{◌≡◌, ◌+◌, ◌<◌, ◌≤◌, ◌^◌, length, ◌∷◌, IfSome, Option, Some, Ok, Err};
ghost use Rattle.std.specs.Prelude.{MatchResult, option_copied};
ghost use Rattle.enc_index.specs.Entries.{pairs_from, AreScalarEntries};
ghost use Rattle.common.specs.Splits.{before};
ghost use Rattle.enc_index.specs.Files.{lines_after, rest_if_any, without_cr, is_dropped, number_in_base};
ghost use Rattle.enc_index.specs.Files.{without_spaces};
ghost use Rattle.enc_index.specs.Files.{without_0x, pair_of, with_pair, with_line, with_lines, lines_of};

use crate::kind::ReadError;
use common::prefix;

/// The bytes before the first mark, and those after it.
#[tactic(auto, using(crate::proofs::Cuts::rest_here, crate::proofs::Cuts::rest_nowhere))]
fn cut(bytes: &[u8], mark: u8) -> (&[u8], Option<&[u8]>)
    ensures before { result.0.now ≡ before mark bytes.now }
    ensures after { option_copied result.1 ≡ rest_if_any mark bytes.now }
{
    let first = prefix(bytes, mark);
    if first.len() < bytes.len() {
        (first, Some(&bytes[first.len() + 1..]))
    } else {
        (first, None)
    }
}

/// The line without a CR at its end.
fn without_cr(line: &[u8]) -> &[u8]
    ensures { result.now ≡ without_cr line.now }
{
    line.strip_suffix(b"\r").unwrap_or(line)
}

/// The field without spaces at its start.
#[tactic(auto, unfolding(crate::specs::Files::without_spaces))]
fn without_spaces(field: &[u8]) -> &[u8]
    ensures { result.now ≡ without_spaces field.now }
{
    let mut rest = field;
    while let [b' ', after @ ..] = rest {
        rest = after;
    }
    rest
}

/// The field without a leading `0x`.
fn without_0x(field: &[u8]) -> &[u8]
    ensures { result.now ≡ without_0x field.now }
{
    field.strip_prefix(b"0x").unwrap_or(field)
}

/// The number of one or more digits, at most `most`.
#[tactic(auto, using(crate::proofs::Numbers::by_digits))]
fn number(digits: &[u8], radix: u32, most: usize) -> Option<u32>
    requires least { 2 ≤ radix }
    requires greatest { radix ≤ 36 }
    requires fits { radix ^ most ≤ 2 ^ 32 }
    ensures { result ≡ number_in_base radix most digits.now }
{
    if digits.is_empty() || digits.len() > most {
        return None;
    }
    let mut value = 0;
    for byte in digits {
        value = value * radix + (*byte as char).to_digit(radix)?;
    }
    Some(value)
}

/// The pointer and the code point in a line's first two fields.
#[tactic(auto, unfolding(crate::specs::Files::pair_of))]
fn pair_of(line: &[u8]) -> Option<(u32, u32)>
    ensures { result ≡ pair_of line.now }
{
    let (first, rest) = cut(line, b'\t');
    let pointer = number(without_spaces(first), 10, 6)?;
    let (second, _others) = cut(rest?, b'\t');
    let point = number(without_0x(second), 16, 8)?;
    Some((pointer, point))
}

/// Stores the pair of a line in the table.
#[tactic(auto, using(crate::proofs::Pairs::by_pair))]
fn put_pair(
    codes: &mut [Option<char>],
    line_number: usize,
    pair: (u32, u32),
) -> Result<(), ReadError>
    ensures pairs { MatchResult result
        (λ _. with_pair (length codes.old) line_number (pairs_from 0 codes.old) (Some pair) ≡ Ok
        (pairs_from 0 codes.new)) (λ e. with_pair (length codes.old) line_number (pairs_from 0 codes.old)
        (Some pair) ≡ Err e) }
    ensures scalars { AreScalarEntries codes.old → AreScalarEntries codes.new }
{
    let place = pair.0 as usize;
    if place >= codes.len() {
        return Err(ReadError::Range(line_number));
    }
    let Some(c) = char::from_u32(pair.1) else {
        return Err(ReadError::Range(line_number));
    };
    if codes[place].is_some() {
        return Err(ReadError::Twice(line_number));
    }
    codes[place] = Some(c);
    Ok(())
}

/// Whether the line is empty or a comment.
fn is_dropped(line: &[u8]) -> bool
    ensures { result ≡ is_dropped line.now }
{
    line.is_empty() || line[0] == b'#'
}

/// Stores the pair of a line in the table, if the line has one.
#[tactic(auto, unfolding(crate::specs::Files::with_line))]
fn read_line(codes: &mut [Option<char>], line_number: usize, line: &[u8]) -> Result<(), ReadError>
    ensures pairs { MatchResult result
        (λ _. with_line (length codes.old) line_number (pairs_from 0 codes.old) line.now ≡ Ok (pairs_from 0 codes.new))
        (λ e. with_line (length codes.old) line_number (pairs_from 0 codes.old) line.now ≡ Err e) }
    ensures scalars { AreScalarEntries codes.old → AreScalarEntries codes.new }
{
    if is_dropped(line) {
        return Ok(());
    }
    match pair_of(line) {
        Some(pair) => put_pair(codes, line_number, pair),
        None => Err(ReadError::Line(line_number)),
    }
}

/// The first line of a text, and what follows its LF.
#[tactic(auto, using(crate::proofs::Lines::by_lines))]
fn next_line(text: &[u8]) -> (&[u8], Option<&[u8]>)
    ensures lines { lines_of text.now ≡ result.0.now ∷ lines_after (option_copied result.1) }
    ensures shorter { IfSome (option_copied result.1) (λ rest. length rest < length text.now) }
{
    let (line, rest) = cut(text, b'\n');
    match rest {
        Some(_) => (without_cr(line), rest),
        None => (line, None),
    }
}

/// Stores the pairs of a text's lines in the table, up to the first bad line.
#[tactic(auto, using(crate::proofs::Lines::by_entries))]
fn read_lines(codes: &mut [Option<char>], bytes: &[u8]) -> Result<(), ReadError>
    ensures pairs { MatchResult result
        (λ _. with_lines (length codes.old) 1 (pairs_from 0 codes.old) (lines_of bytes.now) ≡ Ok
        (pairs_from 0 codes.new)) (λ e. with_lines (length codes.old) 1 (pairs_from 0 codes.old)
        (lines_of bytes.now) ≡ Err e) }
    ensures scalars { AreScalarEntries codes.old → AreScalarEntries codes.new }
{
    let mut text = bytes;
    let mut line_number = 1;
    loop {
        let (line, rest) = next_line(text);
        read_line(codes, line_number, line)?;
        match rest {
            Some(after) => text = after,
            None => return Ok(()),
        }
        line_number += 1;
    }
}

/// Stores the pairs of a file's lines in the table, up to the first bad line.
pub fn read_file(codes: &mut Vec<Option<char>>, bytes: &[u8]) -> Result<(), ReadError>
    ensures pairs { MatchResult result
        (λ _. with_lines (length codes.old.items) 1 (pairs_from 0 codes.old.items) (lines_of bytes.now) ≡ Ok
        (pairs_from 0 codes.new.items)) (λ e. with_lines (length codes.old.items) 1 (pairs_from 0 codes.old.items)
        (lines_of bytes.now) ≡ Err e) }
    ensures scalars { AreScalarEntries codes.old.items → AreScalarEntries codes.new.items }
    ensures length { length codes.new.items ≡ length codes.old.items }
{
    read_lines(codes, bytes)
}
