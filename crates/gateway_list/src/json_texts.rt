//! Texts as JSON has them.

ghost use Rattle.std.specs.Prelude.{◌≡◌, ◌++◌, IfOk, OnOk, option_map, string_bytes};
ghost use Rattle.std.specs.Str.{chars};
ghost use Rattle.gateway_list.specs.Json.{by_number, escape, hex_digit, json_char, json_chars, json_text, text_or_null};

use gateway_texts::is_hidden;
use std::alloc::{AllocError, Global};

/// A text, or null.
pub(crate) fn text_or_null(alloc: Global, text: Option<String>) -> Result<String, AllocError>
    ensures { IfOk result (λ json. string_bytes json ≡ text_or_null (option_map string_bytes text)) }
{
    match text {
        Some(text) => json_text(alloc, text.as_str()),
        None => String::from_str(alloc, "null"),
    }
}

/// A text in quotes. A character that shows something else than itself is by its number.
pub(crate) fn json_text(alloc: Global, text: &str) -> Result<String, AllocError>
    ensures { IfOk result (λ json. string_bytes json ≡ json_text text.now) }
{
    let mut chars = String::new(alloc);
    push_chars(&mut chars, text)?;
    format!(in alloc; "\"{chars}\"")
}

// Adds the characters of a text.
fn push_chars(json: &mut String, text: &str) -> Result<(), AllocError>
    ensures { OnOk result (string_bytes json.new ≡ string_bytes json.old ++ json_chars (chars text.now)) }
{
    for c in text.chars() {
        push_char(json, c)?;
    }
    Ok(())
}

// Adds a character.
fn push_char(json: &mut String, c: char) -> Result<(), AllocError>
    ensures { OnOk result (string_bytes json.new ≡ string_bytes json.old ++ json_char c) }
{
    if is_hidden(c as u32) {
        return push_number(json, c as u32);
    }
    let escape = escape(c);
    write!(json, "{escape}{c}")
}

// What is before a character.
fn escape(c: char) -> &'static str
    ensures { result.now ≡ escape c }
{
    if c == '"' || c == '\\' { "\\" } else { "" }
}

// Adds a character by its number.
fn push_number(json: &mut String, number: u32) -> Result<(), AllocError>
    ensures { OnOk result (string_bytes json.new ≡ string_bytes json.old ++ by_number number) }
{
    let first = hex_digit(number / 4096);
    let second = hex_digit(number / 256);
    let third = hex_digit(number / 16);
    let fourth = hex_digit(number);
    write!(json, "\\u{first}{second}{third}{fourth}")
}

// The last digit of a number to the base 16.
#[tactic(auto, unfolding(crate::specs::Json::hex_digit))]
fn hex_digit(number: u32) -> char
    ensures { result ≡ hex_digit number }
{
    let digit = (number % 16) as u8;
    if digit < 10 {
        char::from(b'0' + digit)
    } else {
        char::from(b'a' - 10 + digit)
    }
}
