// Reads the escapes of a string.

ghost use Rattle.std.specs.Prelude.{◌≡◌, ◌≢◌, ℕ, ◌+◌, ◌*◌, ◌-◌, ◌^◌, ◌<◌, ◌≤◌, ◌∷◌, [], drop, encode_utf8, length, string_bytes, slice_index, unwrap_or, IfOk, IfNone, IfSome};
ghost use Rattle.std.specs.Option.{option_map};
ghost use Rattle.json_text.specs.StringText as StringText;
ghost use Rattle.json_text.specs.Unescaping.{HasMarks, IsLowAt, LacksLow, Passes, ReadsAs, unit_at};

use std::alloc::{AllocError, Global};

/// The character that an escape stands for, and where the escape ends.
#[derive(Clone, Copy)]
struct Escape {
    character: char,
    end: usize,
}

/// The index of the first backslash from there on, or of the end.
fn plain_end(raw: &[u8], from: usize) -> usize
    requires { from ≤ length raw.now }
    ensures after { from ≤ result }
    ensures within { result ≤ length raw.now }
    ensures plain { (k : ℕ) → from ≤ k → k < result → slice_index raw.now k ≢ 92 }
    ensures backslash { result < length raw.now → slice_index raw.now result ≡ 92 }
{
    for at in from..raw.len() {
        if raw[at] == b'\\' {
            return at;
        }
    }
    raw.len()
}

fn hex_value(digit: u8) -> u32
    ensures value { result ≡ StringText.hex_value digit }
    ensures small { result < 256 }
{
    if digit >= b'a' {
        return u32::from(digit) - 87;
    }
    if digit >= b'A' {
        return u32::from(digit) - 55;
    }
    u32::from(digit.saturating_sub(b'0'))
}

/// The unit of four hexadecimal digits.
fn unit(raw: &[u8], at: usize) -> u32
    requires { at + 4 ≤ length raw.now }
    ensures { result ≡ unit_at raw.now at }
{
    hex_value(raw[at]) * 4096
        + hex_value(raw[at + 1]) * 256
        + hex_value(raw[at + 2]) * 16
        + hex_value(raw[at + 3])
}

/// The first half of a pair.
fn is_high(unit: u32) -> bool
    ensures { result ≡ StringText.is_high unit }
{
    55296 <= unit && unit < 56320
}

/// The second half of a pair.
fn is_low(unit: u32) -> bool
    ensures { result ≡ StringText.is_low unit }
{
    56320 <= unit && unit < 57344
}

/// The character of a unit that stands alone: half a pair is read as U+FFFD.
fn alone(unit: u32) -> char
    requires { unit < 2 ^ 16 }
    ensures { result ≡ StringText.alone unit }
{
    char::from_u32(unit).unwrap_or(char::REPLACEMENT_CHARACTER)
}

fn paired(high: u32, low: u32) -> char
    requires high { 55296 ≤ high }
    requires high_end { high < 56320 }
    requires low { 56320 ≤ low }
    requires low_end { low < 57344 }
    ensures { result ≡ StringText.paired high low }
{
    let code = 65536 + (high - 55296) * 1024 + (low - 56320);
    char::from_u32(code).unwrap_or(char::REPLACEMENT_CHARACTER)
}

/// What a letter stands for after a backslash.
fn escaped_byte(letter: u8) -> u8
    ensures { result ≡ StringText.escaped_byte letter }
{
    if letter == b'b' {
        return 8;
    }
    if letter == b'f' {
        return 12;
    }
    if letter == b'n' {
        return b'\n';
    }
    if letter == b'r' {
        return b'\r';
    }
    if letter == b't' {
        return b'\t';
    }
    letter
}

/// The second half of a pair, where one stands there as an escape.
fn low_at(raw: &[u8], at: usize) -> Option<u32>
    requires within { at ≤ length raw.now }
    requires marks { HasMarks (drop at raw.now) }
    ensures some { IfSome result (IsLowAt raw.now at) }
    ensures none { IfNone result (LacksLow raw.now at) }
{
    if at < raw.len() && raw[at] == b'\\' && raw[at + 1] == b'u' {
        let low = unit(raw, at + 2);
        if is_low(low) {
            return Some(low);
        }
    }
    None
}

/// The escape that begins with the backslash there.
fn escape_at(raw: &[u8], at: usize) -> Escape
    requires within { at < length raw.now }
    requires marks { HasMarks (drop at raw.now) }
    requires backslash { slice_index raw.now at ≡ 92 }
    ensures passes { Passes raw.now at result.end (encode_utf8 result.character) }
    ensures after { at < result.end }
    ensures end { result.end ≤ length raw.now }
    ensures ascii { slice_index raw.now (result.end - 1) < 128 }
{
    let letter = raw[at + 1];
    if letter != b'u' {
        return Escape {
            character: char::from(escaped_byte(letter)),
            end: at + 2,
        };
    }
    let first = unit(raw, at + 2);
    if !is_high(first) {
        return Escape {
            character: alone(first),
            end: at + 6,
        };
    }
    match low_at(raw, at + 6) {
        Some(low) => Escape {
            character: paired(first, low),
            end: at + 12,
        },
        None => Escape {
            character: alone(first),
            end: at + 6,
        },
    }
}

/// The text of a string whose bytes stand between its quotation marks.
pub fn unescape(alloc: Global, raw: &str) -> Result<String, AllocError>
    requires { HasMarks raw.now }
    ensures { IfOk result (λ text. ReadsAs raw.now (string_bytes text)) }
{
    let bytes = raw.as_bytes();
    let mut text = String::new(alloc);
    let mut from = 0;
    while from < bytes.len() {
        let to = plain_end(bytes, from);
        text.push_str(&raw[from..to])?;
        from = to;
        if to < bytes.len() {
            let escape = escape_at(bytes, to);
            text.push(escape.character)?;
            from = escape.end;
        }
    }
    Ok(text)
}

/// The text of a string where an escape stands in it: without one its bytes are the text.
pub fn read(alloc: Global, raw: &str) -> Result<Option<String>, AllocError>
    requires { HasMarks raw.now }
    ensures { IfOk result
        (λ text. ReadsAs raw.now (unwrap_or (option_map string_bytes text) raw.now)) }
{
    if plain_end(raw.as_bytes(), 0) == raw.len() {
        return Ok(None);
    }
    Ok(Some(unescape(alloc, raw)?))
}
