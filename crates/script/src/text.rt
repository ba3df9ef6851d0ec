ghost use Rattle.std.specs.Prelude.{◌≡◌, ℕ, ◌+◌, ◌<◌, ◌≤◌, length, IfSome, IfOk, vec_items, string_bytes, codes, ◌≢◌, slice_index};
ghost use Rattle.script.specs.Texts.{byte_of, digit_of, hex_bytes, hex_digit, hex_text, numeral};
ghost use Rattle.script.specs.Reads.{Reads};

use crate::error::ReadError;
use std::alloc::{AllocError, Global};

// Where the line that begins at a place ends: at the next line feed, or at the end of the script.
pub fn line_end(script: &[u8], from: usize) -> usize
    ensures within { result ≤ length script.now }
    ensures onward { from ≤ length script.now → from ≤ result }
    ensures line { (k : ℕ) → from ≤ k → k < result → slice_index script.now k ≢ 10 }
    ensures ended { result < length script.now → slice_index script.now result ≡ 10 }
{
    let Some(rest) = script.get(from..) else {
        return script.len();
    };
    match rest.iter().position(|b| *b == b'\n') {
        Some(at) => from + at,
        None => script.len(),
    }
}

// A number of digits alone, leading zeros allowed, that fits 64 bits.
pub fn number(text: &str) -> Option<u64>
    ensures { result ≡ numeral 64 text.now }
{
    // `parse` takes a sign, which no number here has. It is told by its byte: a `char` as a pattern takes longer.
    if let [b'+', ..] = text.as_bytes() {
        return None;
    }
    text.parse::<u64>().ok()
}

// The value of a hexadecimal digit of either case. The library's `to_digit`, of a char and into a u32, makes it no shorter.
fn digit(c: u8) -> Option<u8>
    ensures { (result ≡ hex_digit c) × (IfSome result (λ d. d < 16)) }
{
    match c {
        b'0'..=b'9' => Some(c - b'0'),
        b'a'..=b'f' => Some(c - b'a' + 10),
        b'A'..=b'F' => Some(c - b'A' + 10),
        _ => None,
    }
}

// The byte of two digits.
fn byte(high: u8, low: u8) -> Option<u8>
    ensures { result ≡ byte_of (hex_digit high) (hex_digit low) }
{
    Some(digit(high)? * 16 + digit(low)?)
}

// Bytes from pairs of hexadecimal digits, or from `-` for none.
pub fn bytes(heap: Global, text: &str) -> Result<Vec<u8>, ReadError>
    ensures { Reads vec_items (hex_bytes text.now) result }
{
    let mut bytes = Vec::new(heap);
    if text == "-" {
        return Ok(bytes);
    }
    for pair in text.as_bytes().chunks(2) {
        let [high, low] = pair else {
            return Err(ReadError::Unreadable);
        };
        let Some(byte) = byte(*high, *low) else {
            return Err(ReadError::Unreadable);
        };
        bytes.push(byte)?;
    }
    Ok(bytes)
}

// The lower-case hexadecimal digit of a number below 16.
fn digit_char(n: u8) -> char
    requires { n < 16 }
    ensures { result ≡ digit_of n }
{
    char::from_digit(u32::from(n), 16).unwrap()
}

// Bytes as pairs of lower-case hexadecimal digits, and none as `-`.
pub fn hex(heap: Global, bytes: &[u8]) -> Result<String, AllocError>
    ensures { IfOk result (λ s. string_bytes s ≡ hex_text bytes.now) }
{
    if bytes.is_empty() {
        return String::from_str(heap, "-");
    }
    let mut out = String::new(heap);
    // Not by `{b:02x}`: a format for each byte takes several times as long.
    for b in bytes {
        out.push(digit_char(*b / 16))?;
        out.push(digit_char(*b % 16))?;
    }
    Ok(out)
}
