//! Lines, words, names and numbers of a script.

ghost use Rattle.std.specs.Prelude.{◌≡◌, ◌≤◌, ◌+◌, ◌<◌, ◌∷◌, [], length, vec_len, map, Some, None, IfOk, OnOk, IfSome, IfNone, false, true};
ghost use Rattle.kc_script_lines.specs.Words.{is_blank, words, lines, is_skipped, is_letter, is_name_byte, is_name, is_digit, is_numeral, value_on, number};
ghost use Rattle.std.specs.List.{list_all};

use memchr::memchr;
use std::alloc::{AllocError, Global};

fn is_blank(b: u8) -> bool
    ensures { result ≡ is_blank b }
{
    b == b' ' || b == b'\t' || b == b'\r'
}

/// Puts the words of a line into a vector, in place of what it had.
pub fn split_into<'a>(line: &'a [u8], found: &mut Vec<&'a [u8]>) -> Result<(), AllocError>
    ensures { OnOk result (map (λ word. word.now) found.new.items ≡ words line.now) }
{
    found.clear();
    found.extend(line.split(|b| is_blank(*b)).filter(|word| !word.is_empty()))
}

/// The first line of the bytes, and what stands behind its newline, where it has one.
pub fn first_line(bytes: &[u8]) -> (&[u8], Option<&[u8]>)
    ensures more { IfSome result.1 (λ rest. lines bytes.now ≡ result.0.now ∷ lines rest.now) }
    ensures shorter { IfSome result.1 (λ rest. length rest.now < length bytes.now) }
    ensures last { IfNone result.1 (lines bytes.now ≡ result.0.now ∷ []) }
{
    match memchr(b'\n', bytes) {
        Some(end) => (&bytes[..end], Some(&bytes[end + 1..])),
        None => (bytes, None),
    }
}

/// The lines of the bytes.
pub fn lines_of(alloc: Global, bytes: &[u8]) -> Result<Vec<&[u8]>, AllocError>
    ensures lines { IfOk result (λ found. map (λ line. line.now) found.items ≡ lines bytes.now) }
    ensures count { IfOk result (λ found. vec_len found ≤ length bytes.now + 1) }
{
    bytes.split(|b| *b == b'\n').collect(alloc)
}

/// Whether a line with these words counts for nothing.
pub fn is_skipped(words: &[&[u8]]) -> bool
    ensures { result ≡ is_skipped (map (λ word. word.now) words.now) }
{
    match words {
        [] => true,
        [first, ..] => first.first().copied().unwrap_or(0) == b'#',
    }
}

fn is_letter(b: u8) -> bool
    ensures { result ≡ is_letter b }
{
    (b'a' <= b && b <= b'z') || (b'A' <= b && b <= b'Z')
}

fn is_name_byte(b: u8) -> bool
    ensures { result ≡ is_name_byte b }
{
    is_letter(b) || (b'0' <= b && b <= b'9') || b == b'_'
}

fn has_name_bytes(word: &[u8]) -> bool
    ensures { result ≡ list_all is_name_byte word.now }
{
    word.iter().all(|b| is_name_byte(*b))
}

fn is_name(word: &[u8]) -> bool
    ensures { result ≡ is_name word.now }
{
    1 <= word.len() && word.len() <= 32 && is_letter(word[0]) && has_name_bytes(word)
}

/// The word as text, if it is a name.
pub fn as_name(word: &[u8]) -> Option<&str>
    ensures name { IfSome result (λ name. (name.now ≡ word.now) × (is_name word.now ≡ true)) }
    ensures none { IfNone result (is_name word.now ≡ false) }
{
    if !is_name(word) {
        return None;
    }
    Some(unsafe { str::from_utf8_unchecked(word) })
}

fn has_digits(word: &[u8]) -> bool
    ensures { result ≡ list_all is_digit word.now }
{
    word.iter().all(|b| b'0' <= *b && *b <= b'9')
}

fn is_numeral(word: &[u8]) -> bool
    ensures { result ≡ is_numeral word.now }
{
    1 <= word.len() && word.len() <= 10 && has_digits(word)
}

fn value_of(word: &[u8]) -> u64
    requires { is_numeral word.now ≡ true }
    ensures { result ≡ value_on 0 word.now }
{
    let mut n = 0;
    for b in word {
        n = 10 * n + (*b - b'0') as u64;
    }
    n
}

/// The number that the word spells, if it is no greater than the limit.
#[tactic(auto, unfolding(crate::specs::Words::number))]
pub fn number_of(word: &[u8], limit: u32) -> Option<u32>
    ensures value { result ≡ number limit word.now }
    ensures within { IfSome result (λ n. n ≤ limit) }
{
    if !is_numeral(word) {
        return None;
    }
    let n = value_of(word);
    if n <= limit as u64 {
        Some(n as u32)
    } else {
        None
    }
}
