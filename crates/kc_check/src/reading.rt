//! What single lines of a text say.

ghost use Rattle.std.specs.Prelude.{◌≡◌, ◌++◌, MatchOption, codes, decimal, ◌<◌, ◌≤◌, ◌^◌, ◌↔◌, All, IfNone, IfSome, IsTrue, length, take, slice_index};
ghost use Rattle.kc_history.specs.Text.{mark_text};
ghost use Rattle.kc_script_bundle.specs.declared.bundle.TheConstants.{MOST_COMMANDS, MOST_THREADS};
ghost use Rattle.kc_check.specs.Forms.{IsHeld, IsReply, NamesPlace};
ghost use Rattle.kc_check.specs.Laid.{ByteIsMissing};
ghost use Rattle.kc_check.specs.Parts.{IsThreadPlace, mark_at, place_text};
ghost use Rattle.kc_check.specs.Reads.{IsNoFront, IsPlainNumber, NamesNone, SayItems, SaysAnswer, SaysItem, SaysSpaced, SaysWords};
ghost use Rattle.kc_check.specs.Replays.{commands_of};

use crate::lines::first_of;
use itoa::Buffer;
use kc_history::Place;
use kc_script_bundle::Command;
use kc_script_lines::number_of;

// What stands behind a front of the bytes.
fn behind<'a>(bytes: &'a [u8], front: &[u8]) -> Option<&'a [u8]>
    ensures { MatchOption result (IsNoFront front.now bytes.now) (λ rest. bytes.now ≡ front.now ++ rest.now) }
{
    bytes.strip_prefix(front)
}

// What stands behind a number at the front.
fn behind_number<'a>(bytes: &'a [u8], number: u32) -> Option<&'a [u8]>
    ensures { MatchOption result (IsNoFront (decimal number) bytes.now) (λ rest. bytes.now ≡ decimal number ++ rest.now) }
{
    let mut buffer = Buffer::new();
    behind(bytes, buffer.format(number).as_bytes())
}

// What stands behind a number and these bytes.
fn behind_both<'a>(bytes: &'a [u8], number: u32, then: &[u8]) -> Option<&'a [u8]>
    ensures { MatchOption result (IsNoFront (decimal number ++ then.now) bytes.now) (λ rest. bytes.now ≡ (decimal number ++ then.now) ++ rest.now) }
{
    match behind_number(bytes, number) {
        Some(rest) => behind(rest, then),
        None => None,
    }
}

/// Whether the line is the reply of a thread's command of a number.
pub(crate) fn is_reply_line(line: &[u8], thread: u32, number: u32) -> bool
    ensures { IsTrue result ↔ IsReply thread number line.now }
{
    let Some(rest) = behind_both(line, thread, b".".as_slice()) else {
        return false;
    };
    let Some(rest) = behind_both(rest, number, b" ".as_slice()) else {
        return false;
    };
    match rest.strip_suffix(b"\n".as_slice()) {
        Some(text) => is_answer(text),
        None => false,
    }
}

// Whether the word is a number that fits, without leading zeros.
fn is_plain_number(word: &[u8]) -> bool
    ensures { IsTrue result ↔ IsPlainNumber word.now }
{
    match number_of(word, u32::MAX) {
        Some(_) => word.len() == 1 || word[0] != b'0',
        None => false,
    }
}

// Whether the word is what one item of a reply says.
fn is_item(word: &[u8]) -> bool
    ensures { IsTrue result ↔ SaysItem word.now }
{
    let ok = word == b"ok".as_slice();
    let yes = word == b"true".as_slice();
    let no = word == b"false".as_slice();
    let none = word == b"none".as_slice();
    let full = word == b"full".as_slice();
    ok | yes | no | none | full | is_plain_number(word)
}

// Whether the text is what 1 to so many items say.
fn are_items(text: &[u8], most: u32) -> bool
    ensures { IsTrue result ↔ SayItems most text.now }
{
    match first_of(text, b' ') {
        None => (1 <= most) & is_item(text),
        Some(end) => {
            if most < 2 {
                return false;
            }
            let first = is_item(&text[..end]);
            let others = are_items(&text[end + 1..], most - 1);
            first & others
        }
    }
}

// Whether the text is what an answer says.
fn is_answer(text: &[u8]) -> bool
    ensures { IsTrue result ↔ SaysAnswer text.now }
{
    let stranded = text == b"stranded".as_slice();
    let cancelled = text == b"cancelled".as_slice();
    let large = text == b"toolarge".as_slice();
    let none = text == b"-".as_slice();
    stranded | cancelled | large | none | are_items(text, 16)
}

// The number that the word is, without leading zeros.
fn plain_number(word: &[u8]) -> Option<u32>
    ensures { MatchOption result (IsPlainNumber word.now → ⊥) (λ n. (n < 2 ^ 32) × (word.now ≡ decimal n)) }
{
    if !is_plain_number(word) {
        return None;
    }
    number_of(word, u32::MAX)
}

// The index of the record that stands behind the number and dot of a thread with so many commands.
fn index_of(rest: &[u8], commands: u32) -> Option<u32>
    requires { commands ≤ MOST_COMMANDS }
    ensures some { IfSome result (λ index. (index ≤ commands) × (rest.now ≡ mark_text (mark_at commands index) ++ codes "\n")) }
    ensures none { IfNone result (NamesNone commands rest.now) }
{
    let Some(word) = rest.strip_suffix(b"\n".as_slice()) else {
        return None;
    };
    if word == b"end".as_slice() {
        return Some(commands);
    }
    match plain_number(word) {
        Some(number) => {
            if number == 0 || commands < number {
                return None;
            }
            Some(number - 1)
        }
        None => None,
    }
}

/// The place that the line names.
pub(crate) fn place_of(line: &[u8], threads: &[Vec<Command>]) -> Option<Place>
    requires few { length threads.now ≤ MOST_THREADS }
    requires short { All (λ v. length v.items ≤ MOST_COMMANDS) threads.now }
    ensures some { IfSome result (λ p. IsThreadPlace (commands_of threads.now) p) }
    ensures spelled { IfSome result (λ p. line.now ≡ place_text (commands_of threads.now) p) }
    ensures none { IfNone result (NamesPlace (commands_of threads.now) line.now → ⊥) }
{
    let Some(dot) = first_of(line, b'.') else {
        return None;
    };
    let Some(number) = plain_number(&line[..dot]) else {
        return None;
    };
    if number == 0 || threads.len() < number as usize {
        return None;
    }
    let thread = number - 1;
    let commands = threads[thread as usize].len() as u32;
    match index_of(&line[dot + 1..], commands) {
        Some(index) => Some(Place { thread, index }),
        None => None,
    }
}

// Whether the text is a word, and words behind it with a space before each.
fn are_spaced(text: &[u8]) -> bool
    ensures { IsTrue result ↔ SaysSpaced text.now }
{
    let mut begins = true;
    for i in 0..text.len() {
        let newline = text[i] == b'\n';
        let space = text[i] == b' ';
        if newline | (begins & space) {
            return false;
        }
        begins = space;
    }
    !begins
}

// Whether the text is words, with a space before each.
fn are_words(text: &[u8]) -> bool
    ensures { IsTrue result ↔ SaysWords text.now }
{
    match text.strip_prefix(b" ".as_slice()) {
        Some(rest) => are_spaced(rest),
        None => text.len() == 0,
    }
}

/// Whether the line is the name and words behind it.
pub(crate) fn is_held(line: &[u8], name: &[u8]) -> bool
    ensures { IsTrue result ↔ IsHeld name.now line.now }
{
    let Some(rest) = behind(line, name) else {
        return false;
    };
    match rest.strip_suffix(b"\n".as_slice()) {
        Some(words) => are_words(words),
        None => false,
    }
}
