//! Reading the two files.

ghost use Rattle.std.specs.Prelude.{◌≡◌, ◌≤◌, length, map, All, None, IfErr, IfOk};
ghost use Rattle.kc_text_files.specs.Files.{IsRefused, file_lines, first_faulty_line, picks_fault, picks_in, pick_tests, text_tests, texts_fault};
ghost use Rattle.kc_script_lines.specs.Words.{value_on};

use crate::MOST_PICKS;
use crate::lines::{pick_in, text_in, whole};
use kc_script_lines::{ScriptError, lines_of, word_at};
use kc_text::{MOST_TEXTS, Text};
use std::alloc::Global;

/// The texts of a file, one a line. Lines end at a newline alone, and the last one may lack it.
///
/// # Errors
///
/// - Fault: exactly where the file has a fault; it is the first one, a line above 4,096 before a text above 64 bytes
/// - NoMemory
pub fn texts_of(alloc: Global, bytes: &[u8]) -> Result<Vec<Text>, ScriptError>
    ensures right { IfOk result (λ texts. texts_fault bytes.now ≡ None) }
    ensures texts { IfOk result (λ texts. texts.items ≡ file_lines bytes.now) }
    ensures few { IfOk result (λ texts. length texts.items ≤ MOST_TEXTS) }
    ensures wrong { IfErr result (λ e. IsRefused (texts_fault bytes.now) e) }
{
    let rows = lines_of(alloc, bytes)?;
    read_texts(alloc, whole(&rows))
}

/// The picks of a file, one a line: each is the number of one of so many texts. Lines end at a newline alone, and the last one
/// may lack it.
///
/// # Errors
///
/// - Fault: exactly where the file has a fault; it is the first one, a line above 65,536 before one that is no such number
/// - NoMemory
pub fn picks_of(alloc: Global, texts: u32, bytes: &[u8]) -> Result<Vec<u32>, ScriptError>
    ensures right { IfOk result (λ picks. picks_fault texts bytes.now ≡ None) }
    ensures picks { IfOk result (λ picks. picks.items ≡ picks_in bytes.now) }
    ensures few { IfOk result (λ picks. length picks.items ≤ MOST_PICKS) }
    ensures within { IfOk result (λ picks. All (λ k. (1 ≤ k) × (k ≤ texts)) picks.items) }
    ensures wrong { IfErr result (λ e. IsRefused (picks_fault texts bytes.now) e) }
{
    let rows = lines_of(alloc, bytes)?;
    read_picks(alloc, texts, whole(&rows))
}

fn read_texts(alloc: Global, rows: &[&[u8]]) -> Result<Vec<Text>, ScriptError>
    ensures right { IfOk result (λ texts. first_faulty_line text_tests 1 (map (λ row. row.now) rows.now) ≡ None) }
    ensures texts { IfOk result (λ texts. texts.items ≡ map (λ row. row.now) rows.now) }
    ensures few { IfOk result (λ texts. length texts.items ≤ MOST_TEXTS) }
    ensures wrong { IfErr result (λ e. IsRefused (first_faulty_line text_tests 1 (map (λ row. row.now) rows.now)) e) }
{
    let mut texts = Vec::with_capacity(alloc, rows.len().min(MOST_TEXTS as usize))?;
    for i in 0..rows.len() {
        match text_in(i, word_at(rows, i)) {
            Ok(text) => texts.push_reserved(text),
            Err(why) => return Err(ScriptError::Fault {
                line: i as u32 + 1,
                why,
            }),
        }
    }
    Ok(texts)
}

fn read_picks(alloc: Global, texts: u32, rows: &[&[u8]]) -> Result<Vec<u32>, ScriptError>
    ensures right { IfOk result (λ picks. first_faulty_line (pick_tests texts) 1 (map (λ row. row.now) rows.now) ≡ None) }
    ensures picks { IfOk result (λ picks. picks.items ≡ map (value_on 0) (map (λ row. row.now) rows.now)) }
    ensures few { IfOk result (λ picks. length picks.items ≤ MOST_PICKS) }
    ensures within { IfOk result (λ picks. All (λ k. (1 ≤ k) × (k ≤ texts)) picks.items) }
    ensures wrong { IfErr result (λ e. IsRefused (first_faulty_line (pick_tests texts) 1 (map (λ row. row.now) rows.now)) e) }
{
    let mut picks = Vec::with_capacity(alloc, rows.len().min(MOST_PICKS as usize))?;
    for i in 0..rows.len() {
        match pick_in(i, word_at(rows, i), texts) {
            Ok(pick) => picks.push_reserved(pick),
            Err(why) => return Err(ScriptError::Fault {
                line: i as u32 + 1,
                why,
            }),
        }
    }
    Ok(picks)
}
