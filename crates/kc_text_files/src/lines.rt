//! The lines of a file, and what has to hold of each.

ghost use Rattle.std.specs.Prelude.{◌≡◌, ◌≤◌, ◌+◌, ◌<◌, length, map, Some, None, IfErr, IfOk};
ghost use Rattle.kc_script_lines.specs.Tests.{first_failing};
ghost use Rattle.kc_script_lines.specs.Words.{value_on};
ghost use Rattle.kc_text_files.specs.Files.{pick_tests, text_tests, whole};

use crate::MOST_PICKS;
use kc_script_lines::{Limit, Why, positive_to, wants};
use kc_text::{MOST_TEXTS, Text};

/// Without the empty line behind a last newline.
pub(crate) fn whole<'a, 'b>(rows: &'a [&'b [u8]]) -> &'a [&'b [u8]]
    ensures { map (λ row. row.now) result.now ≡ whole (map (λ row. row.now) rows.now) }
{
    let Some((last, before)) = rows.split_last() else {
        return rows;
    };
    if last.is_empty() {
        return before;
    }
    rows
}

/// The text of a line; lines are counted from 0.
pub(crate) fn text_in(index: usize, row: &[u8]) -> Result<Text, Why>
    ensures text { IfOk result (λ text. text ≡ row.now) }
    ensures right { IfOk result (λ text. first_failing (text_tests (index + 1) row.now) ≡ None) }
    ensures wrong { IfErr result (λ w. first_failing (text_tests (index + 1) row.now) ≡ Some w) }
{
    wants(index < MOST_TEXTS as usize, Why::TooMany(Limit::Texts))?;
    match Text::new(row) {
        Some(text) => Ok(text),
        None => Err(Why::TooMany(Limit::TextBytes)),
    }
}

/// The number on a line, from 1 to that of the texts; lines are counted from 0.
pub(crate) fn pick_in(index: usize, row: &[u8], texts: u32) -> Result<u32, Why>
    ensures pick { IfOk result (λ pick. pick ≡ value_on 0 row.now) }
    ensures some { IfOk result (λ pick. 1 ≤ pick) }
    ensures most { IfOk result (λ pick. pick ≤ texts) }
    ensures right { IfOk result (λ pick. first_failing (pick_tests texts (index + 1) row.now) ≡ None) }
    ensures wrong { IfErr result (λ w. first_failing (pick_tests texts (index + 1) row.now) ≡ Some w) }
{
    wants(index < MOST_PICKS as usize, Why::TooMany(Limit::Picks))?;
    positive_to(texts, row)
}
