//! The tests of a line that look at its words alone.

ghost use Rattle.std.specs.Prelude.{◌≡◌, ◌≤◌, ◌<◌, Err, map, length, IfOk, OnOk};
ghost use Rattle.kc_script_lines.specs.Tests.{wants, counted, word_at, number_to, positive_to};

use crate::fault::Why;
use crate::words::number_of;

/// Refuses the line for this reason, unless the test holds.
pub fn wants(test: bool, why: Why) -> Result<(), Why>
    ensures { result ≡ wants test why }
{
    if test { Ok(()) } else { Err(why) }
}

/// Refuses a line with fewer or more words behind its first than this many.
pub fn counted(count: usize, args: &[&[u8]]) -> Result<(), Why>
    ensures is { result ≡ counted count (map (λ word. word.now) args.now) }
    ensures count { OnOk result (length args.now ≡ count) }
{
    if args.len() < count {
        return Err(Why::MissingWord);
    }
    if args.len() > count {
        return Err(Why::ExtraWord);
    }
    Ok(())
}

/// The word at an index, from 0.
pub fn word_at<'a>(args: &[&'a [u8]], i: usize) -> &'a [u8]
    requires { i < length args.now }
    ensures { result.now ≡ word_at (map (λ word. word.now) args.now) i }
{
    args[i]
}

/// The number that the word spells, up to this one.
#[tactic(auto, unfolding(crate::specs::Tests::number_to))]
pub fn number_to(most: u32, word: &[u8]) -> Result<u32, Why>
    ensures gives { result ≡ number_to most word.now }
    ensures most { IfOk result (λ n. n ≤ most) }
{
    match number_of(word, most) {
        Some(n) => Ok(n),
        None => Err(Why::BadNumber),
    }
}

/// The number that the word spells, from 1 up to this one.
#[tactic(auto, unfolding(crate::specs::Tests::positive_to))]
pub fn positive_to(most: u32, word: &[u8]) -> Result<u32, Why>
    ensures gives { result ≡ positive_to most word.now }
    ensures some { IfOk result (λ n. 1 ≤ n) }
    ensures most { IfOk result (λ n. n ≤ most) }
{
    let n = number_to(most, word)?;
    wants(n >= 1, Why::BadNumber)?;
    Ok(n)
}
