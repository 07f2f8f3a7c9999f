//! What the words of the command line ask for.

ghost use Rattle.std.specs.Prelude.{◌≡◌, ◌≤◌, ◌<◌, ◌+◌, ◌&&◌, ◌==◌, true, length, drop, map, codes};
ghost use Rattle.std.specs.List.{list_all};
ghost use Rattle.std.specs.String.{string_bytes};
ghost use Rattle.kc_top.specs.Words.{are_names, command_of, is_file_name, is_on_two, is_word, option_words, origin_of, store_named, storm_at};

use kc_script_bundle::MOST_THREADS;
use kc_script_lines::number_of;

/// What the program is asked to do.
#[derive(Clone, Copy, Debug, PartialEq, Eq)]
pub enum Command {
    /// To run a script, and to write what comes of it.
    Run(Origin),
    /// To say whether a text is that of a run of a bundle: the third word names the file of the bundle, the fourth that
    /// of the text.
    Check,
    /// To write the picked ones of some texts: the third word names the file of the texts, the fourth that of the picks.
    Texts,
}

/// Where a script to be run comes from.
#[derive(Clone, Copy, Debug, PartialEq, Eq)]
pub enum Origin {
    /// The source spells it.
    Source,
    /// Files spell it: the word at this place names its setup, and each word behind it a file of a thread's commands.
    Files { setup: usize },
    /// It is the storm of this number.
    Storm { number: u32 },
}

/// The store that a run's threads share.
#[derive(Clone, Copy, Debug, PartialEq, Eq)]
pub enum StoreName {
    /// The store behind one lock.
    Lock,
    /// The lock-free store.
    Kcas,
}

/// What the words ask for, the program's name first. Behind it stands `run`, or `files` and the names of a setup and of 1
/// to 16 files, or `storm` and a number, or `check` and the names of a bundle and of a text, or `texts` and the names of
/// texts and of picks. Directly behind the name of a command that runs a script may stand one store option, as
/// `--store V` or `--store=V`, where V is `lock` or `kcas`.
/// No other word begins with `-`, and none is empty.
pub fn command_of(words: &[String]) -> Option<Command>
    ensures { result ≡ command_of (map string_bytes words.now) }
{
    if is_on_two(words, "check") {
        return Some(Command::Check);
    }
    if is_on_two(words, "texts") {
        return Some(Command::Texts);
    }
    let origin = origin_of(words)?;
    Some(Command::Run(origin))
}

// From where the words ask a script to be run.
fn origin_of(words: &[String]) -> Option<Origin>
    ensures { result ≡ origin_of (map string_bytes words.now) }
{
    let setup = 2 + option_words(words);
    if is_run(words, setup) {
        Some(Origin::Source)
    } else if is_files(words, setup) {
        Some(Origin::Files { setup })
    } else {
        storm_at(words, setup)
    }
}

/// The store that the words' store option names; the lock-free one where they have none.
pub fn store_of(words: &[String]) -> StoreName
    ensures { result ≡ store_named (map string_bytes words.now) }
{
    if is_word(words, 2, "--store=lock")
        || is_word(words, 2, "--store") && is_word(words, 3, "lock")
    {
        StoreName::Lock
    } else {
        StoreName::Kcas
    }
}

// Whether they are the command of this name, and behind it stand two names.
fn is_on_two(words: &[String], name: &str) -> bool
    ensures { result ≡ is_on_two (map string_bytes words.now) name.now }
{
    is_word(words, 1, name) && words.len() == 4 && all_are_names(&words[2..])
}

// Whether they are `run`, and nothing stands behind its option.
fn is_run(words: &[String], end: usize) -> bool
    ensures { result ≡ (is_word (map string_bytes words.now) 1 (codes "run") && (length words.now == end)) }
{
    is_word(words, 1, "run") && words.len() == end
}

// Whether they are `files`, and behind its option stand names.
fn is_files(words: &[String], setup: usize) -> bool
    requires { 2 ≤ length words.now → setup ≤ length words.now }
    ensures { result ≡ (is_word (map string_bytes words.now) 1 (codes "files") && are_names (drop setup (map string_bytes words.now))) }
{
    is_word(words, 1, "files") && are_names(&words[setup..])
}

// The storm of the number that the word at a place spells, where it is the last word.
fn storm_at(words: &[String], place: usize) -> Option<Origin>
    requires { place ≤ 4 }
    ensures { result ≡ storm_at (map string_bytes words.now) place }
{
    if !is_word(words, 1, "storm") || words.len() != place + 1 {
        return None;
    }
    let number = number_of(words[place].as_str().as_bytes(), u32::MAX)?;
    Some(Origin::Storm { number })
}

// Whether the word at a place is this.
fn is_word(words: &[String], place: usize, text: &str) -> bool
    ensures is { result ≡ is_word (map string_bytes words.now) place text.now }
    ensures inside { result ≡ true → place < length words.now }
{
    place < words.len() && words[place].as_str() == text
}

// How many words behind the command's name are a store option.
fn option_words(words: &[String]) -> usize
    ensures count { result ≡ option_words (map string_bytes words.now) }
    ensures within { 2 ≤ length words.now → 2 + result ≤ length words.now }
    ensures few { result ≤ 2 }
{
    if is_word(words, 2, "--store=lock") || is_word(words, 2, "--store=kcas") {
        return 1;
    }
    if is_word(words, 2, "--store") && (is_word(words, 3, "lock") || is_word(words, 3, "kcas")) {
        return 2;
    }
    0
}

// Whether they are the names of a setup and of files.
fn are_names(words: &[String]) -> bool
    ensures { result ≡ are_names (map string_bytes words.now) }
{
    2 <= words.len() && words.len() <= 1 + MOST_THREADS && all_are_names(words)
}

fn all_are_names(words: &[String]) -> bool
    ensures { result ≡ list_all is_file_name (map string_bytes words.now) }
{
    for word in words {
        if !is_name(word.as_str()) {
            return false;
        }
    }
    true
}

fn is_name(word: &str) -> bool
    ensures { result ≡ is_file_name word.now }
{
    matches!(word.as_bytes().first(), Some(byte) if *byte != b'-')
}
