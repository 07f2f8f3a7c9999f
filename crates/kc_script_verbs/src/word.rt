ghost use Rattle.std.specs.Prelude.{◌≡◌};
ghost use Rattle.kc_script_verbs.specs.Words.{structure_word, kind_of, word_of};

use crate::verb::{Verb, verb_of};

/// A kind of object.
#[derive(Clone, Copy, Debug, PartialEq, Eq)]
pub enum Kind {
    Loc,
    Stack,
    Queue,
    Table,
    Grow,
    Cache,
    Mvar,
    Promise,
    Acc,
}

/// A word that begins a line.
#[derive(Clone, Copy, Debug, PartialEq, Eq)]
pub enum Word {
    Thread,
    Atomic,
    Or,
    End,
    Declare(Kind),
    Say(Verb),
}

// The word of a line of a thread or a block.
#[tactic(auto, unfolding(crate::specs::Words::structure_word))]
fn structure_word(word: &[u8]) -> Option<Word>
    ensures { result ≡ structure_word word.now }
{
    if word == b"thread".as_slice() {
        return Some(Word::Thread);
    }
    if word == b"atomic".as_slice() {
        return Some(Word::Atomic);
    }
    if word == b"or".as_slice() {
        return Some(Word::Or);
    }
    if word == b"end".as_slice() {
        return Some(Word::End);
    }
    None
}

// The word of a declaration.
#[tactic(auto, unfolding(crate::specs::Words::kind_of))]
fn kind_of(word: &[u8]) -> Option<Kind>
    ensures { result ≡ kind_of word.now }
{
    if word == b"loc".as_slice() {
        return Some(Kind::Loc);
    }
    if word == b"stack".as_slice() {
        return Some(Kind::Stack);
    }
    if word == b"queue".as_slice() {
        return Some(Kind::Queue);
    }
    if word == b"table".as_slice() {
        return Some(Kind::Table);
    }
    if word == b"grow".as_slice() {
        return Some(Kind::Grow);
    }
    if word == b"cache".as_slice() {
        return Some(Kind::Cache);
    }
    if word == b"mvar".as_slice() {
        return Some(Kind::Mvar);
    }
    if word == b"promise".as_slice() {
        return Some(Kind::Promise);
    }
    if word == b"acc".as_slice() {
        return Some(Kind::Acc);
    }
    None
}

/// The word that begins a line.
#[tactic(auto, unfolding(crate::specs::Words::word_of))]
pub fn word_of(word: &[u8]) -> Option<Word>
    ensures { result ≡ word_of word.now }
{
    if let Some(found) = structure_word(word) {
        return Some(found);
    }
    if let Some(found) = kind_of(word) {
        return Some(Word::Declare(found));
    }
    if let Some(found) = verb_of(word) {
        return Some(Word::Say(found));
    }
    None
}
