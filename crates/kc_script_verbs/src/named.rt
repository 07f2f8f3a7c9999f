//! Numbers, and the words for functions and relations.

ghost use Rattle.std.specs.Prelude.{◌≡◌, ◌<◌, map, length};
ghost use Rattle.kc_script_verbs.specs.Saying.{value_said_at, fun_named, fun_of, fun_at, rel_named};

use kc_loc::{Fun, Rel};
use kc_script_lines::{Why, number_to, word_at};

/// A word for a function.
#[derive(Clone, Copy, Debug, PartialEq, Eq)]
pub enum FunWord {
    Add,
    Max,
    Min,
    And,
    Or,
    Xor,
}

/// The number of 32 bits at the index.
#[tactic(auto, unfolding(crate::specs::Saying::value_said_at))]
pub fn value_at(args: &[&[u8]], i: usize) -> Result<u32, Why>
    requires { i < length args.now }
    ensures { result ≡ value_said_at (map (λ word. word.now) args.now) i }
{
    number_to(u32::MAX, word_at(args, i))
}

// The function that the word names.
#[tactic(auto, unfolding(crate::specs::Saying::fun_named))]
fn fun_named(word: &[u8]) -> Result<FunWord, Why>
    ensures { result ≡ fun_named word.now }
{
    if word == b"add".as_slice() {
        return Ok(FunWord::Add);
    }
    if word == b"max".as_slice() {
        return Ok(FunWord::Max);
    }
    if word == b"min".as_slice() {
        return Ok(FunWord::Min);
    }
    if word == b"and".as_slice() {
        return Ok(FunWord::And);
    }
    if word == b"or".as_slice() {
        return Ok(FunWord::Or);
    }
    if word == b"xor".as_slice() {
        return Ok(FunWord::Xor);
    }
    Err(Why::UnknownWord)
}

// The function with its number.
fn fun_of(fun: FunWord, n: u32) -> Fun
    ensures { result ≡ fun_of fun n }
{
    match fun {
        FunWord::Add => Fun::Add(n),
        FunWord::Max => Fun::Max(n),
        FunWord::Min => Fun::Min(n),
        FunWord::And => Fun::And(n),
        FunWord::Or => Fun::Or(n),
        FunWord::Xor => Fun::Xor(n),
    }
}

/// The relation that the word names.
#[tactic(auto, unfolding(crate::specs::Saying::rel_named))]
pub fn rel_named(word: &[u8]) -> Result<Rel, Why>
    ensures { result ≡ rel_named word.now }
{
    if word == b"eq".as_slice() {
        return Ok(Rel::Eq);
    }
    if word == b"ne".as_slice() {
        return Ok(Rel::Ne);
    }
    if word == b"lt".as_slice() {
        return Ok(Rel::Lt);
    }
    if word == b"le".as_slice() {
        return Ok(Rel::Le);
    }
    if word == b"gt".as_slice() {
        return Ok(Rel::Gt);
    }
    if word == b"ge".as_slice() {
        return Ok(Rel::Ge);
    }
    Err(Why::UnknownWord)
}

/// The function and its number that stand behind the name.
#[tactic(auto, unfolding(crate::specs::Saying::fun_at))]
pub fn fun_at(args: &[&[u8]]) -> Result<Fun, Why>
    requires { 2 < length args.now }
    ensures { result ≡ fun_at (map (λ word. word.now) args.now) }
{
    let fun = fun_named(word_at(args, 1))?;
    let n = value_at(args, 2)?;
    Ok(fun_of(fun, n))
}
