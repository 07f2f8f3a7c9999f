//! The lines of blocks.

ghost use Rattle.std.specs.Prelude.{◌≡◌, ◌≤◌, ◌∷◌, [], reverse, map, IfOk, OnOk, IfSome, IfNone, Ok};
ghost use Rattle.kc_term.specs.Tree.{op, seq, first, trees};
ghost use Rattle.kc_script_lines.specs.Gives.{GivesAsGrammar, ReadsAsGrammar, Reaches};
ghost use Rattle.kc_script.specs.Blocks.{good, sequence, either, nest, block_of, in_block, counted_up, with_op, with_block, op_line, level_here, atomic_line, or_at, end_at};
ghost use Rattle.kc_script.specs.Reading.{lists, open_of, place_of_thread, nowhere};

use crate::reader::{Open, Thread};
use kc_script_bundle::{Command, MOST_COMMANDS, Op};
use kc_script_lines::{Complaint, Limit, Why, counted, wants};
use kc_term::{MOST_OPERATIONS, Term, TermError};
use std::alloc::{AllocError, Global};
use std::mem;

/// The highest level of a block.
const MOST_LEVEL: u32 = 8;

/// No line of the thread was read.
pub fn begin_thread(alloc: Global) -> Thread
    ensures { place_of_thread result ≡ nowhere }
{
    Thread {
        here: Vec::new(alloc),
        open_blocks: Vec::new(alloc),
        count: 0,
    }
}

#[tactic(auto, unfolding(crate::specs::Blocks::sequence))]
fn sequence(parts: Vec<Term<Op>>) -> Result<Term<Op>, Why>
    ensures { ReadsAsGrammar (λ t. t) result (sequence parts.items) }
{
    match Term::seq(parts) {
        Ok(term) => Ok(term),
        Err(_) => Err(Why::TooMany(Limit::Block)),
    }
}

#[tactic(auto, unfolding(crate::specs::Blocks::either))]
fn either(alloc: Global, a: Term<Op>, b: Term<Op>) -> Result<Term<Op>, Complaint>
    ensures { GivesAsGrammar (λ t. t) result (either a b) }
{
    match Term::first(alloc, a, b) {
        Ok(term) => Ok(term),
        Err(TermError::TooDeep { .. }) => Err(Complaint::Here(Why::TooMany(Limit::Depth))),
        Err(TermError::NoMemory { .. }) => Err(Complaint::NoMemory),
    }
}

// The alternatives from the last to the first.
fn block_of(alloc: Global, block: Open) -> Result<Term<Op>, Complaint>
    ensures { GivesAsGrammar (λ t. t) result (block_of (open_of block)) }
{
    let mut done = block.done;
    let mut term = sequence(block.parts)?;
    while let Some(alternative) = done.pop() {
        let one = sequence(alternative)?;
        term = either(alloc, one, term)?;
    }
    Ok(term)
}

/// Whether a block is open.
pub fn in_block(place: &Thread) -> bool
    ensures { result ≡ in_block (place_of_thread place.now).open_blocks }
{
    match place.open_blocks.last() {
        None => false,
        Some(_) => true,
    }
}

// Room for one more command or block where the lines stand, and how many the outermost block then has.
#[tactic(auto, unfolding(crate::specs::Blocks::counted_up))]
fn counted_up(place: &Thread) -> Result<u32, Why>
    ensures is { result ≡ counted_up (place_of_thread place.now) (place_of_thread place.now).open_blocks }
    ensures within { IfOk result (λ n. n ≤ MOST_OPERATIONS) }
{
    match place.open_blocks.last() {
        None => {
            wants(
                place.here.len() < MOST_COMMANDS,
                Why::TooMany(Limit::Commands),
            )?;
            Ok(0)
        }
        Some(_) => {
            wants(place.count < MOST_OPERATIONS, Why::TooMany(Limit::Block))?;
            Ok(place.count + 1)
        }
    }
}

// The block that is open innermost, taken off.
fn innermost(open_blocks: &mut Vec<Open>) -> Option<Open>
    ensures some { IfSome result (λ b. reverse (map open_of open_blocks.old.items) ≡ open_of b ∷ reverse (map open_of open_blocks.new.items)) }
    ensures none { IfNone result ((reverse (map open_of open_blocks.old.items) ≡ []) × (reverse (map open_of open_blocks.new.items) ≡ [])) }
{
    open_blocks.pop()
}

fn begin(open_blocks: &mut Vec<Open>, b: Open) -> Result<(), AllocError>
    ensures { OnOk result (reverse (map open_of open_blocks.new.items) ≡ open_of b ∷ reverse (map open_of open_blocks.old.items)) }
{
    open_blocks.push(b)?;
    Ok(())
}

fn with_op(place: &mut Thread, count: u32, operation: Op) -> Result<(), AllocError>
    requires { count ≤ MOST_OPERATIONS }
    ensures { OnOk result (place_of_thread place.new ≡ with_op (place_of_thread place.old) (place_of_thread place.old).open_blocks count operation) }
{
    match innermost(&mut place.open_blocks) {
        None => place.here.push(Command::One(operation))?,
        Some(mut b) => {
            b.parts.push(Term::op(operation))?;
            begin(&mut place.open_blocks, b)?;
        }
    }
    place.count = count;
    Ok(())
}

/// An operation where the lines stand.
#[tactic(auto, unfolding(crate::specs::Blocks::op_line))]
pub fn op_line(place: &mut Thread, operation: Op) -> Result<(), Complaint>
    ensures { Reaches (place_of_thread place.new) result (op_line (place_of_thread place.old) operation) }
{
    let count = counted_up(place)?;
    with_op(place, count, operation)?;
    Ok(())
}

// The level of a block that begins where the lines stand.
fn level_here(place: &Thread) -> u32
    ensures { result ≡ level_here (place_of_thread place.now).open_blocks }
{
    match place.open_blocks.last() {
        None => 0,
        Some(b) => b.level + 1,
    }
}

#[tactic(auto, unfolding(crate::specs::Blocks::atomic_line))]
pub fn atomic_line(alloc: Global, place: &mut Thread, args: &[&[u8]]) -> Result<(), Complaint>
    ensures { Reaches (place_of_thread place.new) result (atomic_line (place_of_thread place.old) (map (λ word. word.now) args.now)) }
{
    counted(0, args)?;
    let count = counted_up(place)?;
    let level = level_here(place);
    wants(level <= MOST_LEVEL, Why::TooMany(Limit::Depth))?;
    let b = Open {
        level,
        done: Vec::new(alloc),
        parts: Vec::new(alloc),
    };
    begin(&mut place.open_blocks, b)?;
    place.count = count;
    Ok(())
}

#[tactic(auto, unfolding(crate::specs::Blocks::or_at))]
pub fn or_line(alloc: Global, place: &mut Thread, args: &[&[u8]]) -> Result<(), Complaint>
    ensures { Reaches (place_of_thread place.new) result (or_at (place_of_thread place.old) (place_of_thread place.old).open_blocks (map (λ word. word.now) args.now)) }
{
    let Some(mut b) = innermost(&mut place.open_blocks) else {
        return Err(Complaint::Here(Why::StrayWord));
    };
    counted(0, args)?;
    wants(b.level < MOST_LEVEL, Why::TooMany(Limit::Depth))?;
    let parts = mem::replace(&mut b.parts, Vec::new(alloc));
    b.done.push(parts)?;
    b.level += 1;
    begin(&mut place.open_blocks, b)?;
    Ok(())
}

// A block where the lines stand behind its end.
fn with_block(place: &mut Thread, block: Term<Op>) -> Result<(), AllocError>
    ensures { OnOk result (place_of_thread place.new ≡ with_block (place_of_thread place.old) (place_of_thread place.old).open_blocks block) }
{
    match innermost(&mut place.open_blocks) {
        None => {
            place.here.push(Command::Block(block))?;
            place.count = 0;
        }
        Some(mut b) => {
            b.parts.push(block)?;
            begin(&mut place.open_blocks, b)?;
        }
    }
    Ok(())
}

#[tactic(auto, unfolding(crate::specs::Blocks::end_at))]
pub fn end_line(alloc: Global, place: &mut Thread, args: &[&[u8]]) -> Result<(), Complaint>
    ensures { Reaches (place_of_thread place.new) result (end_at (place_of_thread place.old) (place_of_thread place.old).open_blocks (map (λ word. word.now) args.now)) }
{
    let Some(b) = innermost(&mut place.open_blocks) else {
        return Err(Complaint::Here(Why::StrayWord));
    };
    counted(0, args)?;
    let block = block_of(alloc, b)?;
    with_block(place, block)?;
    Ok(())
}
