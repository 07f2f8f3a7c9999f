//! What a term is, and how it is made.

ghost use Rattle.std.specs.Prelude.{◌≡◌, ◌≤◌, ◌↔◌, length, IsTrue};
ghost use Rattle.kc_term.specs.Tree.{op, pair, operations};
ghost use Rattle.kc_term.specs.declared.term.TheConstants.{MOST_OPERATIONS};
ghost use Rattle.kc_term.specs.Shape.{tree_of};
ghost use Rattle.kc_term.specs.Made.{seq_made, MakesFirst};

use crate::errors::{TermError, TooMany};
use std::alloc::Global;
use std::marker::Model;

/// How many alternatives may stand in one another.
pub const MOST_NESTED: u32 = 8;

/// How many operations a sequence, and a term that is run, may have.
pub const MOST_OPERATIONS: u32 = 16;

/// Operations, one after another or as alternatives. Contracts see a tree of them.
#[derive(Drop)]
#[cycle(term)]
pub struct Term<O> {
    pub(crate) node: Node<O>,
    // How many operations it has; above `MOST_OPERATIONS`, one more than that.
    operations: u32,
    nesting: u32,
}

/// What a term is at its top.
#[derive(Drop)]
#[cycle(term)]
pub enum Node<O> {
    Op(O),
    /// Two operations, one after another, without memory. Contracts see the tree of a sequence of the two.
    Pair(O, O),
    /// The parts in order, up to one that stops.
    Seq(Vec<Term<O>>),
    /// The first; where it would wait, the second in its place.
    First(Box<Term<O>>, Box<Term<O>>),
}

impl<O> Model for Term<O> {
    ghost use Rattle.kc_term.specs.Tree.{Tree};

    ghost Value = { Tree O };

    ghost use Rattle.kc_term.specs.Code.{tree_code};

    ghost coded = { tree_code O.code };

    ghost use Rattle.kc_term.specs.Shape.{tree_of};

    ghost view = { λ t. tree_of t.node };

    ghost use Rattle.kc_term.specs.Counted.{IsCounted};

    ghost invariant = { λ t. IsCounted (tree_of t.node) t.operations t.nesting };

    ghost use Rattle.kc_term.specs.Tree.{tree_size};

    ghost size = { tree_size };

    ghost use Rattle.kc_term.specs.Falls.{falls};

    ghost size_decreases = { λ t h. falls t.node };
}

impl<O> Term<O> {
    /// The term of one operation.
    pub fn op(operation: O) -> Term<O>
        ensures { result ≡ op operation }
    {
        Term {
            node: Node::Op(operation),
            operations: 1,
            nesting: 0,
        }
    }

    /// Two operations, one after another, without memory: what a `Term::seq` of the two does, without the vector.
    pub fn pair(a: O, b: O) -> Term<O>
        ensures { result ≡ pair a b }
    {
        Term {
            node: Node::Pair(a, b),
            operations: 2,
            nesting: 0,
        }
    }

    /// The parts, one after another. Takes no memory.
    ///
    /// # Errors
    ///
    /// TooMany: exactly where the parts have more than `MOST_OPERATIONS` operations in all
    pub fn seq(parts: Vec<Term<O>>) -> Result<Term<O>, TooMany<O>>
        ensures { result ≡ seq_made parts }
    {
        let mut operations = 0;
        let mut nesting = 0;
        for part in &parts {
            operations = (operations + part.operations).min(MOST_OPERATIONS + 1);
            nesting = part.nesting.max(nesting);
        }
        if operations > MOST_OPERATIONS {
            return Err(TooMany { parts });
        }
        Ok(Term {
            node: Node::Seq(parts),
            operations,
            nesting,
        })
    }

    /// The first term, and the second where the first would wait.
    ///
    /// # Errors
    ///
    /// - TooDeep: exactly where more than `MOST_NESTED` alternatives would stand in one another
    /// - NoMemory: where no memory was found
    pub fn first(alloc: Global, a: Term<O>, b: Term<O>) -> Result<Term<O>, TermError<O>>
        ensures { MakesFirst a b result }
    {
        let nesting = a.nesting.max(b.nesting) + 1;
        if nesting > MOST_NESTED {
            return Err(TermError::TooDeep { a, b });
        }
        let operations = (a.operations + b.operations).min(MOST_OPERATIONS + 1);
        let a = match Box::new(alloc, a) {
            Ok(a) => a,
            Err(failed) => return Err(TermError::NoMemory { a: failed.value, b }),
        };
        match Box::new(alloc, b) {
            Ok(b) => Ok(Term {
                node: Node::First(a, b),
                operations,
                nesting,
            }),
            Err(failed) => Err(TermError::NoMemory {
                a: Box::into_inner(a),
                b: failed.value,
            }),
        }
    }

    /// Whether it has at most `MOST_OPERATIONS` operations, as a term that is run must.
    pub fn is_short(&self) -> bool
        ensures { IsTrue result ↔ (length (operations self.now) ≤ MOST_OPERATIONS) }
    {
        self.operations <= MOST_OPERATIONS
    }

    /// What it is at its top.
    pub fn node(&self) -> &Node<O>
        ensures { tree_of result.now ≡ self.now }
    {
        &self.node
    }
}
