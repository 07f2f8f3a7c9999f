//! The bound of a term.

ghost use Rattle.std.specs.Prelude.{◌≡◌};
ghost use Rattle.kc_term.specs.Tree.{trees, operations, all_operations};
ghost use Rattle.kc_term.specs.Meaning.{greatest_end};

use crate::term::{Node, Term};
use kc_xt::Transact;

// The greatest bound of its operations.
#[cycle(bound)]
pub(crate) fn term_bound<O: Transact>(term: &Term<O>) -> u32
    ensures { result ≡ greatest_end O.end (operations term.now) }
{
    match &term.node {
        Node::Op(operation) => operation.bound(),
        Node::Pair(a, b) => a.bound().max(b.bound()),
        Node::Seq(parts) => parts_bound(parts.as_slice()),
        Node::First(a, b) => term_bound(a).max(term_bound(b)),
    }
}

#[cycle(bound)]
fn parts_bound<O: Transact>(parts: &[Term<O>]) -> u32
    ensures { result ≡ greatest_end O.end (all_operations (trees parts.now)) }
{
    let mut most = 0;
    for part in parts {
        most = term_bound(part).max(most);
    }
    most
}
