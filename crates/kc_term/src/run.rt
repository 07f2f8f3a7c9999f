//! A term on a log.

ghost use Rattle.std.specs.Prelude.{◌≡◌, ◌≤◌, ◌↔◌, [], length, Err, IfOk, IsTrue};
ghost use Rattle.kc_model.specs.declared.footprint.TheConstants.{MOST};
ghost use Rattle.kc_xt.specs.Law.{Obeys};
ghost use Rattle.kc_xt.specs.declared.xt.TheConstants.{FEW};
ghost use Rattle.kc_term.specs.Tree.{pair, first, trees, operations, all_operations};
ghost use Rattle.kc_term.specs.Meaning.{term_meaning, parts_meaning, greatest_end, items_of};
ghost use Rattle.kc_term.specs.Fit.{AreFit};

use crate::bound::term_bound;
use crate::items::add;
use crate::term::{Node, Term};
use kc_model::{Items, MOST, Reply};
use kc_xt::{FEW, Peek, Stop, Transact, Xt};

/// A term is fit where it has at most 16 operations, each is fit, and none replies many items, or that it is stranded or cancelled.
impl<O: Transact> Transact for Term<O> {
    ghost meaning = { term_meaning O.meaning };

    ghost is_fit = { λ t. AreFit O.is_fit O.meaning (operations t) };

    ghost end = { λ t. greatest_end O.end (operations t) };

    fn bound(&self) -> u32 {
        term_bound(self)
    }

    fn limit(&self) -> u32 {
        MOST as u32
    }

    fn run<P: Peek>(&self, xt: &mut Xt<P>) -> Result<Reply, Stop> {
        run_term(self, xt)
    }
}

#[cycle(run)]
fn run_term<O: Transact, P: Peek>(term: &Term<O>, xt: &mut Xt<P>) -> Result<Reply, Stop>
    requires fit { AreFit O.is_fit O.meaning (operations term.now) }
    requires within { greatest_end O.end (operations term.now) ≤ P.locations xt.old.peek }
    ensures law { Obeys P.peek_gives (term_meaning O.meaning term.now) (greatest_end O.end (operations term.now)) xt.old result xt.new }
    ensures items { IfOk result (λ a. length (items_of a) ≤ length (operations term.now)) }
    ensures size { P.locations xt.new.peek ≡ P.locations xt.old.peek }
{
    match &term.node {
        Node::Op(operation) => operation.run(xt),
        Node::Pair(a, b) => run_pair(a, b, xt),
        Node::Seq(parts) => run_parts(parts.as_slice(), xt),
        Node::First(a, b) => run_first(a, b, xt),
    }
}

// A function of its own, so that the room of its items stands only where there are two operations.
fn run_pair<O: Transact, P: Peek>(a: &O, b: &O, xt: &mut Xt<P>) -> Result<Reply, Stop>
    requires fit { AreFit O.is_fit O.meaning (operations (pair a.now b.now)) }
    requires within { greatest_end O.end (operations (pair a.now b.now)) ≤ P.locations xt.old.peek }
    ensures law { Obeys P.peek_gives (term_meaning O.meaning (pair a.now b.now)) (greatest_end O.end (operations (pair a.now b.now))) xt.old result xt.new }
    ensures items { IfOk result (λ r. length (items_of r) ≤ length (operations (pair a.now b.now))) }
    ensures size { P.locations xt.new.peek ≡ P.locations xt.old.peek }
{
    let mut items = Items::new();
    let first = a.run(xt)?;
    add(&mut items, first);
    let second = b.run(xt)?;
    add(&mut items, second);
    Ok(Reply::Many(items))
}

// A function of its own, so that a snapshot stands only where there are alternatives.
#[cycle(run)]
fn run_first<O: Transact, P: Peek>(a: &Term<O>, b: &Term<O>, xt: &mut Xt<P>) -> Result<Reply, Stop>
    requires fit { AreFit O.is_fit O.meaning (operations (first a.now b.now)) }
    requires within { greatest_end O.end (operations (first a.now b.now)) ≤ P.locations xt.old.peek }
    ensures law { Obeys P.peek_gives (term_meaning O.meaning (first a.now b.now)) (greatest_end O.end (operations (first a.now b.now))) xt.old result xt.new }
    ensures items { IfOk result (λ r. length (items_of r) ≤ length (operations (first a.now b.now))) }
    ensures size { P.locations xt.new.peek ≡ P.locations xt.old.peek }
{
    if xt.count() <= FEW {
        run_behind_few(a, b, xt)
    } else {
        run_behind_many(a, b, xt)
    }
}

// Behind few lines.
#[cycle(run)]
fn run_behind_few<O: Transact, P: Peek>(
    a: &Term<O>,
    b: &Term<O>,
    xt: &mut Xt<P>,
) -> Result<Reply, Stop>
    requires fit { AreFit O.is_fit O.meaning (operations (first a.now b.now)) }
    requires within { greatest_end O.end (operations (first a.now b.now)) ≤ P.locations xt.old.peek }
    requires room { length xt.old.lines ≤ FEW }
    ensures law { Obeys P.peek_gives (term_meaning O.meaning (first a.now b.now)) (greatest_end O.end (operations (first a.now b.now))) xt.old result xt.new }
    ensures items { IfOk result (λ r. length (items_of r) ≤ length (operations (first a.now b.now))) }
    ensures size { P.locations xt.new.peek ≡ P.locations xt.old.peek }
{
    let before = xt.snapshot::<{ FEW }>();
    let tried = run_term(a, xt);
    if !is_retry(&tried) {
        return tried;
    }
    xt.rollback(&before);
    run_term(b, xt)
}

// Behind however many: a function of its own, since the room of such a snapshot is cleared where it begins.
#[cycle(run)]
fn run_behind_many<O: Transact, P: Peek>(
    a: &Term<O>,
    b: &Term<O>,
    xt: &mut Xt<P>,
) -> Result<Reply, Stop>
    requires fit { AreFit O.is_fit O.meaning (operations (first a.now b.now)) }
    requires within { greatest_end O.end (operations (first a.now b.now)) ≤ P.locations xt.old.peek }
    requires room { length xt.old.lines ≤ MOST }
    ensures law { Obeys P.peek_gives (term_meaning O.meaning (first a.now b.now)) (greatest_end O.end (operations (first a.now b.now))) xt.old result xt.new }
    ensures items { IfOk result (λ r. length (items_of r) ≤ length (operations (first a.now b.now))) }
    ensures size { P.locations xt.new.peek ≡ P.locations xt.old.peek }
{
    let start = xt.snapshot::<{ MOST }>();
    let tried = run_term(a, xt);
    if !is_retry(&tried) {
        return tried;
    }
    xt.rollback(&start);
    run_term(b, xt)
}

pub(crate) fn is_retry(tried: &Result<Reply, Stop>) -> bool
    ensures { IsTrue result ↔ (tried.now ≡ Err Stop.Retry) }
{
    matches!(tried, Err(Stop::Retry))
}

#[cycle(run)]
fn run_parts<O: Transact, P: Peek>(parts: &[Term<O>], xt: &mut Xt<P>) -> Result<Reply, Stop>
    requires fit { AreFit O.is_fit O.meaning (all_operations (trees parts.now)) }
    requires within { greatest_end O.end (all_operations (trees parts.now)) ≤ P.locations xt.old.peek }
    ensures law { Obeys P.peek_gives (parts_meaning O.meaning (trees parts.now) []) (greatest_end O.end (all_operations (trees parts.now))) xt.old result xt.new }
    ensures items { IfOk result (λ a. length (items_of a) ≤ length (all_operations (trees parts.now))) }
    ensures size { P.locations xt.new.peek ≡ P.locations xt.old.peek }
{
    let mut items = Items::new();
    for part in parts {
        let reply = run_term(part, xt)?;
        add(&mut items, reply);
    }
    Ok(Reply::Many(items))
}
