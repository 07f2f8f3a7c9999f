//! Scripts that are read, and what is wrong with them.

ghost use Rattle.std.specs.Prelude.{IfOk};
ghost use Rattle.kc_script_bundle.specs.Script.{script_of};
ghost use Rattle.kc_script.specs.Spells.{Spells};

use crate::asserts::{equal, equal_at, holds, holds_at};
use kc_cells::{AccAct, AccOp, Accumulator, Mvar, MvarAct, MvarOp, Promise, PromiseAct, PromiseOp};
use kc_grow::{Grow, GrowAct, GrowOp};
use kc_hash::{Hash, HashAct, HashOp};
use kc_loc::{Fun, LocOp, Rel};
use kc_model::Loc;
use kc_queue::{Queue, QueueAct, QueueOp};
use kc_script::{MOST_BYTES, parse};
use kc_script_bundle::{Bundle, Cancel, Command, Object, Op};
use kc_script_lines::{Limit, ScriptError, Why};
use kc_stack::{Stack, StackAct, StackOp};
use kc_term::{Node, Term};

/// Declarations of each kind, and a thread that begins.
pub const KINDS: &str =
    "kcas 2\nloc x 5\nloc y 6\nstack s 3\nqueue q 4\ntable t 2 3\nmvar m\npromise p\nacc a 2\nthread\n";

const X: Loc = Loc(1);

const Y: Loc = Loc(2);

/// What is read of a text.
pub fn read(rt: &HostRuntime, text: &str) -> Result<Bundle, ScriptError>
    ensures { IfOk result (λ bundle. Spells text.now (script_of bundle)) }
{
    let bytes = text.as_bytes();
    if bytes.len() > MOST_BYTES {
        return Err(ScriptError::NoMemory);
    }
    parse(rt.alloc(), bytes)
}

// The one thread's operation at an index.
fn op_at(bundle: &Bundle, i: usize) -> Option<Op> {
    match bundle.threads.first()?.get(i)? {
        Command::One(operation) => Some(*operation),
        Command::Block(_) => None,
    }
}

// Whether a script's one thread has these operations, behind declarations of each kind.
fn says(rt: &HostRuntime, lines: &str, ops: &[Op]) -> bool {
    let Ok(text) = format!(in rt.alloc(); "{KINDS}{lines}") else {
        return false;
    };
    let Ok(bundle) = read(rt, &text) else {
        return false;
    };
    let Some(thread) = bundle.threads.first() else {
        return false;
    };
    for i in 0..ops.len() {
        if op_at(&bundle, i) != Some(ops[i]) {
            return false;
        }
    }
    thread.len() == ops.len()
}

#[test]
fn commands_on_locations_are_read(rt: HostRuntime) {
    let lines =
        "get x\nset x 7\nxchg y 8\nswap x y\ncas x 1 2\nadd x 3\nincr x\ndecr y\nupdate x max 9\nmodify y xor 4294967295\ncheck x le 10";
    let ops = [
        LocOp::Get(X),
        LocOp::Set(X, 7),
        LocOp::Exchange(Y, 8),
        LocOp::Swap(X, Y),
        LocOp::Cas(X, 1, 2),
        LocOp::FetchAdd(X, 3),
        LocOp::Incr(X),
        LocOp::Decr(Y),
        LocOp::Update(X, Fun::Max(9)),
        LocOp::Modify(Y, Fun::Xor(u32::MAX)),
        LocOp::Check(X, Rel::Le, 10),
    ]
    .map(|o| Op::Loc(o));
    holds(&rt, says(&rt, lines, &ops));
}

#[test]
fn commands_on_stacks_and_queues_are_read(rt: HostRuntime) {
    let lines = "push s 1\npop s\npopw s\ntop s\nlen s\nenq q 2\ndeq q\ndeqw q\nfront q\nlen q";
    let stack = Stack::layout(Loc(3), 3);
    let queue = Queue::layout(Loc(7), 4);
    let stacked = |act| Op::Stack(StackOp { stack, act });
    let queued = |act| Op::Queue(QueueOp { queue, act });
    let ops = [
        stacked(StackAct::Push(1)),
        stacked(StackAct::Pop),
        stacked(StackAct::PopWait),
        stacked(StackAct::Top),
        stacked(StackAct::Len),
        queued(QueueAct::Enq(2)),
        queued(QueueAct::Deq),
        queued(QueueAct::DeqWait),
        queued(QueueAct::Front),
        queued(QueueAct::Len),
    ];
    holds(&rt, says(&rt, lines, &ops));
}

#[test]
fn commands_on_tables_and_cells_are_read(rt: HostRuntime) {
    let lines =
        "put t 1 2\nfind t 1\ndel t 1\nlen t\nmput m 3\nmtake m\nmpeek m\nresolve p 4\nawait p\nresolved p\nbump a 5\ntotal a";
    let mvar = Mvar::layout(Loc(26));
    let promise = Promise::layout(Loc(28));
    let acc = Accumulator::layout(Loc(30), 2);
    let table = Hash::layout(Loc(13), 2, 3);
    let tabled = |act| Op::Hash(HashOp { hash: table, act });
    let held = |act| Op::Mvar(MvarOp { mvar, act });
    let promised = |act| Op::Promise(PromiseOp { promise, act });
    let summed = |act| Op::Acc(AccOp { acc, act });
    let ops = [
        tabled(HashAct::Put(1, 2)),
        tabled(HashAct::Find(1)),
        tabled(HashAct::Del(1)),
        tabled(HashAct::Len),
        held(MvarAct::Put(3)),
        held(MvarAct::Take),
        held(MvarAct::Peek),
        promised(PromiseAct::Resolve(4)),
        promised(PromiseAct::Await),
        promised(PromiseAct::IsResolved),
        summed(AccAct::Bump(0, 5)),
        summed(AccAct::Total),
    ];
    holds(&rt, says(&rt, lines, &ops));
}

#[test]
fn commands_on_a_table_that_grows_are_read(rt: HostRuntime) {
    let text =
        "kcas 2\nloc x 5\ngrow g 0004\nmvar m\nthread\nput g 1 2\nfind g 1\ndel g 1\nlen g\nmtake m";
    let Ok(bundle) = read(&rt, text) else {
        panic!(rt; "it is spelled");
    };
    let grow = Grow::layout(Loc(2), 4);
    holds(
        &rt,
        bundle.objects.get("g").copied() == Some(Object::Grow(grow)),
    );
    let mvar = Mvar::layout(Loc(21));
    holds(
        &rt,
        bundle.objects.get("m").copied() == Some(Object::Mvar(mvar)),
    );
    let ops = [
        GrowAct::Put(1, 2),
        GrowAct::Find(1),
        GrowAct::Del(1),
        GrowAct::Len,
    ]
    .map(|act| Op::Grow(GrowOp { grow, act }));
    for i in 0..ops.len() {
        holds(&rt, op_at(&bundle, i) == Some(ops[i]));
    }
}

#[test]
fn cancels_are_read(rt: HostRuntime) {
    let ops = [1, 2, 16].map(|thread| Op::Cancel(Cancel {
        live: Loc(0),
        thread,
    }));
    holds(&rt, says(&rt, "cancel 1\ncancel 02\ncancel 16", &ops));
}

#[test]
fn a_bundle_has_the_limit_of_its_version_or_its_line(rt: HostRuntime) {
    let rows = [
        ("kcas 1", 64),
        ("kcas 2", 256),
        ("kcas 2\nlimit 1\nthread", 1),
        ("# two\nkcas 2\n\n# a limit\nlimit 0256\nloc x 1", 256),
    ];
    for (text, limit) in rows {
        holds_at(
            &rt,
            text,
            read(&rt, text).is_ok_and(|bundle| bundle.limit == limit),
        );
    }
}

#[test]
fn blanks_and_comments_make_no_difference(rt: HostRuntime) {
    let text = "# demo\r\nkcas\t1\r\n\r\n\tloc x 5\r\nthread\r\nget\tx \r\nset x 0000000007";
    let Ok(bundle) = read(&rt, text) else {
        panic!(rt; "it is spelled");
    };
    holds(
        &rt,
        bundle.objects.get("x").copied() == Some(Object::Loc { at: X, value: 5 }),
    );
    holds(&rt, op_at(&bundle, 0) == Some(Op::Loc(LocOp::Get(X))));
    holds(&rt, op_at(&bundle, 1) == Some(Op::Loc(LocOp::Set(X, 7))));
}

// The line and the reason for which the text is refused.
fn fault(rt: &HostRuntime, text: &str) -> Option<(u32, Why)> {
    match read(rt, text) {
        Ok(_) | Err(ScriptError::NoMemory) => None,
        Err(ScriptError::Fault { line, why }) => Some((line, why)),
    }
}

#[test]
fn a_fault_has_its_line_and_its_reason(rt: HostRuntime) {
    let rows = [
        ("", 1, Why::Header),
        ("\n# only this\n", 1, Why::Header),
        ("\n\nkcas 3\nfoo", 3, Why::Header),
        ("kcas 1 2", 1, Why::Header),
        ("kcas 1\nfoo", 2, Why::UnknownWord),
        ("kcas 1\n\n# x\nfoo", 4, Why::UnknownWord),
        ("kcas 1\nloc x 1\n\u{ff}", 3, Why::UnknownWord),
        ("kcas 1\nlimit 64", 2, Why::UnknownWord),
        ("kcas 2\nlimit", 2, Why::MissingWord),
        ("kcas 2\nlimit 5 6", 2, Why::ExtraWord),
        ("kcas 2\nlimit 0", 2, Why::BadNumber),
        ("kcas 2\nlimit 257", 2, Why::BadNumber),
        ("kcas 2\nloc x 1\nlimit 64", 3, Why::StrayWord),
        ("kcas 2\nlimit 5\nlimit 6", 3, Why::StrayWord),
        ("kcas 2\nthread\nlimit 5", 3, Why::StrayWord),
        ("kcas 1\ncancel 0", 2, Why::StrayWord),
        ("kcas 1\nthread\ncancel", 3, Why::MissingWord),
        ("kcas 2\nthread\ncancel 17 1", 3, Why::ExtraWord),
        ("kcas 1\nthread\ncancel 0", 3, Why::BadNumber),
        ("kcas 1\nthread\natomic\ncancel 17", 4, Why::BadNumber),
        ("kcas 1\nloc x 1\nthread\ncancel x", 4, Why::BadNumber),
        ("kcas 1\nget x", 2, Why::StrayWord),
        ("kcas 1\nloc x 1\nget x", 3, Why::StrayWord),
        ("kcas 1\natomic", 2, Why::StrayWord),
        ("kcas 1\nor", 2, Why::StrayWord),
        ("kcas 1\nthread\nend 1", 3, Why::StrayWord),
        ("kcas 1\nthread\nloc x 1", 3, Why::StrayWord),
        ("kcas 1\nthread\natomic\nloc x 1", 4, Why::StrayWord),
        ("kcas 1\nthread\natomic\n\nthread 1", 3, Why::UnclosedBlock),
        (
            "kcas 1\nthread\natomic\natomic\nend\natomic\nor\nthread",
            6,
            Why::UnclosedBlock,
        ),
        (
            "kcas 1\nthread\natomic\natomic\nend\nor",
            3,
            Why::UnclosedBlock,
        ),
        (
            "kcas 1\nloc x 1\nthread\natomic\nget x",
            4,
            Why::UnclosedBlock,
        ),
        ("kcas 1\nloc 1x", 2, Why::MissingWord),
        ("kcas 1\nmvar 1m 1", 2, Why::ExtraWord),
        ("kcas 1\nthread 1", 2, Why::ExtraWord),
        ("kcas 1\nthread\natomic 1", 3, Why::ExtraWord),
        ("kcas 1\nloc 1x y", 2, Why::BadName),
        ("kcas 1\nloc é 1", 2, Why::BadName),
        ("kcas 1\nloc x 1\nstack x 0", 3, Why::RepeatedName),
        ("kcas 1\nloc x 4294967296", 2, Why::BadNumber),
        ("kcas 1\nloc x 00000000001", 2, Why::BadNumber),
        ("kcas 1\nloc x \0", 2, Why::BadNumber),
        ("kcas 1\nstack s 0", 2, Why::BadNumber),
        ("kcas 1\nqueue q 4097", 2, Why::BadNumber),
        ("kcas 1\ntable t 1025 0", 2, Why::BadNumber),
        ("kcas 1\ntable t 1 0", 2, Why::BadNumber),
        ("kcas 1\nacc a 33", 2, Why::BadNumber),
        ("kcas 2\ngrow g", 2, Why::MissingWord),
        ("kcas 2\ngrow g 4 4", 2, Why::ExtraWord),
        ("kcas 2\ngrow g 0", 2, Why::BadNumber),
        ("kcas 2\ngrow g 4097", 2, Why::BadNumber),
        ("kcas 2\nthread\ngrow g 4", 3, Why::StrayWord),
        ("kcas 2\ngrow g 4\nthread\npush g 1", 4, Why::WrongKind),
        ("kcas 2\ngrow g 4\nthread\ncget g 1", 4, Why::WrongKind),
        ("kcas 2\ngrow g 4\nthread\nput g 1", 4, Why::MissingWord),
        ("kcas 1\ngrow g 4", 2, Why::UnknownWord),
        ("kcas 1\ngrow", 2, Why::UnknownWord),
        ("kcas 1\nthread\ngrow g 4", 3, Why::UnknownWord),
        ("kcas 1\nloc x 5\nthread\nget y", 4, Why::UnknownName),
        ("kcas 1\nthread\nset 1x y", 3, Why::UnknownName),
        ("kcas 1\nloc x 1\nthread\npush x y\nfoo", 4, Why::WrongKind),
        ("kcas 1\nloc x 1\nthread\nlen x", 4, Why::WrongKind),
        (
            "kcas 1\nloc x 1\nstack s 1\nthread\nswap x s",
            5,
            Why::WrongKind,
        ),
        (
            "kcas 1\nloc x 1\nthread\nupdate x nand y",
            4,
            Why::UnknownWord,
        ),
        ("kcas 1\nloc x 1\nthread\ncheck x is y", 4, Why::UnknownWord),
    ];
    for (text, line, why) in rows {
        equal_at(&rt, text, fault(&rt, text), Some((line, why)));
    }
}

// The fault of a text that ends with a line so many times.
fn fault_of_many(rt: &HostRuntime, front: &str, line: &str, times: usize) -> Option<(u32, Why)> {
    let mut text = String::from_str(rt.alloc(), front).ok()?;
    for _ in 0..times {
        text.push_str(line).ok()?;
    }
    fault(rt, &text)
}

#[test]
fn limits_are_kept(rt: HostRuntime) {
    let full = "kcas 1\ncache a 1024 4096\ncache b 1024 4096\nstack s 4096\n";
    let rows = [
        (full, "stack t 2033\n", 1, None),
        (full, "stack t 2034\n", 1, Some((5, Limit::Locations))),
        ("kcas 1\n", "thread\n", 16, None),
        ("kcas 1\n", "thread\n", 17, Some((18, Limit::Threads))),
        (
            "kcas 1\nloc x 0\nthread\n",
            "get x\n",
            4097,
            Some((4100, Limit::Commands)),
        ),
        (
            "kcas 1\nthread\n",
            "atomic\nend\n",
            4097,
            Some((8195, Limit::Commands)),
        ),
        (
            "kcas 1\nthread\natomic\n",
            "or\n",
            9,
            Some((12, Limit::Depth)),
        ),
        ("kcas 1\nthread\n", "atomic\n", 10, Some((12, Limit::Depth))),
        (
            "kcas 1\nloc x 0\nthread\natomic\n",
            "get x\n",
            17,
            Some((21, Limit::Block)),
        ),
        (
            "kcas 1\nloc x 0\nthread\natomic\natomic\nget x\nget x\nend\n",
            "get x\n",
            14,
            Some((22, Limit::Block)),
        ),
        (
            "kcas 1\nthread\natomic\nor\nor\nor\nor\nor\nor\nor\nor\n",
            "atomic\nend\n",
            1,
            Some((12, Limit::Depth)),
        ),
    ];
    for (front, line, times, limit) in rows {
        let expected = limit.map(|(line, limit)| (line, Why::TooMany(limit)));
        equal_at(&rt, front, fault_of_many(&rt, front, line, times), expected);
    }
    equal(
        &rt,
        fault_of_many(&rt, "", "#", MOST_BYTES),
        Some((1, Why::Header)),
    );
}

// How many alternatives stand in a term, one in the other, each of so many operations.
fn alternatives(term: &Term<Op>, parts: usize) -> Option<usize> {
    let mut rest = term;
    for n in 0..10_usize {
        match rest.node() {
            Node::First(a, b) => {
                let Node::Seq(ops) = a.node() else {
                    return None;
                };
                if ops.len() != parts {
                    return None;
                }
                rest = b;
            }
            _ => return Some(n),
        }
    }
    None
}

#[test]
fn a_block_may_be_nested_eight_deep(rt: HostRuntime) {
    let text =
        "kcas 1\nloc x 1\nthread\natomic\nget x\nget x\nor\nget x\nget x\nor\nget x\nget x\nor\nget x\nget x\nor\nget x\nget x\nor\nget x\nget x\nor\nget x\nget x\nor\nget x\nget x\nor\nend";
    let Ok(bundle) = read(&rt, text) else {
        panic!(rt; "it is spelled");
    };
    let Some(Command::Block(term)) = bundle.threads.first().and_then(|thread| thread.first()) else {
        panic!(rt; "it has a block");
    };
    equal(&rt, alternatives(term, 2), Some(8));
}
