//! The lines of threads, commands and blocks.

ghost use Rattle.std.specs.Prelude.{◌++◌, ◌∷◌, [], map};
ghost use Rattle.kc_model.specs.Pen.{PenPuts};
ghost use Rattle.kc_term.specs.Tree.{pair, first, trees};
ghost use Rattle.kc_script_bundle.specs.Script.{names_of, LieFrom, AreSized};
ghost use Rattle.kc_script_bundle.specs.declared.operation.Command.TheVariants as command;
ghost use Rattle.kc_script.specs.Spells.{spelled_atomic, end_line};
ghost use Rattle.kc_script.specs.Canonical.{canonical_op_line, block_lines, parts_lines, part_lines, command_lines, thread_lines, text_of_lines};

use crate::said::put_op;
use indexmap::IndexMap;
use kc_model::{Pen, Sink};
use kc_script_bundle::{Command, Object, Op};
use kc_term::{Node, Term};

fn put_op_line<K: Sink>(pen: &mut Pen<K>, objects: &IndexMap<String, Object>, operation: Op)
    requires lie { LieFrom 1 (names_of objects.now) }
    requires sized { AreSized (names_of objects.now) }
    ensures { PenPuts K.written K.faults K.write_gives pen.old pen.new (text_of_lines (canonical_op_line (names_of objects.now) operation ∷ [])) }
{
    put_op(pen, objects, operation);
    pen.put(b"\n");
}

fn put_pair<K: Sink>(pen: &mut Pen<K>, objects: &IndexMap<String, Object>, a: Op, b: Op)
    requires lie { LieFrom 1 (names_of objects.now) }
    requires sized { AreSized (names_of objects.now) }
    ensures { PenPuts K.written K.faults K.write_gives pen.old pen.new (text_of_lines (block_lines (names_of objects.now) (pair a b))) }
{
    put_op_line(pen, objects, a);
    put_op_line(pen, objects, b);
}

// A block between its `atomic` and its `end`.
#[cycle(put)]
fn put_block<K: Sink>(pen: &mut Pen<K>, objects: &IndexMap<String, Object>, block: &Term<Op>)
    requires lie { LieFrom 1 (names_of objects.now) }
    requires sized { AreSized (names_of objects.now) }
    ensures { PenPuts K.written K.faults K.write_gives pen.old pen.new (text_of_lines (block_lines (names_of objects.now) block.now)) }
{
    match block.node() {
        Node::Op(operation) => put_op_line(pen, objects, *operation),
        Node::Pair(a, b) => put_pair(pen, objects, *a, *b),
        Node::Seq(parts) => put_parts(pen, objects, parts),
        Node::First(a, b) => put_alternatives(pen, objects, a, b),
    }
}

#[cycle(put)]
fn put_alternatives<K: Sink>(
    pen: &mut Pen<K>,
    objects: &IndexMap<String, Object>,
    a: &Term<Op>,
    b: &Term<Op>,
)
    requires lie { LieFrom 1 (names_of objects.now) }
    requires sized { AreSized (names_of objects.now) }
    ensures { PenPuts K.written K.faults K.write_gives pen.old pen.new (text_of_lines (block_lines (names_of objects.now) (first a.now b.now))) }
{
    put_block(pen, objects, a);
    pen.put(b"or\n");
    put_block(pen, objects, b);
}

#[cycle(put)]
fn put_parts<K: Sink>(pen: &mut Pen<K>, objects: &IndexMap<String, Object>, parts: &[Term<Op>])
    requires lie { LieFrom 1 (names_of objects.now) }
    requires sized { AreSized (names_of objects.now) }
    ensures { PenPuts K.written K.faults K.write_gives pen.old pen.new (text_of_lines (parts_lines (names_of objects.now) (trees parts.now))) }
{
    for part in parts {
        put_part(pen, objects, part);
    }
}

#[cycle(put)]
fn put_part<K: Sink>(pen: &mut Pen<K>, objects: &IndexMap<String, Object>, part: &Term<Op>)
    requires lie { LieFrom 1 (names_of objects.now) }
    requires sized { AreSized (names_of objects.now) }
    ensures { PenPuts K.written K.faults K.write_gives pen.old pen.new (text_of_lines (part_lines (names_of objects.now) part.now)) }
{
    match part.node() {
        Node::Op(operation) => put_op_line(pen, objects, *operation),
        _ => put_whole_block(pen, objects, part),
    }
}

// A block with its `atomic` and its `end`.
#[cycle(put)]
fn put_whole_block<K: Sink>(pen: &mut Pen<K>, objects: &IndexMap<String, Object>, block: &Term<Op>)
    requires lie { LieFrom 1 (names_of objects.now) }
    requires sized { AreSized (names_of objects.now) }
    ensures { PenPuts K.written K.faults K.write_gives pen.old pen.new (text_of_lines (spelled_atomic ∷ (block_lines (names_of objects.now) block.now ++ end_line ∷ []))) }
{
    pen.put(b"atomic\n");
    put_block(pen, objects, block);
    pen.put(b"end\n");
}

fn put_command<K: Sink>(pen: &mut Pen<K>, objects: &IndexMap<String, Object>, command: &Command)
    requires lie { LieFrom 1 (names_of objects.now) }
    requires sized { AreSized (names_of objects.now) }
    ensures { PenPuts K.written K.faults K.write_gives pen.old pen.new (text_of_lines (command_lines (names_of objects.now) (command.now ∷ []))) }
{
    match command {
        Command::One(operation) => put_op_line(pen, objects, *operation),
        Command::Block(block) => put_whole_block(pen, objects, block),
    }
}

fn put_commands<K: Sink>(pen: &mut Pen<K>, objects: &IndexMap<String, Object>, commands: &[Command])
    requires lie { LieFrom 1 (names_of objects.now) }
    requires sized { AreSized (names_of objects.now) }
    ensures { PenPuts K.written K.faults K.write_gives pen.old pen.new (text_of_lines (command_lines (names_of objects.now) commands.now)) }
{
    for command in commands {
        put_command(pen, objects, command);
    }
}

/// The lines of the threads.
pub fn put_threads<K: Sink>(
    pen: &mut Pen<K>,
    objects: &IndexMap<String, Object>,
    threads: &[Vec<Command>],
)
    requires lie { LieFrom 1 (names_of objects.now) }
    requires sized { AreSized (names_of objects.now) }
    ensures { PenPuts K.written K.faults K.write_gives pen.old pen.new (text_of_lines (thread_lines (names_of objects.now) (map (λ commands. commands.items) threads.now))) }
{
    for commands in threads {
        pen.put(b"thread\n");
        put_commands(pen, objects, commands);
    }
}
