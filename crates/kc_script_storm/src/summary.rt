//! What is counted of a run, and the summary.

ghost use Rattle.std.specs.Prelude.{◌≡◌, ◌≤◌, ◌<◌, ◌^◌, count_by, length};
ghost use Rattle.std.specs.List.{list_all};
ghost use Rattle.kc_model.specs.Pen.{PenPuts, Prints};
ghost use Rattle.kc_model.specs.Store.{store_of};
ghost use Rattle.kc_xt.specs.Meaning.{values};
ghost use Rattle.kc_script_bundle.specs.Script.{names_of, CellsWithin};
ghost use Rattle.kc_script_bundle.specs.State.{state_text};
ghost use Rattle.kc_history.specs.Records.{lists_of};
ghost use Rattle.kc_history.specs.Text.{bare_record};
ghost use Rattle.kc_script_storm.specs.Summary.{is_ok_item, all_ok, is_ok_command, commits, ok_commands, summary_lines};

use kc_history::{Head, Mark, Records};
use kc_model::{Answer, Failed, Item, Items, Pen, PlainStore, Reply, Sink};
use kc_script_bundle::{Bundle, put_state};

/// Writes the summary of a storm's run: the storm's number, how many commits were made and how many commands' replies
/// are all `ok`, both counted from the records, and what the objects hold in the store. After a failed write no further
/// one is made.
pub fn write_summary<K: Sink>(
    number: u32,
    bundle: &Bundle,
    records: &[Records],
    store: &PlainStore,
    sink: &mut K,
) -> Result<(), Failed>
    requires cells { CellsWithin (length store.now) (names_of bundle.now.objects) }
    requires few { commits (lists_of records.now) < 2 ^ 32 }
    ensures { Prints K.written K.faults K.write_gives sink.old sink.new result (summary_lines number (commits (lists_of records.now)) (ok_commands (lists_of records.now)) (state_text (names_of bundle.now.objects) (values (store_of store.now)))) }
{
    let mut pen = Pen::new(sink);
    put_summary(&mut pen, number, bundle, records, store);
    pen.end()
}

/// Puts the summary of a storm's run.
pub fn put_summary<K: Sink>(
    pen: &mut Pen<K>,
    number: u32,
    bundle: &Bundle,
    records: &[Records],
    store: &PlainStore,
)
    requires cells { CellsWithin (length store.now) (names_of bundle.now.objects) }
    requires few { commits (lists_of records.now) < 2 ^ 32 }
    ensures { PenPuts K.written K.faults K.write_gives pen.old pen.new (summary_lines number (commits (lists_of records.now)) (ok_commands (lists_of records.now)) (state_text (names_of bundle.now.objects) (values (store_of store.now)))) }
{
    pen.put(b"storm ");
    pen.put_number(number);
    pen.put(b"\ncommits ");
    pen.put_number(commits(records));
    pen.put(b"\nok ");
    pen.put_number(ok_commands(records));
    pen.put(b"\n");
    put_state(pen, bundle, store);
}

/// How many commits the records are of.
pub fn commits(records: &[Records]) -> u32
    requires { commits (lists_of records.now) < 2 ^ 32 }
    ensures { result ≡ commits (lists_of records.now) }
{
    let mut count = 0;
    for i in 0..records.len() {
        count += records[i].len() as u32;
    }
    count
}

/// How many commands replied `ok` alone.
pub fn ok_commands(records: &[Records]) -> u32
    requires { commits (lists_of records.now) < 2 ^ 32 }
    ensures { result ≡ ok_commands (lists_of records.now) }
{
    let mut count = 0;
    for i in 0..records.len() {
        count += ok_commands_of(&records[i]);
    }
    count
}

fn ok_commands_of(list: &Records) -> u32
    requires { length list.now.items < 2 ^ 32 }
    ensures { result ≡ count_by is_ok_command list.now.items }
{
    let mut count = 0;
    for i in 0..list.len() {
        if is_ok_command(list.head(i)) {
            count += 1;
        }
    }
    count
}

fn is_ok_command(head: &Head) -> bool
    ensures { result ≡ is_ok_command (bare_record head.now) }
{
    match head.mark {
        Mark::Command(_) => all_ok(&head.answer),
        Mark::End => false,
    }
}

// Whether the reply's items are all `ok`.
fn all_ok(answer: &Answer) -> bool
    ensures { result ≡ all_ok answer.now }
{
    match answer {
        Answer::Reply(Reply::Unit) => true,
        Answer::Reply(Reply::Many(items)) => are_ok(items),
        _ => false,
    }
}

fn are_ok(items: &Items) -> bool
    ensures { result ≡ list_all is_ok_item items.now }
{
    for i in 0..items.len() {
        if !is_ok_item(items.get(i)) {
            return false;
        }
    }
    true
}

fn is_ok_item(item: Item) -> bool
    ensures { result ≡ is_ok_item item }
{
    match item {
        Item::Unit => true,
        _ => false,
    }
}
