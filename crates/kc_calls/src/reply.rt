//! What C is told.

ghost use Rattle.std.specs.Prelude.{◌≡◌, length, slice_get};
ghost use Rattle.kc_calls.specs.Told.{replies_told, told_item, told_or_none};
ghost use Rattle.kc_term.specs.Meaning.{items_of};

use kc_model::{Item, Reply};

/// One reply.
#[repr(C)]
#[derive(Clone, Copy)]
pub struct KcasReply {
    /// 0 nothing, 1 done, 2 a value, 3 a truth, 4 empty, 5 full.
    pub kind: u32,
    /// The value; of a truth 1 or 0; else 0.
    pub value: u32,
}

/// There is no reply here.
pub(crate) const NONE: u32 = 0;

pub(crate) const UNIT: u32 = 1;

pub(crate) const VALUE: u32 = 2;

pub(crate) const BOOL: u32 = 3;

pub(crate) const EMPTY: u32 = 4;

pub(crate) const FULL: u32 = 5;

/// Writes what was replied: the items of the reply in their order, and nothing behind them. Of more items than there
/// is room for the first are written.
pub fn tell(reply: &Reply, replies: &mut [KcasReply])
    ensures { replies.new ≡ replies_told (items_of reply.now) (length replies.old) }
{
    for i in 0..replies.len() {
        replies[i] = reply_at(reply, i);
    }
}

fn reply_at(reply: &Reply, index: usize) -> KcasReply
    ensures { result ≡ told_or_none (slice_get (items_of reply.now) index) }
{
    match item_at(reply, index) {
        Some(item) => told(item),
        None => KcasReply {
            kind: NONE,
            value: 0,
        },
    }
}

pub(crate) fn item_at(reply: &Reply, index: usize) -> Option<Item>
    ensures { result ≡ slice_get (items_of reply.now) index }
{
    match reply {
        Reply::Many(items) if index < items.len() as usize => Some(items.get(index as u32)),
        Reply::Unit if index == 0 => Some(Item::Unit),
        Reply::Value(value) if index == 0 => Some(Item::Value(*value)),
        Reply::Bool(yes) if index == 0 => Some(Item::Bool(*yes)),
        Reply::Empty if index == 0 => Some(Item::Empty),
        Reply::Full if index == 0 => Some(Item::Full),
        _ => None,
    }
}

pub(crate) fn told(item: Item) -> KcasReply
    ensures { result ≡ told_item item }
{
    match item {
        Item::Unit => KcasReply {
            kind: UNIT,
            value: 0,
        },
        Item::Value(value) => KcasReply { kind: VALUE, value },
        Item::Bool(yes) => KcasReply {
            kind: BOOL,
            value: yes as u32,
        },
        Item::Empty => KcasReply {
            kind: EMPTY,
            value: 0,
        },
        Item::Full => KcasReply {
            kind: FULL,
            value: 0,
        },
    }
}
