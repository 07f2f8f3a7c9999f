//! The items of replies.

ghost use Rattle.std.specs.Prelude.{◌≡◌, ◌+◌, ◌≤◌, ◌++◌, length};
ghost use Rattle.kc_term.specs.Meaning.{items_of};

use kc_model::{Item, Items, Reply};

// Puts the items of a reply behind others.
pub(crate) fn add(items: &mut Items, reply: Reply)
    requires { length items.old + length (items_of reply) ≤ 16 }
    ensures { items.new ≡ items.old ++ items_of reply }
{
    match reply {
        Reply::Unit => items.push(Item::Unit),
        Reply::Value(value) => items.push(Item::Value(value)),
        Reply::Bool(yes) => items.push(Item::Bool(yes)),
        Reply::Empty => items.push(Item::Empty),
        Reply::Full => items.push(Item::Full),
        Reply::Stranded | Reply::Cancelled => {}
        Reply::Many(more) => add_all(items, more),
    }
}

fn add_all(items: &mut Items, more: Items)
    requires { length items.old + length more ≤ 16 }
    ensures { items.new ≡ items.old ++ more }
{
    for i in 0..more.len() {
        items.push(more.get(i));
    }
}
