//! Prints what a commit came to.

use anyhow::Result;
use kc_model::{Footprint, Item, Reply};
use kc_xt::Tried;

/// Prints the answer; where the commit would wait, also which locations it waits for.
pub fn tells(rt: &impl Print, what: &str, tried: &Tried, footprint: &Footprint) -> Result<()> {
    print!(rt; "{what}: ")?;
    match tried {
        Tried::Done(reply) => tells_reply(rt, reply)?,
        Tried::Later => tells_waited(rt, footprint)?,
        Tried::TooLarge => print!(rt; "too large")?,
        Tried::Busy => print!(rt; "busy")?,
        Tried::Worn(loc) => print!(rt; "location {} is worn", loc.0)?,
    }
    println!(rt; "")?;
    Ok(())
}

fn tells_waited(rt: &impl Print, footprint: &Footprint) -> Result<()> {
    print!(rt; "later, when location")?;
    for (index, read) in footprint.reads.as_slice().iter().enumerate() {
        let or = if index == 0 { "" } else { " or" };
        print!(rt; "{or} {}", read.loc.0)?;
    }
    print!(rt; " changes")?;
    Ok(())
}

fn tells_reply(rt: &impl Print, reply: &Reply) -> Result<()> {
    match reply {
        Reply::Unit => print!(rt; "done")?,
        Reply::Value(value) => print!(rt; "{value}")?,
        Reply::Bool(truth) => print!(rt; "{truth}")?,
        Reply::Empty => print!(rt; "none")?,
        Reply::Full => print!(rt; "full")?,
        Reply::Stranded => print!(rt; "stranded")?,
        Reply::Cancelled => print!(rt; "cancelled")?,
        Reply::Many(items) => {
            for index in 0..items.len() {
                if index > 0 {
                    print!(rt; " ")?;
                }
                tells_item(rt, items.get(index))?;
            }
        }
    }
    Ok(())
}

fn tells_item(rt: &impl Print, item: Item) -> Result<()> {
    match item {
        Item::Unit => print!(rt; "done")?,
        Item::Value(value) => print!(rt; "{value}")?,
        Item::Bool(truth) => print!(rt; "{truth}")?,
        Item::Empty => print!(rt; "none")?,
        Item::Full => print!(rt; "full")?,
    }
    Ok(())
}
