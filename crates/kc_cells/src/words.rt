//! A number of 64 bits by its two words: what each operation does on a log.

ghost use Rattle.std.specs.Prelude.{◌≡◌, ◌≤◌, ◌<◌, ◌^◌, [], ◌∷◌, ℕ, IfSome, Some};
ghost use Rattle.kc_cells.specs.Wide.{high_word, low_word, two_words, wide_cells_end, wide_program, wide_reply, words_reply};
ghost use Rattle.kc_model.specs.declared.reply.Item.TheVariants as item;
ghost use Rattle.kc_xt.specs.Steps.{Does};

use crate::wide::{Wide, WideAct};
use kc_model::{Item, Items, Loc, Reply};
use kc_xt::{Peek, Stop, Xt};

/// How many cells there are.
pub(crate) const CELLS: u32 = 2;

/// One more than the largest word.
const WORD: u64 = 1 << 32;

pub(crate) fn get<P: Peek>(wide: Wide, xt: &mut Xt<P>) -> Result<Reply, Stop>
    requires { wide_cells_end wide ≤ P.locations xt.old.peek }
    ensures goes { Does P.peek_gives (wide_program wide WideAct.Get) xt.old result xt.new }
    ensures size { P.locations xt.new.peek ≡ P.locations xt.old.peek }
{
    let low = xt.get(wide.base)?;
    let high = xt.get(Loc(wide.base.0 + 1))?;
    Ok(words(low, high))
}

pub(crate) fn put<P: Peek>(wide: Wide, number: u64, xt: &mut Xt<P>) -> Result<Reply, Stop>
    requires { wide_cells_end wide ≤ P.locations xt.old.peek }
    ensures goes { Does P.peek_gives (wide_program wide (WideAct.Put number)) xt.old result xt.new }
    ensures size { P.locations xt.new.peek ≡ P.locations xt.old.peek }
{
    xt.set(wide.base, low_of(number))?;
    xt.set(Loc(wide.base.0 + 1), high_of(number))?;
    Ok(Reply::Unit)
}

pub(crate) fn add<P: Peek>(wide: Wide, amount: u64, xt: &mut Xt<P>) -> Result<Reply, Stop>
    requires { wide_cells_end wide ≤ P.locations xt.old.peek }
    ensures goes { Does P.peek_gives (wide_program wide (WideAct.Add amount)) xt.old result xt.new }
    ensures size { P.locations xt.new.peek ≡ P.locations xt.old.peek }
{
    let low = xt.get(wide.base)?;
    let high = xt.get(Loc(wide.base.0 + 1))?;
    let sum = number_of(low, high).wrapping_add(amount);
    xt.set(wide.base, low_of(sum))?;
    xt.set(Loc(wide.base.0 + 1), high_of(sum))?;
    Ok(words(low, high))
}

pub(crate) fn cas<P: Peek>(
    wide: Wide,
    before: u64,
    after: u64,
    xt: &mut Xt<P>,
) -> Result<Reply, Stop>
    requires { wide_cells_end wide ≤ P.locations xt.old.peek }
    ensures goes { Does P.peek_gives (wide_program wide (WideAct.Cas before after)) xt.old result xt.new }
    ensures size { P.locations xt.new.peek ≡ P.locations xt.old.peek }
{
    let low = xt.get(wide.base)?;
    let high = xt.get(Loc(wide.base.0 + 1))?;
    let number = number_of(low, high);
    if number == before {
        xt.set(wide.base, low_of(after))?;
        xt.set(Loc(wide.base.0 + 1), high_of(after))?;
        return Ok(Reply::Bool(true));
    }
    Ok(Reply::Bool(false))
}

/// The number that `Get` or `Add` replied; `None` of a reply that is not a number's two words.
pub fn number_in(reply: &Reply) -> Option<u64>
    ensures says { (n : ℕ) → n < 2 ^ 64 → reply.now ≡ wide_reply n → result ≡ Some n }
    ensures said { IfSome result (λ n. reply.now ≡ wide_reply n) }
{
    match reply {
        Reply::Many(items) => number_among(items),
        _ => None,
    }
}

// The number whose two words these items are.
fn number_among(items: &Items) -> Option<u64>
    ensures says { (n : ℕ) → n < 2 ^ 64 → items.now ≡ item.Value (low_word n) ∷ item.Value (high_word n) ∷ [] → result ≡ Some n }
    ensures said { IfSome result (λ n. items.now ≡ item.Value (low_word n) ∷ item.Value (high_word n) ∷ []) }
{
    if items.len() != 2 {
        return None;
    }
    match (items.get(0), items.get(1)) {
        (Item::Value(low), Item::Value(high)) => Some(number_of(low, high)),
        _ => None,
    }
}

// A reply of two words.
fn words(low: u32, high: u32) -> Reply
    ensures { result ≡ words_reply low high }
{
    let mut items = Items::new();
    items.push(Item::Value(low));
    items.push(Item::Value(high));
    Reply::Many(items)
}

// The number of two words.
pub(crate) fn number_of(low: u32, high: u32) -> u64
    ensures is { result ≡ two_words low high }
    ensures low { low_word result ≡ low }
    ensures high { high_word result ≡ high }
{
    low as u64 + high as u64 * WORD
}

fn low_of(number: u64) -> u32
    ensures { result ≡ low_word number }
{
    (number % WORD) as u32
}

fn high_of(number: u64) -> u32
    ensures { result ≡ high_word number }
{
    (number / WORD) as u32
}
