//! Commands on locations.

ghost use Rattle.std.specs.Prelude.{◌≡◌, map, length};
ghost use Rattle.kc_script_bundle.specs.Script.{names_of};
ghost use Rattle.kc_script_verbs.specs.Saying.{loc_arity, loc_named, loc_op};

use crate::named::{fun_at, rel_named, value_at};
use crate::objects::{as_loc, used};
use crate::verb::LocWord;
use indexmap::IndexMap;
use kc_loc::LocOp;
use kc_model::Loc;
use kc_script_bundle::Object;
use kc_script_lines::{Why, word_at};

// The location that the word names.
#[tactic(auto, unfolding(crate::specs::Saying::loc_named))]
fn loc_named(objects: &IndexMap<String, Object>, word: &[u8]) -> Result<Loc, Why>
    ensures { result ≡ loc_named (names_of objects.now) word.now }
{
    let object = used(objects, word)?;
    as_loc(object)
}

/// The operation on a location, by the words behind the location's name.
#[tactic(auto, unfolding(crate::specs::Saying::loc_op))]
pub fn loc_op(
    objects: &IndexMap<String, Object>,
    word: LocWord,
    at: Loc,
    args: &[&[u8]],
) -> Result<LocOp, Why>
    requires { length args.now ≡ loc_arity word }
    ensures { result ≡ loc_op (names_of objects.now) word at (map (λ word. word.now) args.now) }
{
    match word {
        LocWord::Get => Ok(LocOp::Get(at)),
        LocWord::Set => Ok(LocOp::Set(at, value_at(args, 1)?)),
        LocWord::Exchange => Ok(LocOp::Exchange(at, value_at(args, 1)?)),
        LocWord::Swap => Ok(LocOp::Swap(at, loc_named(objects, word_at(args, 1))?)),
        LocWord::Cas => Ok(LocOp::Cas(at, value_at(args, 1)?, value_at(args, 2)?)),
        LocWord::FetchAdd => Ok(LocOp::FetchAdd(at, value_at(args, 1)?)),
        LocWord::Incr => Ok(LocOp::Incr(at)),
        LocWord::Decr => Ok(LocOp::Decr(at)),
        LocWord::Update => Ok(LocOp::Update(at, fun_at(args)?)),
        LocWord::Modify => Ok(LocOp::Modify(at, fun_at(args)?)),
        LocWord::Check => Ok(LocOp::Check(at, rel_named(word_at(args, 1))?, value_at(args, 2)?)),
    }
}
