//! What the tests need, taken before the first of them.

ghost use Rattle.std.specs.Prelude.{◌≡◌, ◌≤◌, [], All, IfOk, length, vec_capacity};
ghost use Rattle.kc_model.specs.Store.{opened};
ghost use Rattle.kc_model.specs.declared.plain_store.TheConstants.{MOST_LOCATIONS};
ghost use Rattle.kc_model.specs.declared.footprint.TheConstants.{MOST};
ghost use Rattle.kc_script_bundle.specs.declared.bundle.TheConstants.{MOST_COMMANDS};
ghost use Rattle.kc_script_bundle.specs.Script.{names_of, script_of};
ghost use Rattle.kc_check.specs.Reads.{HaveSpace};
ghost use Rattle.kc_check.specs.Replays.{HaveRoom, commands_of};

use crate::check::Said;
use kc_history::Records;
use kc_model::{ModelError, NoMemory, PlainStore};
use kc_script_bundle::{Bundle, Command};
use std::alloc::{AllocError, Global};

/// The store with these values.
pub(crate) fn open_store(alloc: Global, values: &[u32]) -> Result<PlainStore, NoMemory>
    requires { length values.now ≤ MOST_LOCATIONS }
    ensures { IfOk result (λ store. store ≡ opened values.now) }
{
    match PlainStore::open(alloc, values) {
        Ok(store) => Ok(store),
        Err(ModelError::NoMemory) => Err(NoMemory),
        Err(ModelError::TooManyLocs) => unreachable!("there is room for the values"),
    }
}

/// Room for the footprint of each command and each end, of at most so many locations each.
pub(crate) fn rooms(
    alloc: Global,
    threads: &[Vec<Command>],
    limit: u32,
) -> Result<Vec<Records>, AllocError>
    requires limit { limit ≤ MOST }
    requires commands { All (λ v. length v.items ≤ MOST_COMMANDS) threads.now }
    ensures room { IfOk result (λ v. HaveRoom limit 1 (commands_of threads.now) v.items) }
    ensures empty { IfOk result (λ v. All (λ r. r.items ≡ []) v.items) }
{
    let mut all = Vec::with_capacity(alloc, threads.len())?;
    for i in 0..threads.len() {
        let commands = threads[i].len();
        let list = Records::open_prints(alloc, commands as u32 + 1, limit)?;
        all.push(list)?;
    }
    Ok(all)
}

// Room for a number for each command.
fn spaces(alloc: Global, threads: &[Vec<Command>]) -> Result<Vec<Vec<u32>>, AllocError>
    ensures { IfOk result (λ v. HaveSpace (commands_of threads.now) v.items) }
{
    let mut all = Vec::with_capacity(alloc, threads.len())?;
    for i in 0..threads.len() {
        let starts = Vec::with_capacity(alloc, threads[i].len())?;
        all.push(starts)?;
    }
    Ok(all)
}

/// Room for what a text of the bundle says, which has so many places.
pub(crate) fn space_for<'a>(
    alloc: Global,
    bundle: &Bundle,
    count: usize,
) -> Result<Said<'a>, AllocError>
    ensures replies { IfOk result (λ said. HaveSpace (script_of bundle.now).threads said.replies.items) }
    ensures places { IfOk result (λ said. (said.places.items ≡ []) × (count ≤ vec_capacity said.places)) }
    ensures state { IfOk result (λ said. (said.state.items ≡ []) × (length (names_of bundle.now.objects) ≤ vec_capacity said.state)) }
{
    Ok(Said {
        replies: spaces(alloc, &bundle.threads)?,
        places: Vec::with_capacity(alloc, count)?,
        state: Vec::with_capacity(alloc, bundle.objects.len())?,
    })
}
