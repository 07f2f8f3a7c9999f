//! Opening a store, each handle as one of its callers.

ghost use Rattle.std.specs.Prelude.{◌≡◌, ◌≤◌, ◌<◌, ◌⊎◌, ◌↔◌, Err, IfOk, false, length};
ghost use Rattle.std.specs.Arc.{arc_value};
ghost use Rattle.kc_c.specs.Clients.{AreOpened, IsNew, OpensAll, some_open};
ghost use Rattle.kc_hang.specs.kc_machine.declared.machine.TheConstants.{MOST_CALLERS};
ghost use Rattle.kc_model.specs.declared.plain_store.TheConstants.{MOST_LOCATIONS};
ghost use Rattle.kc_store.specs.Views.{opened_callers};

use crate::client::Client;
use crate::handle::KcasCaller;
use crate::standing::Standing;
use kc_model::{Footprint, MOST_LOCATIONS, OpenError};
use kc_store::{Caller, Store};
use kc_xt::Trial;
use std::alloc::{AllocError, Global};
use std::sync::Arc;

// More handles than a store has callers.
const TOO_MANY: usize = 65;

/// Whether one of them holds a client.
pub(crate) fn some_is_open(handles: &mut [KcasCaller]) -> bool
    ensures value { result ≡ some_open handles.old }
    ensures same { handles.new ≡ handles.old }
{
    for handle in handles.iter_mut() {
        if handle.is_open() {
            return true;
        }
    }
    false
}

/// A store with these values, and each handle as one of its callers, in order. Where it fails some of them may hold a client.
///
/// # Errors
///
/// - TooManyLocs: exactly above 65,536 values
/// - TooManyCallers: else, exactly for no handle or more than 64
/// - NoMemory
#[tactic(auto, using(crate::proofs::Opened::opened_length))]
pub(crate) fn open_all(
    alloc: Global,
    values: &[u32],
    handles: &mut [KcasCaller],
) -> Result<(), OpenError>
    ensures ok { IfOk result (λ _. OpensAll values.now handles.new) }
    ensures count { length handles.new ≡ length handles.old }
    ensures locations { (result ≡ Err OpenError.TooManyLocs) ↔ (MOST_LOCATIONS < length values.now) }
    ensures callers { (result ≡ Err OpenError.TooManyCallers) ↔ ((length values.now ≤ MOST_LOCATIONS) × ((length handles.old ≡ 0) ⊎ (MOST_CALLERS < length handles.old))) }
{
    if values.len() > MOST_LOCATIONS {
        return Err(OpenError::TooManyLocs);
    }
    let (store, callers) = Store::open(alloc, values, handles.len().min(TOO_MANY) as u32)?;
    let Ok(shared) = Arc::new(alloc, store) else {
        return Err(OpenError::NoMemory);
    };
    deal(alloc, &shared, callers, values.len() as u32, handles)?;
    Ok(())
}

// To each handle the caller of its number.
fn deal(
    alloc: Global,
    store: &Arc<Store, Global>,
    callers: Vec<Caller>,
    locations: u32,
    handles: &mut [KcasCaller],
) -> Result<(), AllocError>
    requires callers { callers.items ≡ opened_callers (arc_value store.now) 0 (length handles.old) }
    requires count { length callers.items ≡ length handles.old }
    requires few { length handles.old ≤ MOST_CALLERS }
    requires size { locations ≡ (arc_value store.now).locations }
    requires most { locations ≤ MOST_LOCATIONS }
    ensures ok { IfOk result (λ _. AreOpened (arc_value store.now) 0 handles.new) }
    ensures count { length handles.new ≡ length handles.old }
{
    let mut number = 0;
    for caller in callers {
        let share = Arc::try_clone(store)?;
        let client = client_of(share, caller, locations, number);
        handles[number as usize].put(Box::new(alloc, client)?);
        number += 1;
    }
    Ok(())
}

// A client that rests and has read nothing.
fn client_of(store: Arc<Store, Global>, caller: Caller, locations: u32, number: u32) -> Client
    requires of { caller.of ≡ arc_value store }
    requires number { caller.number ≡ number }
    requires size { locations ≡ (arc_value store).locations }
    requires most { locations ≤ MOST_LOCATIONS }
    ensures { IsNew (arc_value store) caller result }
{
    Client {
        store,
        standing: Standing::Rests(caller),
        footprint: Footprint::new(),
        trial: Trial::new(),
        locations,
        number,
    }
}

/// Lets go of what the handles hold.
pub(crate) fn close_all(alloc: Global, handles: &mut [KcasCaller])
    ensures closed { some_open handles.new ≡ false }
    ensures count { length handles.new ≡ length handles.old }
{
    for handle in handles.iter_mut() {
        handle.close(alloc);
    }
}
