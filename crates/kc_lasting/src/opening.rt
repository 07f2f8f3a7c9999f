//! Openings of a store that lasts.

ghost use Rattle.std.specs.Prelude.{◌≡◌, ◌≤◌, ◌<◌, ◌+◌, ◌++◌, ◌∷◌, [], ◌⊎◌, ◌↔◌, ℕ, length, replicate, All, IfOk, Err};
ghost use Rattle.std.specs.Arc.{arc_value};
ghost use Rattle.kc_lasting.specs.Eras.{first_line};
ghost use Rattle.kc_lasting.specs.Kept.{ErasKept};
ghost use Rattle.kc_lasting.specs.Opening.{IsFirst, IsFirstClient, OpensLasting};
ghost use Rattle.kc_model.specs.declared.plain_store.TheConstants.{MOST_LOCATIONS};

use crate::client::Fresh;
use crate::eras::Eras;
use crate::handle::LastingCaller;
use crate::line::Line;
use crate::renewing::{copied, first_of};
use crate::shared::{Place, Shared};
use kc_model::{LAST_VERSION, MOST_LOCATIONS, OpenError};
use kc_roll::{Page, Roll};
use kc_store::{Caller, LAST_GENERATION, Store};
use std::alloc::{AllocError, Global};
use std::sync::Arc;

// How many puts of a location are left for those that commit while one cuts, and for the cut's own.
const SPARE: u32 = 1_000;

// How many callers a store may have. One of them is kept for the cuts.
const MOST_CALLERS: u32 = 64;

/// A store with these values at version 0, and its callers: 1 to 63.
///
/// # Errors
///
/// - TooManyCallers: exactly for none, or above 63
/// - TooManyLocs: else, exactly above 65,535 values
/// - NoMemory
pub fn open(alloc: Global, values: &[u32], callers: u32) -> Result<Vec<LastingCaller>, OpenError>
    ensures opens { IfOk result (λ v. OpensLasting values.now (replicate (length values.now) 0) callers v.items) }
    ensures callers { (result ≡ Err OpenError.TooManyCallers) ↔ ((callers ≡ 0) ⊎ (63 < callers)) }
    ensures locations { (result ≡ Err OpenError.TooManyLocs) ↔ ((0 < callers) × (callers ≤ 63) × (MOST_LOCATIONS ≤ length values.now)) }
{
    may_open(values.len(), callers)?;
    let share = ((LAST_VERSION - SPARE) / callers) as u64;
    let versions = vec![in alloc; 0; values.len()]?;
    Ok(opened_at(
        alloc,
        values,
        versions.as_slice(),
        callers,
        0,
        (share, share),
    )?)
}

/// A store with these values at these versions, whose descriptors begin at this generation, and its callers. Each makes `first`
/// commits before it asks for a new era, and `share` in each further one.
///
/// # Errors
///
/// As for `open`.
pub fn open_at(
    alloc: Global,
    values: &[u32],
    versions: &[u32],
    callers: u32,
    generation: u64,
    first: u64,
    share: u64,
) -> Result<Vec<LastingCaller>, OpenError>
    requires versions { (length versions.now ≡ length values.now) × All (λ v. v ≤ LAST_VERSION) versions.now }
    requires generation { generation ≤ LAST_GENERATION }
    ensures opens { IfOk result (λ v. OpensLasting values.now versions.now callers v.items) }
    ensures callers { (result ≡ Err OpenError.TooManyCallers) ↔ ((callers ≡ 0) ⊎ (63 < callers)) }
    ensures locations { (result ≡ Err OpenError.TooManyLocs) ↔ ((0 < callers) × (callers ≤ 63) × (MOST_LOCATIONS ≤ length values.now)) }
{
    may_open(values.len(), callers)?;
    let shares = (first, share);
    Ok(opened_at(alloc, values, versions, callers, generation, shares)?)
}

// Whether a store may have so many locations and handles.
fn may_open(locations: usize, callers: u32) -> Result<(), OpenError>
    ensures ok { IfOk result (λ _. (0 < callers) × (callers ≤ 63) × (locations < MOST_LOCATIONS)) }
    ensures callers { (result ≡ Err OpenError.TooManyCallers) ↔ ((callers ≡ 0) ⊎ (63 < callers)) }
    ensures locations { (result ≡ Err OpenError.TooManyLocs) ↔ ((0 < callers) × (callers ≤ 63) × (MOST_LOCATIONS ≤ locations)) }
{
    if callers == 0 {
        return Err(OpenError::TooManyCallers);
    }
    if callers >= MOST_CALLERS {
        return Err(OpenError::TooManyCallers);
    }
    if locations >= MOST_LOCATIONS {
        return Err(OpenError::TooManyLocs);
    }
    Ok(())
}

// The store has one location more, the flag, and one caller more, the keeper.
fn opened_at(
    alloc: Global,
    values: &[u32],
    versions: &[u32],
    callers: u32,
    generation: u64,
    shares: (u64, u64),
) -> Result<Vec<LastingCaller>, AllocError>
    requires callers { (0 < callers) × (callers ≤ 63) }
    requires locations { length values.now < MOST_LOCATIONS }
    requires versions { (length versions.now ≡ length values.now) × All (λ v. v ≤ LAST_VERSION) versions.now }
    requires generation { generation ≤ LAST_GENERATION }
    ensures { IfOk result (λ v. OpensLasting values.now versions.now callers v.items) }
{
    let all = with_one_more(alloc, values)?;
    let at = with_one_more(alloc, versions)?;
    let opened = Store::open_at(
        alloc,
        all.as_slice(),
        at.as_slice(),
        callers + 1,
        generation,
    );
    let (store, dealt) = match opened {
        Ok(pair) => pair,
        Err(_) => return Err(AllocError),
    };
    let (roll, eras, clients) = first_of(alloc, store, dealt, values.len() as u32, callers)?;
    let given = handles(alloc, roll, eras, clients, callers, shares)?;
    Ok(given)
}

fn with_one_more(alloc: Global, numbers: &[u32]) -> Result<Vec<u32>, AllocError>
    ensures { IfOk result (λ v. v.items ≡ numbers.now ++ 0 ∷ []) }
{
    let mut all = copied(alloc, numbers)?;
    all.push(0)?;
    Ok(all)
}

// A handle for each client.
fn handles(
    alloc: Global,
    roll: Roll<Line>,
    eras: Eras,
    clients: Vec<Fresh>,
    callers: u32,
    shares: (u64, u64),
) -> Result<Vec<LastingCaller>, AllocError>
    requires few { callers ≤ 63 }
    requires kept { ErasKept roll eras }
    requires lines { eras.page.seen ≡ first_line eras.keeper.caller.of ∷ [] }
    requires clients { All (IsFirstClient eras.keeper.caller.of) clients.items }
    ensures count { IfOk result (λ v. length v.items ≡ length clients.items) }
    ensures all { IfOk result (λ v. All (IsFirst roll eras.keeper.caller.of) v.items) }
{
    let mut eras = eras;
    let mut base = roll.again(&mut eras.page);
    let shared = Arc::new(alloc, Shared::of(alloc, eras, roll)?)?;
    let mut given = Vec::with_capacity(alloc, clients.len())?;
    let mut number: u32 = 0;
    for fresh in clients {
        let page = shared.roll.again(&mut base);
        let share = Arc::try_clone(&shared)?;
        given.push(handle_of(share, fresh, number, page, shares))?;
        number = number.saturating_add(1);
    }
    Ok(given)
}

// The handle of a client of the first era.
fn handle_of(
    shared: Arc<Shared, Global>,
    fresh: Fresh,
    number: u32,
    page: Page<Line>,
    shares: (u64, u64),
) -> LastingCaller
    requires of { page.of ≡ (arc_value shared).roll }
    requires lines { page.seen ≡ first_line fresh.client.caller.of ∷ [] }
    ensures caller { result.client ≡ fresh.client }
    ensures place { (result.place.era ≡ 0) × (result.place.page ≡ page) }
    ensures shared { result.shared ≡ shared }
{
    let Fresh { client } = fresh;
    let place = Place {
        number,
        era: 0,
        left: shares.0,
        share: shares.1,
        page,
    };
    LastingCaller {
        shared,
        client,
        place,
    }
}
