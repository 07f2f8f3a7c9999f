//! What C calls to lay out structures.

ghost use Rattle.std.specs.Prelude.{◌≡◌};
ghost use Rattle.kc_c.specs.Structures.{LaysNext, LaysOut};
ghost use Rattle.kc_calls.specs.Structures.{cells_of, structure_of};

use crate::answers::{BAD_SIZE, DONE};
use kc_calls::{KcasObject, cells, opening};
use kc_model::MOST_LOCATIONS;

/// How many cells a structure has; 0 where there is no such structure.
#[unsafe(no_mangle)]
pub extern "C" fn kcas_cells(object: &KcasObject) -> u32
    ensures { result ≡ cells_of (structure_of object.now) }
{
    cells(*object)
}

/// Writes what the cells of a structure open with to the first of these values: DONE. BAD_SIZE, and the values stay as they were,
/// where there is no such structure, and where they have no room for its cells.
#[unsafe(no_mangle)]
pub extern "C" fn kcas_opening(object: &KcasObject, values: &mut [u32]) -> u32
    ensures { LaysOut (structure_of object.now) values.old result values.new }
{
    if opening(*object, values) {
        DONE
    } else {
        BAD_SIZE
    }
}

/// Lays a structure right behind the first `end` values: its base is `end`, the values from there on are what its cells open with,
/// and `end` is behind them: DONE. BAD_SIZE, and nothing changes, where there is no such structure, the values have no room for its
/// cells, or they are more than 65,536.
#[unsafe(no_mangle)]
pub extern "C" fn kcas_lay(object: &mut KcasObject, values: &mut [u32], end: &mut u32) -> u32
    ensures { LaysNext object.old values.old end.old result object.new values.new end.new }
{
    let first = *end as usize;
    if values.len() > MOST_LOCATIONS || first > values.len() {
        return BAD_SIZE;
    }
    let placed = KcasObject {
        base: *end,
        ..*object
    };
    let (_, free) = values.split_at_mut(first);
    if !opening(placed, free) {
        return BAD_SIZE;
    }
    *object = placed;
    *end += cells(placed);
    DONE
}
