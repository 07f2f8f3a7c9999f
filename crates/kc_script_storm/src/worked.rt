//! The definitions, computed on the first commands of a storm and on some records by hand.

ghost use Rattle.std.specs.Prelude.{◌≡◌, Some, slice_get};
ghost use Rattle.kc_script_storm.specs.Storm.{storm_thread};
ghost use Rattle.kc_script_storm.specs.Summary.{commits, ok_commands};
ghost use Rattle.kc_script_storm.specs.Worked.{bumps, modifies, increments, transfers, some_records};

/// With which commands the four threads of the storm of number 0 begin.
pub fn first_commands_by_hand()
    ensures first { slice_get (storm_thread 0 1) 0 ≡ Some bumps }
    ensures second { slice_get (storm_thread 0 2) 0 ≡ Some modifies }
    ensures third { slice_get (storm_thread 0 3) 0 ≡ Some increments }
    ensures fourth { slice_get (storm_thread 0 4) 0 ≡ Some transfers }
{}

/// Of seven commits, with replies of every kind, two are commands that reply `ok` alone: an end is none.
pub fn counts_by_hand()
    ensures commits { commits some_records ≡ 7 }
    ensures oks { ok_commands some_records ≡ 2 }
{}
