//! The definitions, computed on worked scripts and their records by hand.

ghost use Rattle.std.specs.Prelude.{◌≡◌, ◌∷◌, [], codes, slice_index_or, Some, None};
ghost use Rattle.kc_model.specs.declared.reply.Reply.TheVariants as reply;
ghost use Rattle.kc_xt.specs.Meaning.{replied, retried, too_large};
ghost use Rattle.kc_xt.specs.Commit.{run_on};
ghost use Rattle.kc_script_bundle.specs.Meaning.{thread_meaning, end_meaning};
ghost use Rattle.kc_script_bundle.specs.declared.operation.Command.TheVariants as command;
ghost use Rattle.kc_script_bundle.specs.State.{opening_values};
ghost use Rattle.kc_history.specs.Callers.{of_caller, record_entries, record_entry};
ghost use Rattle.kc_script_runs.specs.Labels.{ThreadsHaveRecords};
ghost use Rattle.kc_script_runs.specs.Looks.{GivesBehindLooks, IsWithoutLooks};
ghost use Rattle.kc_script_runs.specs.Run.{run_text};
ghost use Rattle.kc_script_runs.specs.Threads.{asked};
ghost use Rattle.kc_script_runs.specs.Worked.{first_script, first_records, first_order, first_last, first_contents, waits_for_nine, one_lives, looks_at_x_and_live, two_script, two_records, two_order, two_contents, two_history, missed, met, look_and_commit, waited_history, commits_alone, one_live, first_flagged, cancels_first, waits_for_one, cancel_script, cancel_records, cancel_order, cancel_contents, holding, look_touch, write_touch, cancels_and_waits};

/// One thread: what it has is numbered, its text is the printed one, and it opens with one live thread.
pub fn first_script_by_hand()
    ensures text { run_text first_script first_records first_order first_contents ≡ codes "1.1 5\n1.2 ok\n1.3 7\norder\n1.1\n1.2\n1.3\n1.end\nstate\nx 8\n" }
    ensures threads { ThreadsHaveRecords 1 first_script.threads first_records }
    ensures opening { opening_values first_script ≡ 1 ∷ 5 ∷ [] }
{}

/// A thread's command that waits for x to have 9, on the store behind the first script, where x has 8 and no thread
/// lives, and on one where one thread lives.
pub fn waiting_by_hand()
    ensures stranded { run_on (thread_meaning 0 1 waits_for_nine) one_lives ≡ record { outcome = replied reply.Stranded; touches = looks_at_x_and_live } }
    ensures waits { run_on (thread_meaning 0 1 waits_for_nine) first_last ≡ record { outcome = retried; touches = looks_at_x_and_live } }
    ensures end { run_on (end_meaning 0) one_lives ≡ record { outcome = replied reply.Unit; touches = record { cell = 0; wrote = None } ∷ record { cell = 0; wrote = Some 0 } ∷ [] } }
{}

/// Two threads: the one that looks stands first, though its number is the higher one, and the history has just their
/// records.
pub fn two_threads_by_hand()
    ensures text { run_text two_script two_records two_order two_contents ≡ codes "1.1 0\n2.1 0\norder\n2.1\n1.1\n1.end\n2.end\nstate\nx 1\n" }
    ensures threads { ThreadsHaveRecords 1 two_script.threads two_records }
    ensures opening { opening_values two_script ≡ 2 ∷ 0 ∷ [] }
    ensures first { of_caller 0 two_history ≡ record_entries 0 1 (slice_index_or two_records 0 []) }
    ensures second { of_caller 1 two_history ≡ record_entries 1 1 (slice_index_or two_records 1 []) }
    ensures third { of_caller 2 two_history ≡ [] }
{}

/// A second caller checks that x is 9: while it has 8, which is a look, and when the first one has set it, which is its
/// commit. The look stands before its commit, and puts nothing; without it the history has two commits.
pub fn a_look_and_a_commit_by_hand()
    ensures own { of_caller 1 waited_history ≡ look_and_commit }
    ensures given { GivesBehindLooks 1 (thread_meaning 0 2 waits_for_nine) [] met look_and_commit }
    ensures behind { GivesBehindLooks 1 (thread_meaning 0 2 waits_for_nine) [] missed look_and_commit → ⊥ }
    ensures without { IsWithoutLooks waited_history commits_alone }
    ensures numbered { of_caller 1 commits_alone ≡ record_entry 1 1 met ∷ [] }
{}

/// One thread cancels itself: its next command that would wait is cancelled, and the one behind it is stranded, since
/// the flag was cleared.
pub fn a_cancel_by_hand()
    ensures text { run_text cancel_script cancel_records cancel_order cancel_contents ≡ codes "1.1 ok\n1.2 cancelled\n1.3 0\n1.4 stranded\norder\n1.1\n1.2\n1.3\n1.4\n1.end\nstate\nx 0\n" }
    ensures threads { ThreadsHaveRecords 1 cancel_script.threads cancel_records }
    ensures sets { run_on (thread_meaning 0 1 (command.One cancels_first)) (holding one_live) ≡ record { outcome = replied reply.Unit; touches = look_touch 0 ∷ write_touch 0 first_flagged ∷ [] } }
    ensures cancelled { run_on (thread_meaning 0 1 (command.One waits_for_one)) (holding first_flagged) ≡ record { outcome = replied reply.Cancelled; touches = look_touch 1 ∷ look_touch 0 ∷ write_touch 0 one_live ∷ [] } }
    ensures stranded { run_on (thread_meaning 0 1 (command.One waits_for_one)) (holding one_live) ≡ record { outcome = replied reply.Stranded; touches = look_touch 1 ∷ look_touch 0 ∷ [] } }
{}

/// A command that would wait, where the flag of another thread is set: it is stranded by the number of live threads
/// alone, it waits where two live, and the end of a thread leaves the flag. A cancel in a block that would wait is given
/// up with the block: it doesn't cancel it. And a command without room for location 0 is too large, whatever its flag.
pub fn flags_by_hand()
    ensures stranded { run_on (thread_meaning 0 1 (command.One waits_for_one)) (holding 131073) ≡ record { outcome = replied reply.Stranded; touches = look_touch 1 ∷ look_touch 0 ∷ [] } }
    ensures waits { run_on (thread_meaning 0 1 (command.One waits_for_one)) (holding 131074) ≡ record { outcome = retried; touches = look_touch 1 ∷ look_touch 0 ∷ [] } }
    ensures own { run_on (thread_meaning 0 2 (command.One waits_for_one)) (holding 131074) ≡ record { outcome = replied reply.Cancelled; touches = look_touch 1 ∷ look_touch 0 ∷ write_touch 0 2 ∷ [] } }
    ensures end { run_on (end_meaning 0) (holding 131074) ≡ record { outcome = replied reply.Unit; touches = look_touch 0 ∷ write_touch 0 131073 ∷ [] } }
    ensures given_up { run_on (thread_meaning 0 1 cancels_and_waits) (holding one_live) ≡ record { outcome = replied reply.Stranded; touches = look_touch 0 ∷ look_touch 0 ∷ look_touch 1 ∷ look_touch 0 ∷ [] } }
    ensures large { run_on (asked 1 1 (command.One waits_for_one)) (holding first_flagged) ≡ record { outcome = too_large; touches = look_touch 1 ∷ [] } }
{}
