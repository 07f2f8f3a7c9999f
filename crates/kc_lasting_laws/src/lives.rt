//! Why no descriptor comes to its last life in an era. The laws do nothing: the contract is the law.

ghost use Rattle.std.specs.Prelude.{◌≡◌, ◌<◌, ◌≤◌, ℕ, ◌+◌, ◌*◌, ◌^◌, List};
ghost use Rattle.kc_lasting_laws.specs.Lives.{commits_by};
ghost use Rattle.kc_lasting_laws.specs.Tried.{BeginsNoCommit, MakesTries, others_in};
ghost use Rattle.kc_lasting_laws.specs.kc_machine.Machine.{Opening, run};
ghost use Rattle.kc_lasting_laws.specs.kc_machine_steps.declared.task.Event.{Event};
ghost use Rattle.kc_machine_invariants.specs.Holds.{sum_below};
ghost use Rattle.kc_machine_invariants.specs.kc_machine_words.declared.words.TheConstants.{LAST_GENERATION};
ghost use Rattle.kc_store.specs.kc_table_laws.Tasks.{KeepsKnown};
ghost use Rattle.kc_store.specs.kc_table_moves.Views.{Learns, SeatView, knows};

/// In every schedule a descriptor has begun no more lives than all seats have begun commits, lost and given up ones counted.
pub fn lives_are_commits()
    ensures { (o : Opening) (schedule : List Event) (d : ℕ) → ((run o schedule).world.control d).generation ≤ o.generation + sum_below (λ k. commits_by k schedule) o.callers }
{}

/// A try begins two commits at most, a lesson none. And of a seat's tries no more are lost than others' entries came to be known to
/// it meanwhile: each lost one has one of its own, which was unknown as the try began.
pub fn tries_begin_few_commits()
    ensures begins { (v : SeatView) (n l : ℕ) (w : SeatView) → MakesTries v n l w → commits_by v.number w.past ≤ commits_by v.number v.past + 2 * n }
    ensures lost { (v : SeatView) (n l : ℕ) (w : SeatView) → MakesTries v n l w → l + others_in v.number (knows v) ≤ others_in v.number (knows w) }
    ensures learns { (v w : SeatView) → Learns v w → KeepsKnown v w → BeginsNoCommit v w }
{}

/// So in an era of up to 64 callers, of which none begins more commits than 2^32 tries may, no descriptor comes to its last life.
pub fn lives_suffice()
    ensures { (o : Opening) (schedule : List Event) (n d : ℕ) → o.callers ≤ 64 → o.generation ≡ 0 → n ≤ 2 ^ 32 → ((k : ℕ) → k < o.callers → commits_by k schedule ≤ 2 * n) → ((run o schedule).world.control d).generation < LAST_GENERATION }
{}
