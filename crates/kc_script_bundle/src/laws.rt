//! What holds of commands, and of what the cells of objects stand for.

ghost use Rattle.std.specs.Prelude.{◌≡◌, ◌≢◌, ◌≤◌, ◌<◌, ◌+◌, ◌^◌, ◌==◌, ◌||◌, ◌&&◌, not, ℕ, List};
ghost use Rattle.kc_model.specs.declared.plain_store.TheConstants.{MOST_LOCATIONS};
ghost use Rattle.kc_model.specs.Store.{store_of, opened};
ghost use Rattle.kc_model.specs.declared.reply.Reply.TheVariants as reply;
ghost use Rattle.kc_xt.specs.Meaning.{too_large, map_after, values};
ghost use Rattle.kc_xt.specs.Program.{read, write, replies, meaning};
ghost use Rattle.kc_script_bundle.specs.declared.cancel.Cancel.{Cancel};
ghost use Rattle.kc_script_bundle.specs.declared.operation.Command.{Command};
ghost use Rattle.kc_script_bundle.specs.Script.{Names, Script, LieFrom, next_from};
ghost use Rattle.kc_script_bundle.specs.On.{CommandIsOn};
ghost use Rattle.kc_script_bundle.specs.Meaning.{cancel_meaning, command_meaning, command_end, CommandIsFit, thread_meaning, end_meaning};
ghost use Rattle.kc_script_bundle.specs.Live.{IsThreadNumber, live_threads, is_flagged, flagged, cleared};
ghost use Rattle.kc_script_bundle.specs.State.{Content, AllStand, AreWellFormed, opening_values, opening_contents, state_lines, state_text};

/// A command on objects that lie in order may be run where their cells are.
pub fn fits()
    ensures fit { (names : Names) (c : Command) → LieFrom 1 names → next_from 1 names ≤ MOST_LOCATIONS → CommandIsOn names c → CommandIsFit c }
    ensures end { (names : Names) (c : Command) → LieFrom 1 names → CommandIsOn names c → command_end c ≤ next_from 1 names }
{}

/// The flags of threads lie apart from each other and from the number of live threads: who sets one or clears it leaves
/// the others and the number.
pub fn flags_lie_apart()
    ensures set { (a b v : ℕ) → is_flagged a (flagged b v) ≡ (a == b || is_flagged a v) }
    ensures clear { (a b v : ℕ) → IsThreadNumber a → IsThreadNumber b → is_flagged a (cleared b v) ≡ (not (a == b) && is_flagged a v) }
    ensures count_set { (thread v : ℕ) → IsThreadNumber thread → live_threads (flagged thread v) ≡ live_threads v }
    ensures count_clear { (thread v : ℕ) → IsThreadNumber thread → live_threads (cleared thread v) ≡ live_threads v }
{}

/// A cancel reads its location, writes the value with the flag of its thread set, and replies `ok`.
pub fn cancels_set_their_flag()
    ensures { (c : Cancel) → cancel_meaning c ≡ meaning (read c.live.0 (λ v. write c.live.0 (flagged c.thread v) (replies reply.Unit))) }
{}

/// A command leaves the number of live threads, also where it is a thread's that would wait.
pub fn commands_leave_the_living()
    ensures command { (names : Names) (c : Command) (n : ℕ) (m : ℕ → ℕ) (ks : List ℕ) → LieFrom 1 names → CommandIsOn names c → live_threads (map_after m (command_meaning c n m ks).touches 0) ≡ live_threads (m 0) }
    ensures thread { (names : Names) (thread : ℕ) (c : Command) (n : ℕ) (m : ℕ → ℕ) (ks : List ℕ) → LieFrom 1 names → IsThreadNumber thread → CommandIsOn names c → live_threads (map_after m (thread_meaning 0 thread c n m ks).touches 0) ≡ live_threads (m 0) }
{}

/// A thread's end takes one off the number of live threads while one lives, and leaves all flags.
pub fn ends_take_one_away()
    ensures live { (n : ℕ) (m : ℕ → ℕ) (ks : List ℕ) → m 0 < 2 ^ 32 → 1 ≤ live_threads (m 0) → (end_meaning 0 n m ks).outcome ≢ too_large → live_threads (map_after m (end_meaning 0 n m ks).touches 0) + 1 ≡ live_threads (m 0) }
    ensures flags { (n : ℕ) (m : ℕ → ℕ) (ks : List ℕ) (thread : ℕ) → m 0 < 2 ^ 32 → 1 ≤ live_threads (m 0) → (end_meaning 0 n m ks).outcome ≢ too_large → IsThreadNumber thread → is_flagged thread (map_after m (end_meaning 0 n m ks).touches 0) ≡ is_flagged thread (m 0) }
{}

/// A command that isn't too large keeps the cells of all objects well formed.
pub fn keeps_well_formed()
    ensures { (names : Names) (c : Command) (n : ℕ) (m : ℕ → ℕ) (ks : List ℕ) → LieFrom 1 names → CommandIsOn names c → AreWellFormed names m → (command_meaning c n m ks).outcome ≢ too_large → AreWellFormed names (map_after m (command_meaning c n m ks).touches) }
{}

/// A script opens with locations that have their values, and with other objects that hold nothing.
pub fn opens_well_formed()
    ensures { (s : Script) → LieFrom 1 s.objects → AllStand s.objects (values (store_of (opened (opening_values s)))) (opening_contents s.objects) }
{}

/// Cells stand for one content at most.
pub fn contents_are_one()
    ensures { (names : Names) (m : ℕ → ℕ) (contents others : List Content) → AllStand names m contents → AllStand names m others → contents ≡ others }
{}

/// Cells that stand for contents show them, so that the lines of a state are those of its contents.
pub fn shows_its_contents()
    ensures { (names : Names) (m : ℕ → ℕ) (contents : List Content) → AllStand names m contents → state_text names m ≡ state_lines names contents }
{}
