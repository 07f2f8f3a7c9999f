//! What holds of histories with operations on shared texts. An empty body: the contract is the law.

ghost use Rattle.std.specs.Prelude.{All, ◌≡◌, ◌≢◌, ◌<◌, ◌++◌, ◌∷◌, ◌⊎◌, ℕ, List, [], true};
ghost use Rattle.kc_model.specs.Legal.{IsLegal};
ghost use Rattle.kc_model.specs.Store.{Store as Cells};
ghost use Rattle.kc_model.specs.declared.footprint.Entry.{Entry};
ghost use Rattle.kc_model.specs.declared.footprint.Footprint.{Footprint};
ghost use Rattle.kc_model.specs.declared.reply.Answer.TheVariants as answer;
ghost use Rattle.kc_model.specs.declared.reply.Reply.{Reply};
ghost use Rattle.kc_model.specs.declared.reply.Reply.TheVariants as reply;
ghost use Rattle.kc_text.specs.kc_store.Backs.{AreAllCallers};
ghost use Rattle.kc_text.specs.kc_store.Knows.{IsHistory, entries_of};
ghost use Rattle.kc_text.specs.kc_store.Views.{CallerView, PastView, StoreView, store_opening};
ghost use Rattle.kc_text.specs.Forming.{AreZero, TextsAreWellFormed};
ghost use Rattle.kc_text.specs.Meaning.{IsFitAct, IsText, leases_at, names_at, op, place_at, text_meaning};
ghost use Rattle.kc_text.specs.declared.operation.TextAct.{TextAct};
ghost use Rattle.kc_text.specs.declared.operation.TextAct.TheVariants as act;
ghost use Rattle.kc_text.specs.declared.texts.Texts.{Texts};
ghost use Rattle.kc_text_laws.specs.Handed.{KeepToTexts, open_leases};
ghost use Rattle.kc_text_laws.specs.Holding.{KeepTexts, LeasesAre, LeavesTexts, lease_ended, ends_lease, holders, is_text, nobody, lease_opened, opens_lease};
ghost use Rattle.kc_text_laws.specs.Owning.{CallerKeeps, IsTextOperation, none_held};
ghost use Rattle.kc_xt.specs.Commit.{Answers};
ghost use Rattle.kc_xt.specs.Meaning.{values};

/// Of the leases of a text, the entry of an operation opens one exactly where that was a lease that replied the text's number,
/// and ends one exactly where that was the end of a lease of it, and replied Unit.
pub fn entries_turn_leases()
    ensures opens { (t : Texts) (j : ℕ) (b : TextAct) (r : Reply) (f : Footprint) → IsText t j → IsFitAct t b → Answers (text_meaning (op t b)) (answer.Reply r) f → opens_lease t j f ≡ is_text (lease_opened b r) j }
    ensures ends { (t : Texts) (j : ℕ) (b : TextAct) (r : Reply) (f : Footprint) → IsText t j → IsFitAct t b → Answers (text_meaning (op t b)) (answer.Reply r) f → ends_lease t j f ≡ is_text (lease_ended b r) j }
{}

/// A legal list of entries from zeros, where each puts nothing of the cells but what an operation on the texts puts, and who ends
/// a lease holds one: behind it the cells are well formed, and each text's leases are as many as callers hold.
pub fn texts_stand_in_histories()
    ensures formed { (t : Texts) (s e : Cells) (es : List Entry) → IsLegal s es e → AreZero t (values s) → KeepTexts t s nobody es → TextsAreWellFormed t (values e) }
    ensures leases { (t : Texts) (s e : Cells) (es : List Entry) → IsLegal s es e → AreZero t (values s) → KeepTexts t s nobody es → LeasesAre t (values e) (λ j. holders t j [] es) }
{}

/// Where of a legal list each caller's own entries are operations on the texts, or put none of their cells, and each lease that
/// it ends it holds, the list keeps to the operations, and so does each beginning of it. So it is with the history of a store
/// whose callers came back.
pub fn what_callers_keep_the_history_keeps()
    ensures all { (t : Texts) (s e : Cells) (es : List Entry) → IsLegal s es e → ((k : ℕ) → CallerKeeps t none_held (entries_of k es)) → KeepTexts t s nobody es }
    ensures front { (t : Texts) (s : Cells) (before behind : List Entry) → KeepTexts t s nobody (before ++ behind) → KeepTexts t s nobody before }
    ensures store { (t : Texts) (z : StoreView) (callers : List CallerView) (p : PastView) → AreAllCallers z callers → IsHistory z callers p → All (λ (c : CallerView). CallerKeeps t none_held c.own) callers → KeepTexts t (store_opening z) nobody p.history }
{}

/// What was buried no place named, where the cells were well formed; and nobody held a lease of it, where the entries before
/// kept to the operations. Behind its burial nobody leases it.
pub fn what_is_buried_is_held_by_none()
    ensures unnamed { (t : Texts) (m : ℕ → ℕ) (j p : ℕ) → TextsAreWellFormed t m → IsText t j → m (names_at t j) ≡ 0 → p < t.places → m (place_at t p) ≢ j }
    ensures unheld { (t : Texts) (s m e : Cells) (before behind : List Entry) (j : ℕ) (x : Entry) → IsLegal s before m → IsLegal s (before ++ x ∷ behind) e → AreZero t (values s) → KeepTexts t s nobody before → IsText t j → Answers (text_meaning (op t (act.Bury j))) (answer.Reply reply.Unit) x.footprint → holders t j [] before ≡ [] }
    ensures gone { (t : Texts) (s e : Cells) (before between behind : List Entry) (x y : Entry) (j p : ℕ) → IsText t j → p < t.places → IsLegal s (before ++ x ∷ between ++ y ∷ behind) e → AreZero t (values s) → KeepTexts t s nobody (before ++ x ∷ between) → Answers (text_meaning (op t (act.Bury j))) (answer.Reply reply.Unit) x.footprint → ¬ Answers (text_meaning (op t (act.Lease p))) (answer.Reply (reply.Value j)) y.footprint }
{}

/// A lease may be handed on, so that another caller ends it: of a legal list of entries from zeros, each of which puts nothing of
/// the cells but what an operation on the texts puts, the cells are well formed behind it, and each text has as many leases as were
/// opened and not ended. A lease that an entry ends was open; at a burial none is. So it is where each entry is of an operation,
/// or puts none of the cells.
pub fn leases_may_be_handed_on()
    ensures formed { (t : Texts) (s e : Cells) (es : List Entry) → IsLegal s es e → AreZero t (values s) → KeepToTexts t s es → TextsAreWellFormed t (values e) }
    ensures leases { (t : Texts) (s e : Cells) (es : List Entry) (j : ℕ) → IsLegal s es e → AreZero t (values s) → KeepToTexts t s es → IsText t j → values e (leases_at t j) ≡ open_leases t j 0 es }
    ensures ends { (t : Texts) (s e : Cells) (before behind : List Entry) (x : Entry) (j : ℕ) → IsLegal s (before ++ x ∷ behind) e → AreZero t (values s) → KeepToTexts t s (before ++ x ∷ behind) → IsText t j → ends_lease t j x.footprint ≡ true → 0 < open_leases t j 0 before }
    ensures buried { (t : Texts) (s m e : Cells) (before behind : List Entry) (j : ℕ) (x : Entry) → IsLegal s before m → IsLegal s (before ++ x ∷ behind) e → AreZero t (values s) → KeepToTexts t s before → IsText t j → Answers (text_meaning (op t (act.Bury j))) (answer.Reply reply.Unit) x.footprint → open_leases t j 0 before ≡ 0 }
    ensures kept { (t : Texts) (s e : Cells) (es : List Entry) → IsLegal s es e → All (λ (x : Entry). LeavesTexts t x.footprint ⊎ IsTextOperation t x.footprint) es → KeepToTexts t s es }
{}
