//! What holds of the operations and of the cells. An empty body: the contract is the law.

ghost use Rattle.std.specs.Prelude.{◌≡◌, ◌≢◌, ◌++◌, ◌∷◌, ℕ, List};
ghost use Rattle.kc_model.specs.Legal.{IsLegal};
ghost use Rattle.kc_model.specs.Store.{Store as Cells, Finds};
ghost use Rattle.kc_model.specs.declared.footprint.Entry.{Entry};
ghost use Rattle.kc_model.specs.declared.footprint.Footprint.{Footprint};
ghost use Rattle.kc_model.specs.declared.reply.Answer.{Answer};
ghost use Rattle.kc_text.specs.Forming.{Formed, text_opening};
ghost use Rattle.kc_text.specs.Meaning.{IsFit, texts_cells_end, op, text_begin, text_end, text_meaning, texts_cells};
ghost use Rattle.kc_text.specs.Replies.{ActSays, AnswerSays};
ghost use Rattle.kc_text.specs.declared.operation.TextAct.{TextAct};
ghost use Rattle.kc_text.specs.declared.operation.TextOp.{TextOp};
ghost use Rattle.kc_text.specs.declared.texts.Texts.{Texts};
ghost use Rattle.kc_xt.specs.Commit.{Answers, Waits, run_on};
ghost use Rattle.kc_xt.specs.Meaning.{too_large, values};
ghost use Rattle.kc_xt.specs.Structure.{DependsOnItsCells, KeepsWellFormed, Opens, RepliesOneItem, TouchesItsOwnCells};

/// An operation touches the cells of its texts alone, whatever they hold, and its reply is one item. It is never too large for a
/// commit.
pub fn touches_its_own_cells()
    ensures touches { (o : TextOp) → IsFit o → TouchesItsOwnCells (text_begin o) (text_end o) (text_meaning o) }
    ensures one { (o : TextOp) → IsFit o → RepliesOneItem (text_meaning o) }
    ensures small { (o : TextOp) (s : Cells) → (run_on (text_meaning o) s).outcome ≢ too_large }
{}

/// Opening cells are well formed, and an operation leaves well-formed cells so. Whether they are depends on these cells alone.
pub fn keeps_well_formed()
    ensures opens { (t : Texts) → Opens (Formed t) t.base.0 (texts_cells t) text_opening tt }
    ensures keeps { (o : TextOp) → IsFit o → KeepsWellFormed (Formed o.texts) (text_meaning o) }
    ensures own { (t : Texts) → DependsOnItsCells (Formed t) t.base.0 (texts_cells_end t) }
{}

/// An operation's reply says what stood at its place in a legal history, as wherever its footprint is found; it never waits.
pub fn replies_say_what_stood()
    ensures says { (t : Texts) (b : TextAct) (a : Answer) (f : Footprint) (s : Cells) → Answers (text_meaning (op t b)) a f → Finds f s → AnswerSays (ActSays t (values s) b) a }
    ensures never_waits { (t : Texts) (b : TextAct) (f : Footprint) → ¬ Waits (text_meaning (op t b)) f }
    ensures at_place { (s m e : Cells) (before behind : List Entry) (x : Entry) → IsLegal s before m → IsLegal s (before ++ x ∷ behind) e → Finds x.footprint m }
{}
