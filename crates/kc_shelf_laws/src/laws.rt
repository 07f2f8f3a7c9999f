//! What holds of histories with operations on a shelf. An empty body: the contract is the law.

ghost use Rattle.std.specs.Prelude.{All, Contains, ◌≡◌, ◌≢◌, ◌+◌, ◌<◌, ◌++◌, ◌∷◌, ℕ, List, Some, None};
ghost use Rattle.kc_model.specs.Footprint.{IsWellMade, put_at};
ghost use Rattle.kc_model.specs.Legal.{IsLegal};
ghost use Rattle.kc_model.specs.Store.{Finds, Store as Cells, after};
ghost use Rattle.kc_model.specs.declared.footprint.Entry.{Entry};
ghost use Rattle.kc_model.specs.declared.footprint.Footprint.{Footprint};
ghost use Rattle.kc_model.specs.declared.reply.Answer.TheVariants as answer;
ghost use Rattle.kc_model.specs.declared.reply.Reply.{Reply};
ghost use Rattle.kc_model.specs.declared.reply.Reply.TheVariants as reply;
ghost use Rattle.kc_shelf.specs.Meaning.{IsFitShelfAct, IsSlot, IsTicket, count_at, life_at, life_of, shelf_op, shelf_cells, shelf_meaning, shelf_opening, slot_of};
ghost use Rattle.kc_shelf.specs.declared.operation.ShelfAct.{ShelfAct};
ghost use Rattle.kc_shelf.specs.declared.operation.ShelfAct.TheVariants as act;
ghost use Rattle.kc_shelf.specs.declared.shelf.Shelf.{Shelf};
ghost use Rattle.kc_shelf.specs.kc_store.Backs.{AreAllCallers};
ghost use Rattle.kc_shelf.specs.kc_store.Knows.{IsHistory, entries_of};
ghost use Rattle.kc_shelf.specs.kc_store.Views.{CallerView, PastView, StoreView};
ghost use Rattle.kc_shelf_laws.specs.Lives.{ActTurns, EndsAtOne, IsOver, KeepsLives, values_left, life_begun, name_had, name_lost, ticket_names, one_of, values_seen};
ghost use Rattle.kc_shelf_laws.specs.Names.{CallerKeepsNames, HasNoNames, KeepNames, NamesAre, empty_hand, empty_hands, hands};
ghost use Rattle.kc_xt.specs.Commit.{Answers};
ghost use Rattle.kc_xt.specs.Meaning.{values};

/// Wherever the entry of an operation stands it makes the names of a ticket one more exactly where it is of Reserve or Renew
/// that replied it, of Name that replied Unit, or of NameAt that replied it; and one less exactly where it is of Drop that replied
/// Unit or Empty. It keeps lives; and so does an entry that puts none of the shelf's lives and counts.
pub fn entries_turn_names()
    ensures turns { (t : Shelf) (a : ShelfAct) (r : Reply) (f : Footprint) (s : Cells) → IsFitShelfAct t a → Answers (shelf_meaning (shelf_op t a)) (answer.Reply r) f → Finds f s → ActTurns t a r (values s) (values (after f s)) }
    ensures keeps { (t : Shelf) (a : ShelfAct) (r : Reply) (f : Footprint) → IsFitShelfAct t a → Answers (shelf_meaning (shelf_op t a)) (answer.Reply r) f → KeepsLives t f }
    ensures own { (t : Shelf) (a : ShelfAct) (r : Reply) (f : Footprint) (s : Cells) (v : ℕ) → IsFitShelfAct t a → Answers (shelf_meaning (shelf_op t a)) (answer.Reply r) f → Finds f s → IsTicket t v → ticket_names t (values_left f) v + one_of (name_lost a r) v ≡ ticket_names t (values_seen f) v + one_of (name_had a r) v }
    ensures others { (t : Shelf) (f : Footprint) → IsWellMade f → ((n : ℕ) → IsSlot t n → (put_at f.puts.items (life_at t n) ≡ None) × (put_at f.puts.items (count_at t n) ≡ None)) → KeepsLives t f }
{}

/// A legal list of entries of callers below n, from where nothing is named, each of which keeps lives and gives no name that its
/// caller hasn't in hand: behind it the count of each ticket is the names that callers have in hand and the places that hold it.
///
/// The places are any locations that the user names. A ticket that is written there, by whatever operation, leaves its caller's
/// hand, and what was there comes into it.
pub fn names_stand_in_histories()
    ensures { (t : Shelf) (places : List ℕ) (n : ℕ) (s e : Cells) (es : List Entry) → IsLegal s es e → All (λ (x : Entry). x.caller < n) es → HasNoNames t places (values s) → KeepNames t places empty_hands es → NamesAre t places n (values e) (hands t places empty_hands es) }
{}

/// As a shelf opens, and where the places hold 0, nothing is named.
pub fn opens_with_no_names()
    ensures { (t : Shelf) (places : List ℕ) (m : ℕ → ℕ) → ((i : ℕ) → i < shelf_cells t → m (t.base.0 + i) ≡ shelf_opening t i) → ((l : ℕ) → Contains places l → m l ≡ 0) → HasNoNames t places m }
{}

/// Where of a legal list each caller's own entries keep lives, and give no name that it hasn't in hand, the list does so, and each
/// beginning of it. So it is with the history of a store whose callers came back.
pub fn callers_keep_the_names()
    ensures all { (t : Shelf) (places : List ℕ) (es : List Entry) → ((k : ℕ) → CallerKeepsNames t places empty_hand (entries_of k es)) → KeepNames t places empty_hands es }
    ensures front { (t : Shelf) (places : List ℕ) (before behind : List Entry) → KeepNames t places empty_hands (before ++ behind) → KeepNames t places empty_hands before }
    ensures store { (t : Shelf) (places : List ℕ) (z : StoreView) (callers : List CallerView) (p : PastView) → AreAllCallers z callers → IsHistory z callers p → All (λ (c : CallerView). CallerKeepsNames t places empty_hand c.own) callers → KeepNames t places empty_hands p.history }
    ensures lives { (t : Shelf) (places : List ℕ) (es : List Entry) → KeepNames t places empty_hands es → All (λ (x : Entry). KeepsLives t x.footprint) es }
{}

/// Where the counts are such names, a ticket in hand or at a place is of the life that its slot is in, with a count: a name more
/// can be had of it, and it can be given up.
pub fn who_has_a_name_finds_it()
    ensures hand { (t : Shelf) (places : List ℕ) (n : ℕ) (m : ℕ → ℕ) (held : ℕ → ℕ → ℕ) (k v : ℕ) → IsTicket t v → NamesAre t places n m held → k < n → 0 < held k v → (m (life_at t (slot_of t v)) ≡ life_of t v) × (0 < m (count_at t (slot_of t v))) }
    ensures place { (t : Shelf) (places : List ℕ) (n : ℕ) (m : ℕ → ℕ) (held : ℕ → ℕ → ℕ) (l v : ℕ) → IsTicket t v → NamesAre t places n m held → Contains places l → m l ≡ v → (m (life_at t (slot_of t v)) ≡ life_of t v) × (0 < m (count_at t (slot_of t v))) }
{}

/// Behind a Drop that replied Empty the ticket has no name: where the counts are names nobody has it in hand, and no place holds
/// it. Its life is over, and so it stays behind all entries that keep lives: it has no name any more, so no operation replies it.
pub fn the_last_name_is_the_last()
    ensures none { (t : Shelf) (s : Cells) (f : Footprint) (v : ℕ) → IsTicket t v → Answers (shelf_meaning (shelf_op t (act.Drop v))) (answer.Reply reply.Empty) f → Finds f s → ticket_names t (values (after f s)) v ≡ 0 }
    ensures nobody { (t : Shelf) (places : List ℕ) (n : ℕ) (m : ℕ → ℕ) (held : ℕ → ℕ → ℕ) (v : ℕ) → IsTicket t v → NamesAre t places n m held → ticket_names t m v ≡ 0 → ((k : ℕ) → k < n → held k v ≡ 0) × ((l : ℕ) → Contains places l → m l ≢ v) }
    ensures over { (t : Shelf) (s : Cells) (f : Footprint) (v : ℕ) → IsTicket t v → Answers (shelf_meaning (shelf_op t (act.Drop v))) (answer.Reply reply.Empty) f → Finds f s → IsOver t (values (after f s)) v }
    ensures stays { (t : Shelf) (s e : Cells) (es : List Entry) (v : ℕ) → IsTicket t v → IsLegal s es e → All (λ (x : Entry). KeepsLives t x.footprint) es → IsOver t (values s) v → IsOver t (values e) v × (ticket_names t (values e) v ≡ 0) }
{}

/// Of a legal list whose entries keep lives no two are of operations that begin the life of one ticket. And a ticket that had a
/// name and has none any more lost the last one by one entry of it, behind which it is over.
pub fn a_life_is_one()
    ensures begins { (t : Shelf) (s e : Cells) (before between behind : List Entry) (x y : Entry) (a b : ShelfAct) (q r : Reply) (v : ℕ) → IsTicket t v → IsLegal s (before ++ x ∷ between ++ y ∷ behind) e → All (λ (z : Entry). KeepsLives t z.footprint) between → IsFitShelfAct t a → IsFitShelfAct t b → Answers (shelf_meaning (shelf_op t a)) (answer.Reply q) x.footprint → Answers (shelf_meaning (shelf_op t b)) (answer.Reply r) y.footprint → life_begun a q ≡ Some v → ¬ (life_begun b r ≡ Some v) }
    ensures ends { (t : Shelf) (s e : Cells) (es : List Entry) (v : ℕ) → IsTicket t v → IsLegal s es e → All (λ (x : Entry). KeepsLives t x.footprint) es → 0 < ticket_names t (values s) v → ticket_names t (values e) v ≡ 0 → EndsAtOne t s es v }
{}
