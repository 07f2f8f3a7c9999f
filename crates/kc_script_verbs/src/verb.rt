//! The words of commands.

ghost use Rattle.std.specs.Prelude.{◌≡◌};
ghost use Rattle.kc_script_verbs.specs.Words.{plain_loc_word, choosing_loc_word, stack_word, queue_word, table_word, cache_word, mvar_word, promise_word, acc_word, loc_word, object_verb_of, verb_of};

/// A word of a command on locations.
#[derive(Clone, Copy, Debug, PartialEq, Eq)]
pub enum LocWord {
    Get,
    Set,
    Exchange,
    Swap,
    Cas,
    FetchAdd,
    Incr,
    Decr,
    Update,
    Modify,
    Check,
}

/// A word of a command on stacks.
#[derive(Clone, Copy, Debug, PartialEq, Eq)]
pub enum StackWord {
    Push,
    Pop,
    PopWait,
    Top,
}

/// A word of a command on queues.
#[derive(Clone, Copy, Debug, PartialEq, Eq)]
pub enum QueueWord {
    Enq,
    Deq,
    DeqWait,
    Front,
}

/// A word of a command on tables.
#[derive(Clone, Copy, Debug, PartialEq, Eq)]
pub enum TableWord {
    Put,
    Find,
    Del,
}

/// A word of a command on caches.
#[derive(Clone, Copy, Debug, PartialEq, Eq)]
pub enum CacheWord {
    CPut,
    CPutWait,
    CGet,
    CDel,
}

/// A word of a command on one-place variables.
#[derive(Clone, Copy, Debug, PartialEq, Eq)]
pub enum MvarWord {
    Put,
    Take,
    Peek,
}

/// A word of a command on promises.
#[derive(Clone, Copy, Debug, PartialEq, Eq)]
pub enum PromiseWord {
    Resolve,
    Await,
    IsResolved,
}

/// A word of a command on accumulators.
#[derive(Clone, Copy, Debug, PartialEq, Eq)]
pub enum AccWord {
    Bump,
    Total,
}

/// A word that begins a command on an object, by the object's kind.
#[derive(Clone, Copy, Debug, PartialEq, Eq)]
pub enum ObjectVerb {
    OnLoc(LocWord),
    OnStack(StackWord),
    OnQueue(QueueWord),
    OnTable(TableWord),
    OnCache(CacheWord),
    OnMvar(MvarWord),
    OnPromise(PromiseWord),
    OnAcc(AccWord),
    /// Of a stack, a queue, a table or a cache.
    Len,
}

/// A word that begins a command.
#[derive(Clone, Copy, Debug, PartialEq, Eq)]
pub enum Verb {
    /// On the object of the command's first name.
    On(ObjectVerb),
    /// Of a thread.
    Cancel,
}

// The word of a command on a location that takes no function or relation.
#[tactic(auto, unfolding(crate::specs::Words::plain_loc_word))]
fn plain_loc_word(word: &[u8]) -> Option<LocWord>
    ensures { result ≡ plain_loc_word word.now }
{
    if word == b"get".as_slice() {
        return Some(LocWord::Get);
    }
    if word == b"set".as_slice() {
        return Some(LocWord::Set);
    }
    if word == b"xchg".as_slice() {
        return Some(LocWord::Exchange);
    }
    if word == b"swap".as_slice() {
        return Some(LocWord::Swap);
    }
    if word == b"cas".as_slice() {
        return Some(LocWord::Cas);
    }
    if word == b"add".as_slice() {
        return Some(LocWord::FetchAdd);
    }
    if word == b"incr".as_slice() {
        return Some(LocWord::Incr);
    }
    if word == b"decr".as_slice() {
        return Some(LocWord::Decr);
    }
    None
}

// The word of a command on a location that takes a function or a relation.
#[tactic(auto, unfolding(crate::specs::Words::choosing_loc_word))]
fn choosing_loc_word(word: &[u8]) -> Option<LocWord>
    ensures { result ≡ choosing_loc_word word.now }
{
    if word == b"update".as_slice() {
        return Some(LocWord::Update);
    }
    if word == b"modify".as_slice() {
        return Some(LocWord::Modify);
    }
    if word == b"check".as_slice() {
        return Some(LocWord::Check);
    }
    None
}

// The word of a command on a stack.
#[tactic(auto, unfolding(crate::specs::Words::stack_word))]
fn stack_word(word: &[u8]) -> Option<StackWord>
    ensures { result ≡ stack_word word.now }
{
    if word == b"push".as_slice() {
        return Some(StackWord::Push);
    }
    if word == b"pop".as_slice() {
        return Some(StackWord::Pop);
    }
    if word == b"popw".as_slice() {
        return Some(StackWord::PopWait);
    }
    if word == b"top".as_slice() {
        return Some(StackWord::Top);
    }
    None
}

// The word of a command on a queue.
#[tactic(auto, unfolding(crate::specs::Words::queue_word))]
fn queue_word(word: &[u8]) -> Option<QueueWord>
    ensures { result ≡ queue_word word.now }
{
    if word == b"enq".as_slice() {
        return Some(QueueWord::Enq);
    }
    if word == b"deq".as_slice() {
        return Some(QueueWord::Deq);
    }
    if word == b"deqw".as_slice() {
        return Some(QueueWord::DeqWait);
    }
    if word == b"front".as_slice() {
        return Some(QueueWord::Front);
    }
    None
}

// The word of a command on a table.
#[tactic(auto, unfolding(crate::specs::Words::table_word))]
fn table_word(word: &[u8]) -> Option<TableWord>
    ensures { result ≡ table_word word.now }
{
    if word == b"put".as_slice() {
        return Some(TableWord::Put);
    }
    if word == b"find".as_slice() {
        return Some(TableWord::Find);
    }
    if word == b"del".as_slice() {
        return Some(TableWord::Del);
    }
    None
}

// The word of a command on a cache.
#[tactic(auto, unfolding(crate::specs::Words::cache_word))]
fn cache_word(word: &[u8]) -> Option<CacheWord>
    ensures { result ≡ cache_word word.now }
{
    if word == b"cput".as_slice() {
        return Some(CacheWord::CPut);
    }
    if word == b"cputw".as_slice() {
        return Some(CacheWord::CPutWait);
    }
    if word == b"cget".as_slice() {
        return Some(CacheWord::CGet);
    }
    if word == b"cdel".as_slice() {
        return Some(CacheWord::CDel);
    }
    None
}

// The word of a command on a one-place variable.
#[tactic(auto, unfolding(crate::specs::Words::mvar_word))]
fn mvar_word(word: &[u8]) -> Option<MvarWord>
    ensures { result ≡ mvar_word word.now }
{
    if word == b"mput".as_slice() {
        return Some(MvarWord::Put);
    }
    if word == b"mtake".as_slice() {
        return Some(MvarWord::Take);
    }
    if word == b"mpeek".as_slice() {
        return Some(MvarWord::Peek);
    }
    None
}

// The word of a command on a promise.
#[tactic(auto, unfolding(crate::specs::Words::promise_word))]
fn promise_word(word: &[u8]) -> Option<PromiseWord>
    ensures { result ≡ promise_word word.now }
{
    if word == b"resolve".as_slice() {
        return Some(PromiseWord::Resolve);
    }
    if word == b"await".as_slice() {
        return Some(PromiseWord::Await);
    }
    if word == b"resolved".as_slice() {
        return Some(PromiseWord::IsResolved);
    }
    None
}

// The word of a command on an accumulator.
#[tactic(auto, unfolding(crate::specs::Words::acc_word))]
fn acc_word(word: &[u8]) -> Option<AccWord>
    ensures { result ≡ acc_word word.now }
{
    if word == b"bump".as_slice() {
        return Some(AccWord::Bump);
    }
    if word == b"total".as_slice() {
        return Some(AccWord::Total);
    }
    None
}

// The word of a command on a location.
#[tactic(auto, unfolding(crate::specs::Words::loc_word))]
fn loc_word(word: &[u8]) -> Option<LocWord>
    ensures { result ≡ loc_word word.now }
{
    if let Some(found) = plain_loc_word(word) {
        return Some(found);
    }
    choosing_loc_word(word)
}

// The word of a command on an object.
#[tactic(auto, unfolding(crate::specs::Words::object_verb_of))]
fn object_verb_of(word: &[u8]) -> Option<ObjectVerb>
    ensures { result ≡ object_verb_of word.now }
{
    if let Some(found) = loc_word(word) {
        return Some(ObjectVerb::OnLoc(found));
    }
    if let Some(found) = stack_word(word) {
        return Some(ObjectVerb::OnStack(found));
    }
    if let Some(found) = queue_word(word) {
        return Some(ObjectVerb::OnQueue(found));
    }
    if let Some(found) = table_word(word) {
        return Some(ObjectVerb::OnTable(found));
    }
    if let Some(found) = cache_word(word) {
        return Some(ObjectVerb::OnCache(found));
    }
    if let Some(found) = mvar_word(word) {
        return Some(ObjectVerb::OnMvar(found));
    }
    if let Some(found) = promise_word(word) {
        return Some(ObjectVerb::OnPromise(found));
    }
    if let Some(found) = acc_word(word) {
        return Some(ObjectVerb::OnAcc(found));
    }
    if word == b"len".as_slice() {
        return Some(ObjectVerb::Len);
    }
    None
}

/// The word of a command.
#[tactic(auto, unfolding(crate::specs::Words::verb_of))]
pub fn verb_of(word: &[u8]) -> Option<Verb>
    ensures { result ≡ verb_of word.now }
{
    if let Some(found) = object_verb_of(word) {
        return Some(Verb::On(found));
    }
    if word == b"cancel".as_slice() {
        return Some(Verb::Cancel);
    }
    None
}
