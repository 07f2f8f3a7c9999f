//! Single lines of a script: the words that begin them, the objects that they declare, and the operations that they say.
#![tactic(auto)]

mod acts;
mod declaring;
mod laws;
mod named;
mod objects;
mod on_loc;
mod saying;
mod verb;
mod word;

pub use declaring::declare;
pub use laws::{
    commands_are_tested, declarations_are_tested, lines_declare_one, lines_say_one, says_on_objects,
};
pub use objects::add;
pub use saying::say;
pub use verb::{
    AccWord, CacheWord, LocWord, MvarWord, ObjectVerb, PromiseWord, QueueWord, StackWord,
    TableWord, Verb,
};
pub use word::{Kind, Word, word_of};
