//! Scripts printed in their canonical text.
#![tactic(auto)]

mod declared;
mod naming;
mod printer;
mod printing;
mod said;
mod shapes;

pub use printer::print;
