//! Tests of the top call over files.
#![tactic(auto)]

#[cfg(test)]
mod calling;
#[cfg(test)]
mod checks;
#[cfg(test)]
mod files;
#[cfg(test)]
mod picks;
