//! Tests of the structures, by public calls alone.
#![tactic(auto)]

#[cfg(test)]
mod asserts;
#[cfg(test)]
mod cache;
#[cfg(test)]
mod cells;
#[cfg(test)]
mod dllist;
#[cfg(test)]
mod grow;
#[cfg(test)]
mod hash;
#[cfg(test)]
mod laying;
#[cfg(test)]
mod loc;
#[cfg(test)]
mod queue;
#[cfg(test)]
mod stack;
#[cfg(test)]
mod wide;
