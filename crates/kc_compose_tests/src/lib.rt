//! Transactions of a small server made of parts, and what each part does on a plain store, by public calls alone.
#![tactic(auto)]

#[cfg(test)]
mod asserts;
#[cfg(test)]
mod choosing;
#[cfg(test)]
mod jobs;
#[cfg(test)]
mod waiting;
#[cfg(test)]
mod yard;
