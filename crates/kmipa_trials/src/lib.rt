//! Trials of what the other crates call, by their public surface alone. There is no code here but the tests, so what is
//! proved of this crate is that they call as the contracts ask.
#![tactic(auto)]

#[cfg(test)]
mod tests;
