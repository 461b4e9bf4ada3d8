//! The tests of `mongo_aws`, over what it hands out alone. They stand in a crate of their own so that the gate proves the library
//! once.
#![tactic(auto)]

#[cfg(test)]
mod tests;
