//! A caller that depends on the six public crates alone, and makes each call that a user of the
//! library makes, on examples worked by hand.
//!
//! It is proved like all other code: so a user can meet what these calls require with what public
//! calls ensure, and needs no other crate.
#![tactic(auto)]

#[cfg(test)]
mod tests;
