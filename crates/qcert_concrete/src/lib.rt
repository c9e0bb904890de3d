//! Traits and generic calls at concrete types where no other crate has one yet: languages, and passes between them.
#![tactic(auto)]

#[cfg(test)]
mod languages;
#[cfg(test)]
mod passes;
