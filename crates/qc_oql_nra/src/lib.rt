//! The trees of the algebra for queries, as a function on trees, and what it keeps: values, names and sizes.
#![tactic(auto)]
