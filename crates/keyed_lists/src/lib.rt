//! Lists by key: a list is found without a look at the others.
#![tactic(auto)]

mod keyed;

pub use keyed::KeyedLists;
