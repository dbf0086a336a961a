//! The steps of a board on its words, and the parts of a finish, through running code.
#![tactic(auto)]

mod about;
mod parts;
mod plays;
mod step;

pub use about::About;
pub use parts::{count_all, load_all, part_word, publish_all, write_kept};
pub use plays::{Another, Both, Found, Pair, Position, Rule};
pub use step::{Words, begin_stamp, finish_stamp, load_need, load_part, swap_turn};
