//! Least forests over lent tables: union-find, a heap over a ranking of indexes, and Kruskal's greedy choice.
#![tactic(auto)]

mod by_place;
mod heap;
mod kruskal;
mod positions;
mod union_find;

pub use by_place::{earlier, place_of, sort_by_place};
pub use heap::{Ranking, sort};
pub use kruskal::{keep, keep_on};
pub use positions::pick;
pub use union_find::{Classes, roots_are_labels, start};
