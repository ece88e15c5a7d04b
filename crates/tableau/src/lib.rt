// Positions: the finite graph whose paths are the histories that begin with the kept visits and meet a book's rules.
// Rests on `theory`, `ltlf` and `judge`.
// Promises: what holds of histories of all lengths is found by a finite search of positions, layer by layer.
// Each function stands for a theorem, which is its contract.
#![tactic(auto)]

mod answers;
mod distances;
mod numbers;
mod paths;
mod tried;
mod visits;

pub use answers::{
    answer_is_right, counted_are_bounded, counted_are_finite, questions_are_decided,
};
pub use distances::{
    closed_holds_all, counted_if_ends, counted_if_none, ends_are_decided, layer_by_layer,
    reached_by_step, reached_is_bounded, steps_are_decided,
};
pub use numbers::{
    expansion_is_computed, next_is_computed, next_labels_are_computed, same_members,
};
pub use paths::{
    chains_are_histories, lengths_are_reached, none_is_none, paths_are_histories, shortest_is_least,
};
pub use tried::{
    boundaries_answered, examples_answered, rows_of_climbing, rows_of_contradiction,
    visits_of_tomorrow,
};
pub use visits::{expansion_is_least, step_is_complete, step_is_sound};
