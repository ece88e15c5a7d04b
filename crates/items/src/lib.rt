// Items and lines of a text: each reader takes the front of a text and gives what it read and the rest. Rests on nothing.
// Promises: a number or a name is read exactly where one is written; a trailer is read exactly where it points back to starts of lines.
#![tactic(auto)]

mod lines;
mod names;
mod numbers;
mod reads;
mod trailers;

pub use lines::{after, last_line, space, split_line};
pub use names::{name_law, read_name};
pub use numbers::{natural, natural_law, whole_number};
pub use reads::Read;
pub use trailers::{Trailer, trailer_of};
