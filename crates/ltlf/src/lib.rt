// Formulas of LTL over finite traces, the draft that takes them and the book that a draft is sealed into.
// Rests on `refusal` and `intern`, and on `arrayvec` of the kit.
// Promises: each call leaves what the definitions of specs/ say, for every argument; a book is always proper.
#![tactic(auto)]

mod book;
mod draft;
mod key;
mod node;
mod put;
mod read;

pub use book::Book;
pub use draft::Draft;
pub use node::Node;
pub use read::{books_are_proper, books_are_small};
