// The answer to a question: whether some history begins with the kept visits and meets a book, by a search of positions
// layer by layer, in rows that the caller lends.
// Rests on `intern` for the rows, `successors` and `viability` for the steps, `tableau` for what a position is.
// Promises: `search` answers as the definitions say, for every argument; the rows hold the counted positions, each once;
// the history shown is a shortest one.
#![tactic(auto)]

mod asked;
mod expand;
mod explore;
mod facts;
mod history;
mod labels;
mod layers;
mod outcome;
mod question;
mod row;
mod rules;
mod space;
mod starts;
mod visits;

pub use outcome::Outcome;
pub use question::search;
pub use row::Row;
