// The record of a household: how many of a visit list's first entries are kept, and the sync by which visits are noted.
// Rests on `refusal` and `ltlf`.
// Promises: each call answers and leaves what the definitions of specs/ say, for every argument; a record keeps at most
// 1,024 visits; a sync that is let go without an ending does not compile.
#![tactic(auto)]

mod keeping;
mod noting;
mod read;
mod record;
mod sync;

pub use record::Record;
pub use sync::Sync;
