// Questions on the record of a household, and a drawn run of calls on one record.
// Rests on `record`, `judge` and `search`.
// Promises: `stands` and `question` answer as the definitions of specs/ say, for every argument; `replay` carries the law that
// a record follows the plain record, and every question what histories there are.
#![tactic(auto)]

mod asking;
mod call;
mod check;
mod observer;
mod replaying;
mod standing;

pub use asking::question;
pub use call::Call;
pub use observer::Observer;
pub use replaying::replay;
pub use standing::stands;
