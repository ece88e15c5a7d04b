// Names: texts of 1 to 8 letters a to z. Rests on `intern`, in whose cells names are kept.
// Promises: a text is taken exactly where it is a name; names are equal exactly where their texts are;
// a roster finds the place of a text among its names, and adds a name exactly where it is new and there is room.
#![tactic(auto)]

mod key;
mod make;
mod name;
mod roster;

pub use name::Name;
pub use roster::Roster;
