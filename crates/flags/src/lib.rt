// The flags theory: each bit of a code is a named flag, and an atom names one flag.
// Rests on `refusal`, `writer`, `theory`, `intern`, `names` and the kit's `arrayvec`.
// Promises: the facts are those of the names and atoms that were filled in, every filling keeps the limits,
// and a code is printed as its bits, which tell the code.
#![tactic(auto)]

mod fill;
mod flags;
mod holds;
mod print;
mod read;

pub use flags::Flags;
pub use print::bits_tell_codes;
