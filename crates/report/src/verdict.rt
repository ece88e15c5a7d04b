/// What a question comes to, as a report has it.
// Not `search::Outcome`: the program `sheet` rests on no search, and the row count has a line of its own.
#[derive(Clone, Copy, PartialEq, Eq, Debug, Drop)]
pub enum Verdict {
    /// The visits can be finished, and a shortest whole history has this length.
    Can(u64),
    /// They cannot.
    Cannot,
    /// The rows are too few to tell.
    Short,
}
