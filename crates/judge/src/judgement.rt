/// Whether a whole history meets a book.
#[derive(Clone, Copy, PartialEq, Eq, Debug, Drop)]
pub enum Judgement {
    Met,
    Unmet,
}
