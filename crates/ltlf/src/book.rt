use super::draft::Draft;

/// A sealed draft: it takes no more formulas and rules, only questions.
#[derive(Drop)]
pub struct Book {
    pub(crate) sealed: Draft,
}
