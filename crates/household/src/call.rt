use ltlf::Book;

/// A call that was drawn: a sync is its notes and its ending; a question names how many rows and history entries it is offered.
#[derive(Drop)]
pub enum Call<'a, T> {
    Sync {
        notes: &'a [u16],
        confirmed: bool,
    },
    Strike,
    Question {
        book: &'a Book,
        theory: &'a T,
        rows: usize,
        entries: usize,
    },
}
