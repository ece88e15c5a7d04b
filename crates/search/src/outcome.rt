/// What a question comes to.
#[derive(Clone, Copy, PartialEq, Eq, Debug, Drop)]
pub enum Outcome {
    /// A history of this length continues the kept visits and meets the rules, and no shorter one does; with the filled rows.
    Can { length: usize, rows: usize },
    /// No history does; with the filled rows.
    Cannot { rows: usize },
    /// The rows are too few to tell; with their number.
    Short { rows: usize },
}
