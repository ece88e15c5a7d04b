// What the search asks of a graph of positions.
ghost use Rattle.std.specs.Prelude.{◌≡◌, ◌^◌, ◌≤◌, length, Decides};
ghost use Rattle.search.specs.Layers.{Bounded, IndexedRows, Spread};
ghost use Rattle.search.specs.Questions.{Ready, Room};
ghost use Rattle.search.specs.Rows.{position};
ghost use Rattle.tableau.specs.Positions.{Question, Starts, Step, Ends};

use crate::Row;
use intern::Cell;
use successors::NextLabel;

/// The positions of a question.
pub(crate) trait Space {
    // The question that is asked.
    ghost question: { Self → Question };

    // It can be searched.
    ghost ready: { (s : Self) → Ready (question s) };

    /// Whether the position of `row` ends.
    fn finish(&self, row: Row) -> bool
        requires bounded { Bounded (question self.now) (position row) }
        ensures { Decides result (Ends (question self.now) (position row)) };

    /// Enters the starting positions, and says how many there are; `None` where a row is wanted and none is left.
    fn begin(&self, rows: &mut [Cell<Row>]) -> Option<usize>
        requires room { length rows.old ≤ 2 ^ 32 }
        ensures { Spread (λ e. e.from ≡ 0) (Starts (question self.now)) rows.old rows.new 0 result };

    /// Enters behind the first `filled` rows what `row`, the row `from`, steps to, and says how many are filled then;
    /// `None` where a row is wanted and none is left.
    fn expand(
        &self,
        row: Row,
        from: u32,
        rows: &mut [Cell<Row>],
        filled: usize,
        labels: &mut [Cell<NextLabel>],
    ) -> Option<usize>
        requires bounded { Bounded (question self.now) (position row) }
        requires room { Room rows.old labels.old }
        requires indexed { IndexedRows rows.old filled }
        ensures { Spread (λ e. e.from ≡ from) (Step (question self.now) (position row)) rows.old rows.new filled result };
}
