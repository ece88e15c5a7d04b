ghost use Rattle.std.specs.Prelude.{◌≡◌, ◌≤◌, true, length};
ghost use Rattle.numbers.specs.Spans.{product, spans_stand};

use super::variable::Spanned;
use arrayvec::ArrayVec;

/// One to eight variables with their spans.
/// A code counts the value combinations, the last variable moving fastest.
#[derive(Drop)]
pub(crate) struct Grid {
    pub(crate) variables: ArrayVec<Spanned, 8>,
    pub(crate) codes: u16,
    ghost some: { 1 ≤ length variables.items },
    ghost few: { length variables.items ≤ 8 },
    ghost spanned: { spans_stand variables.items ≡ true },
    ghost counted: { codes ≡ product variables.items },
    ghost coded: { 1 ≤ codes },
    ghost most: { codes ≤ 4096 },
}
