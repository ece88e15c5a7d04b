ghost use Rattle.std.specs.Prelude.{◌≤◌};

/// How many visits of a household are kept, with the counts of the book that the record was opened on.
///
/// The kept visits are the first entries of a visit list, which the caller holds.
// No `impl Model`: its value would have these three fields again.
#[derive(Drop)]
pub struct Record {
    pub(crate) codes: u16,
    pub(crate) atoms: u8,
    pub(crate) kept: usize,
    ghost few: { kept ≤ 1024 },
}
