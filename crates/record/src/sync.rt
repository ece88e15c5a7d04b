ghost use Rattle.std.specs.Prelude.{◌≤◌};

use super::record::Record;

/// An open sync: it took a record, and takes notes of visits until it is confirmed or has failed.
///
/// It has no `Drop`: `confirm` and `fail` are its only ends, and letting it go does not compile.
pub struct Sync {
    pub(crate) taken: Record,
    pub(crate) held: usize,
    ghost few: { held ≤ 1024 },
}
