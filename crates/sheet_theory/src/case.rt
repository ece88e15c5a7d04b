use flags::Flags;
use numbers::Numbers;

/// The theory that a sheet filled.
#[derive(Drop)]
pub enum SheetTheory {
    Flags(Flags),
    Numbers(Numbers),
}
