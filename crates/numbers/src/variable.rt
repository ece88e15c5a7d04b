ghost use Rattle.std.specs.Prelude.{◌≡◌, ◌≤◌, true, int_le};
ghost use Rattle.numbers.specs.Limits.{within, value_count};

/// The bounds of a variable, within ±10,000, and how many values it has.
#[derive(Clone, Copy, Drop)]
pub(crate) struct Variable {
    pub(crate) low: i32,
    pub(crate) high: i32,
    pub(crate) width: u16,
    ghost lower: { within 10000 low ≡ true },
    ghost upper: { within 10000 high ≡ true },
    ghost ordered: { int_le low high ≡ true },
    ghost counted: { width ≡ value_count low high },
    ghost some: { 1 ≤ width },
    ghost few: { width ≤ 4096 },
}

/// A variable of a grid, and its span: how many value combinations the later variables have.
#[derive(Clone, Copy, Default, Drop)]
pub(crate) struct Spanned {
    pub(crate) variable: Variable,
    pub(crate) span: u16,
}
