// Why a call or a sheet is refused. Rests on nothing.
// Promises: each case has the number, and the place, that the table in specs/ gives it.
#![tactic(auto)]

ghost use Rattle.std.specs.Prelude.{◌≡◌};
ghost use Rattle.refusal.specs.Numbers.{number_of, fill_number, sheet_number, sheet_place};

/// Why a call is refused; docs/REFUSALS.md says what each leaves behind.
#[derive(Clone, Copy, PartialEq, Eq, Debug, Drop)]
pub enum Refusal {
    /// 1: a draft's count of codes outside 1 to 4,096, or of atoms over 32.
    CountsOutOfRange = 1,
    /// 2: an atom that does not exist, or a formula that was not put.
    Unknown = 2,
    /// 3: a 65th distinct formula.
    TooManyFormulas = 3,
    /// 4: a code that does not exist.
    NoSuchCode = 4,
    /// 5: a note past the visit list's end, or past 1,024 visits.
    ListFull = 5,
    /// 6: no visit is kept.
    NothingKept = 6,
    /// 7: the counts of record, book and theory differ.
    CountsDiffer = 7,
    /// 8: the visit list is shorter than the kept count, or a kept entry is no code.
    BadVisitList = 8,
    /// 9: too many rows, a history list shorter than the rows, or a print buffer under 64 bytes.
    BadBuffer = 9,
}

impl Refusal {
    /// The refusal's number.
    pub fn number(self) -> u8
        ensures { result ≡ number_of self }
    {
        self as u8
    }
}

/// Why a theory does not take a variable or an atom; a sheet that asks for it is refused by 12.
#[derive(Clone, Copy, PartialEq, Eq, Debug, Drop)]
pub enum FillRefusal {
    /// 12: the variable's name or bounds are wrong, its name is taken, or it is past a limit.
    Variable,
    /// 12: the atom names no variable, or is past a limit.
    Atom,
}

impl FillRefusal {
    /// The number of the sheet's refusal.
    // By cases: both have one number, which no two discriminants share.
    pub fn number(self) -> u8
        ensures { result ≡ fill_number self }
    {
        match self {
            FillRefusal::Variable | FillRefusal::Atom => 12,
        }
    }
}

/// Why a sheet is refused, with the place: the offset of the wrong line's first byte.
#[derive(Clone, Copy, PartialEq, Eq, Debug, Drop)]
pub enum SheetRefusal {
    /// 10, place 0: empty, over 65,536 bytes, a byte outside 32 to 126 and 10, or no final byte 10.
    Bytes,
    /// 11: the trailer is wrong; the place is that of the last line.
    Trailer(usize),
    /// 12: a line before the rules is wrong; after a bare heading, the place where the rules begin.
    Opening(usize),
    /// 13: a line from the rules on is wrong.
    Rule(usize),
    /// 14: a line from the notes on is wrong.
    Note(usize),
}

impl SheetRefusal {
    /// The refusal's number.
    // By cases: a case with a place has no discriminant to read.
    pub fn number(self) -> u8
        ensures { result ≡ sheet_number self }
    {
        match self {
            SheetRefusal::Bytes => 10,
            SheetRefusal::Trailer(_) => 11,
            SheetRefusal::Opening(_) => 12,
            SheetRefusal::Rule(_) => 13,
            SheetRefusal::Note(_) => 14,
        }
    }

    /// The refusal's place.
    pub fn place(self) -> usize
        ensures { result ≡ sheet_place self }
    {
        match self {
            SheetRefusal::Bytes => 0,
            SheetRefusal::Trailer(place)
            | SheetRefusal::Opening(place)
            | SheetRefusal::Rule(place)
            | SheetRefusal::Note(place) => place,
        }
    }
}
