/// When a term reads its variable: at the visit, at its weak next or at its strong next, the stronger the later.
#[derive(Clone, Copy, PartialEq, Eq, PartialOrd, Ord, Debug, Default, Drop)]
pub enum Moment {
    #[default]
    Now,
    WeakNext,
    Next,
}

/// How an atom compares its sum with its constant.
#[derive(Clone, Copy, PartialEq, Eq, Debug, Default, Drop)]
pub enum Comparison {
    #[default]
    Equal,
    Less,
    AtMost,
}

/// A coefficient times a variable, named by its number, at a moment.
#[derive(Clone, Copy, PartialEq, Eq, Debug, Default, Drop)]
pub struct Term {
    pub coefficient: i32,
    pub variable: u8,
    pub moment: Moment,
}
