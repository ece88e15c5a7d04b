/// A formula by its kind and its operands, which are numbers of atoms or of formulas put before.
#[derive(Clone, Copy, PartialEq, Eq, Debug, Drop)]
pub enum Node {
    True,
    False,
    Atom(u8),
    NotAtom(u8),
    And(u8, u8),
    Or(u8, u8),
    Tomorrow(u8),
    WeakTomorrow(u8),
    Until(u8, u8),
    Release(u8, u8),
}
