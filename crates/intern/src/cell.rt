ghost use Rattle.std.specs.Prelude.{◌≡◌};
ghost use Rattle.intern.specs.Links.{leaf, child_of, linked};

/// A record, with links to the cells where a walk goes on to the left and to the right.
// The links are indices, not boxes: nothing here touches the heap.
#[derive(Clone, Copy, Drop)]
pub struct Cell<R> {
    pub item: R,
    pub left: Option<u32>,
    pub right: Option<u32>,
}

impl<R: Copy> Cell<R> {
    /// A cell with no links.
    pub fn new(item: R) -> Cell<R>
        ensures { result ≡ leaf item }
    {
        Cell {
            item,
            left: None,
            right: None,
        }
    }

    /// The link on one side.
    pub(crate) fn child(self, right: bool) -> Option<u32>
        ensures { result ≡ child_of self right }
    {
        if right { self.right } else { self.left }
    }

    /// The cell with its link on one side set.
    pub(crate) fn link(self, right: bool, to: u32) -> Cell<R>
        ensures { result ≡ linked self right to }
    {
        let to = Some(to);
        if right {
            Cell { right: to, ..self }
        } else {
            Cell { left: to, ..self }
        }
    }
}
