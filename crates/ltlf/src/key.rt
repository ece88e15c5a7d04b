// The key by which a formula is found among those put before.
ghost use Rattle.std.specs.Prelude.{◌≡◌};
ghost use Rattle.ltlf.specs.Nodes.{same, key, node_turn};
ghost use Rattle.std.proofs.Common.{rules, ◌∙◌};
ghost use Rattle.ltlf.specs.Equal.{derived_is_same};

use super::node::Node;
use intern::Keyed;

impl Node {
    /// Kind and operands as one number.
    fn key(self) -> u32
        ensures { result ≡ key self }
    {
        let (kind, left, right) = match self {
            Node::True => (0, 0, 0),
            Node::False => (1, 0, 0),
            Node::Atom(a) => (2, a, 0),
            Node::NotAtom(a) => (3, a, 0),
            Node::And(f, g) => (4, f, g),
            Node::Or(f, g) => (5, f, g),
            Node::Tomorrow(f) => (6, f, 0),
            Node::WeakTomorrow(f) => (7, f, 0),
            Node::Until(f, g) => (8, f, g),
            Node::Release(f, g) => (9, f, g),
        };
        65_536 * kind + u32::from(left) + 256 * u32::from(right)
    }
}

impl Keyed for Node {
    ghost alike = { same };

    ghost turns = { node_turn };

    ghost decides = { λ x y b e. e ∙ derived_is_same x y };

    ghost reflexive = { unfold same in Prim.search rules };

    ghost symmetric = { unfold same in Prim.search rules };

    ghost transitive = { unfold same in Prim.search rules };

    ghost agree = { unfold same in Prim.search rules };

    fn turn(&self, depth: usize) -> bool {
        (self.key() >> (depth % 20)) % 2 == 1
    }
}
