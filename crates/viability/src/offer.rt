// What a formula asks and brings: the one place that knows the kinds of nodes.
ghost use Rattle.std.specs.Prelude.{◌≡◌, ◌<◌, Decides};
ghost use Rattle.viability.specs.Moments.{moment, Admits};
ghost use Rattle.viability.specs.Offers.{chosen, Offered, OffersSide, OperandsBelow};

use super::labels::with;
use ltlf::Node;
use masks::contains;

/// The two ways in which an or, an until or a release can be met.
#[derive(Clone, Copy, PartialEq, Eq, Debug, Drop)]
pub enum Side {
    One,
    Other,
}

/// What a member of an expansion that is admitted on a side brings into the expansion and into the next label.
#[derive(Clone, Copy, PartialEq, Eq, Debug, Drop)]
pub struct Offer {
    pub parts: u64,
    pub handed: u64,
}

impl Offer {
    /// An offer by its fields.
    pub(crate) fn new(parts: u64, handed: u64) -> Offer
        ensures { (result.parts ≡ parts) × (result.handed ≡ handed) }
    {
        Offer { parts, handed }
    }
}

/// Whether a node is admitted on a side, where the atoms of `truth` hold and the visit is the last or not.
fn admits(node: Node, side: Side, truth: u64, last: bool) -> bool
    ensures { Decides result (Admits (moment truth last) node (chosen side)) }
{
    match (node, side) {
        (Node::True, _) => true,
        (Node::False, _) => false,
        (Node::Atom(a), _) => contains(truth, a),
        (Node::NotAtom(a), _) => !contains(truth, a),
        (Node::And(_, _) | Node::Or(_, _), _) => true,
        (Node::Tomorrow(_), _) => !last,
        (Node::WeakTomorrow(_), _) => true,
        (Node::Until(_, _), Side::One) => true,
        (Node::Until(_, _), Side::Other) => !last,
        (Node::Release(_, _), _) => true,
    }
}

/// What a node with a number brings on a side, whether it is admitted there or not.
// That the number is below 64 is a fact of each contract, here and at a guide: a type for it would reach into every label.
pub(crate) fn brings_on(node: Node, number: u8, side: Side) -> Offer
    requires { (number < 64) × (OperandsBelow number node) }
    ensures { OffersSide number node (chosen side) result }
{
    let carried = with(0, number);
    match (node, side) {
        (Node::True | Node::False | Node::Atom(_) | Node::NotAtom(_), _) => Offer::new(0, 0),
        (Node::And(f, g), _) => Offer::new(with(with(0, g), f), 0),
        (Node::Or(f, _), Side::One) => Offer::new(with(0, f), 0),
        (Node::Or(_, g), Side::Other) => Offer::new(with(0, g), 0),
        (Node::Tomorrow(f) | Node::WeakTomorrow(f), _) => Offer::new(0, with(0, f)),
        (Node::Until(_, g), Side::One) => Offer::new(with(0, g), 0),
        (Node::Until(f, _), Side::Other) => Offer::new(with(0, f), carried),
        (Node::Release(f, g), Side::One) => Offer::new(with(with(0, g), f), 0),
        (Node::Release(_, g), Side::Other) => Offer::new(with(0, g), carried),
    }
}

/// The offer of a node with a number on a side; none where it is not admitted.
pub(crate) fn offer_on(node: Node, number: u8, side: Side, truth: u64, last: bool) -> Option<Offer>
    requires { (number < 64) × (OperandsBelow number node) }
    ensures { Offered (moment truth last) number node (chosen side) result }
{
    if !admits(node, side, truth, last) {
        return None;
    }
    Some(brings_on(node, number, side))
}
