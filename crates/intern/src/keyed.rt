ghost use Rattle.std.specs.Prelude.{◌≡◌, ℕ, Bool, true};

/// A kind of record with an equality, and a key whose bits steer the walk.
pub trait Keyed: PartialEq {
    // The equality: an equivalence, which may skip a part of a record.
    ghost alike: { Self → Self → Bool };

    // The bits of the key, at each depth of the walk.
    ghost turns: { Self → ℕ → Bool };

    /// The bit of the key at `depth`: whether the walk goes right.
    fn turn(&self, depth: usize) -> bool
        ensures { result ≡ turns self.now depth };

    ghost decides: { (x y : Self) (b : Bool) → (b ≡ Self.PartialEq.eq x y) → b ≡ alike x y };

    ghost reflexive: { (x : Self) → alike x x ≡ true };

    ghost symmetric: { (x y : Self) → alike x y ≡ true → alike y x ≡ true };

    ghost transitive: { (x y z : Self) → alike x y ≡ true → alike y z ≡ true → alike x z ≡ true };

    ghost agree: { (x y : Self) → alike x y ≡ true → (d : ℕ) → turns x d ≡ turns y d };
}
