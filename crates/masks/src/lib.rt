// Sets of numbers below 64, as the bits of a mask. A number from 64 on is in no set.
// Promises: every answer equals a definition over the bits, for all masks and numbers.
#![tactic(auto)]

ghost use Rattle.std.specs.Prelude.{◌≡◌};
ghost use Rattle.masks.specs.Masks.{has, including, excluding, within};

/// Whether the set has a number.
pub fn contains(mask: u64, number: u8) -> bool
    ensures { result ≡ has mask number }
{
    number < 64 && (mask >> number) & 1 == 1
}

/// The set with one more number.
pub fn with(mask: u64, number: u8) -> u64
    ensures { result ≡ including mask number }
{
    if number < 64 {
        mask | (1 << number)
    } else {
        mask
    }
}

/// The set without a number.
pub fn without(mask: u64, number: u8) -> u64
    ensures { result ≡ excluding mask number }
{
    if contains(mask, number) {
        mask ^ (1 << number)
    } else {
        mask
    }
}

/// Whether every number of a set is one of `others`.
pub fn inside(mask: u64, others: u64) -> bool
    ensures { result ≡ within mask others }
{
    mask | others == others
}
