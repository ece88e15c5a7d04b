// Whether bounds, terms and sums lie within the limits.
ghost use Rattle.std.specs.Prelude.{◌≡◌, ◌^◌, ◌≤◌};
ghost use Rattle.numbers.specs.Limits.{within, value_count, bounds_fit, term_fits, terms_fit, sum_fits};

use super::term::Term;

/// Whether a number lies within ±`limit`.
pub(crate) fn is_within(limit: u32, number: i32) -> bool
    ensures { result ≡ within limit number }
{
    number.unsigned_abs() <= limit
}

/// How many values there are from `low` to `high`.
pub(crate) fn count_values(low: i32, high: i32) -> u64
    ensures is { result ≡ value_count low high }
    ensures few { result ≤ 2 ^ 32 }
{
    high.abs_diff(low) as u64 + 1
}

/// Whether bounds make a variable, and at most 4,096 codes beside `codes` codes.
pub(crate) fn fit_bounds(codes: u16, low: i32, high: i32) -> bool
    ensures { result ≡ bounds_fit codes low high }
{
    is_within(10_000, low)
        && is_within(10_000, high)
        && low <= high
        && codes as u64 * count_values(low, high) <= 4096
}

/// Whether a term names one of `variables` variables, with a coefficient in range.
fn fit_term(variables: u8, term: Term) -> bool
    ensures { result ≡ term_fits variables term }
{
    term.variable < variables && is_within(1_000, term.coefficient)
}

/// Whether every term does.
fn fit_terms(variables: u8, terms: &[Term]) -> bool
    ensures { result ≡ terms_fit variables terms.now }
{
    terms.iter().all(|term| fit_term(variables, *term))
}

/// Whether terms and a constant make an atom.
pub(crate) fn fit_sum(variables: u8, terms: &[Term], constant: i32) -> bool
    ensures { result ≡ sum_fits variables terms.now constant }
{
    0 < terms.len()
        && terms.len() <= 4
        && fit_terms(variables, terms)
        && is_within(40_000_000, constant)
}
