// The static library that the benchmark of `holds` links. Rests on `numbers_bench`.
// Promises: a count is the one that `numbers_bench` promises.
#![tactic(auto)]

ghost use Rattle.std.specs.Prelude.{◌≡◌};
ghost use Rattle.numbers.specs.Model.{numbers_of, numbers_meaning};
ghost use Rattle.numbers.specs.declared.numbers.Numbers.{Numbers};
ghost use Rattle.numbers_bench.specs.Counts.{facts_in};

/// At how many pairs of codes an atom of the benchmark's theory holds.
#[unsafe(no_mangle)]
pub extern "C" fn numbers_bench_count(atom: u8) -> u64
    ensures { (t : Numbers) × (result ≡ facts_in (numbers_meaning (numbers_of t)) atom (numbers_meaning (numbers_of t)).codes) }
{
    numbers_bench::numbers_bench_count(atom)
}
