//! Sets of numbers below 64, as the bits of a number.
ghost use Rattle.std.specs.Prelude.{◌≡◌, ℕ, ◌<◌, ◌==◌, ◌||◌, true};
ghost use Rattle.hx_best.specs.Numbers.{has_number};

/// The set with a number more.
pub fn with(set: u64, number: usize) -> u64
    requires { number < 64 }
    ensures { (k : ℕ) → has_number result k ≡ (has_number set k || (k == number)) }
{
    set | (1 << number)
}

/// Whether it is the set of all numbers below one.
pub fn is_all_below(set: u64, count: usize) -> bool
    requires { count < 64 }
    ensures { result ≡ true → (k : ℕ) → k < count → has_number set k ≡ true }
{
    set == (1 << count) - 1
}
