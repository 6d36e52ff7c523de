//! Words of 64 bits as sets of numbers below 64.

ghost use Rattle.std.specs.Prelude.{◌≡◌, ◌<◌, ◌≤◌, ◌==◌, ◌&&◌, ◌||◌, ℕ, not, true, false, IfSome, IfNone};
ghost use Rattle.bit_set.specs.Words.{is_in};

/// Whether the number is in the set.
pub fn has(set: u64, number: u32) -> bool
    requires { number < 64 }
    ensures { result ≡ is_in set number }
{
    (set >> number) & 1 == 1
}

/// The set with the number, which may be in it already.
pub fn with(set: u64, number: u32) -> u64
    requires { number < 64 }
    ensures { (n : ℕ) → is_in result n ≡ (n == number || is_in set n) }
{
    set | (1 << number)
}

/// The set without the number, which may be missing.
pub fn without(set: u64, number: u32) -> u64
    requires { number < 64 }
    ensures { (n : ℕ) → is_in result n ≡ (not (n == number) && is_in set n) }
{
    set & !(1 << number)
}

/// The least number of the set that isn't below `from`. None exactly where there is none.
pub fn next(set: u64, from: u32) -> Option<u32>
    ensures member { IfSome result (λ n. is_in set n ≡ true) }
    ensures behind { IfSome result (λ n. from ≤ n) }
    ensures below { IfSome result (λ n. n < 64) }
    ensures least { IfSome result (λ n. (m : ℕ) →
        from ≤ m → is_in set m ≡ true → n ≤ m) }
    ensures none { IfNone result ((m : ℕ) → from ≤ m → is_in set m ≡ false) }
{
    if from >= 64 {
        return None;
    }
    let rest = set >> from;
    if rest == 0 {
        None
    } else {
        Some(from + rest.trailing_zeros())
    }
}
