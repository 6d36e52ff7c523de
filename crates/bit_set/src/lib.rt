//! Sets of small numbers, one bit for each number, in place.
#![tactic(auto)]

ghost use Rattle.std.specs.Prelude.{◌≡◌, ℕ, ◌+◌, ◌*◌, ◌^◌, ◌<◌, ◌≤◌, ◌↔◌, true, false, IsTrue, IfSome, IfNone};
ghost use Rattle.std.specs.Ordering.{nat_cmp};
ghost use Rattle.std.specs.FinSet as set;
ghost use Rattle.bit_set.specs.Words.{is_in};

pub mod word;

use std::marker::Model;

/// A set of numbers below 64 times `WORDS`, kept as one bit for each number. It takes no memory.
#[derive(Clone, Copy)]
pub struct BitSet<const WORDS: usize> {
    words: [u64; WORDS],
}

impl<const WORDS: usize> Model for BitSet<WORDS> {
    ghost use Rattle.std.specs.Ordering.{nat_cmp};
    ghost use Rattle.std.specs.FinSet as set;
    ghost use Rattle.std.specs.Coded.{coded_ℕ};
    ghost use Rattle.bit_set.specs.Words.{AreWords, members_of, words_of};
    ghost use Rattle.bit_set.specs.GivenBack.{words_of-members_of};

    ghost Value = { set.FinSet nat_cmp };

    ghost coded = { set.code coded_ℕ };

    ghost view = { λ s. members_of s.words };

    ghost invariant = { λ s. AreWords WORDS s.words };

    ghost inverse = { λ numbers. record { words = words_of WORDS numbers } };

    ghost inverse_ok = { λ s are i. record { words = words_of-members_of WORDS s.words are i } };
}

impl<const WORDS: usize> BitSet<WORDS> {
    /// The empty set.
    pub fn new() -> Self
        ensures { result ≡ set.empty }
    {
        BitSet { words: [0; WORDS] }
    }

    /// Whether the number is in the set. All numbers of the set are below 64 times `WORDS`.
    pub fn contains(&self, number: u32) -> bool
        requires { number < 64 * WORDS }
        ensures found { result ≡ set.contains self.now number }
        ensures bound { (n : ℕ) → set.contains self.now n ≡ true → n < 64 * WORDS }
    {
        self.words[(number / 64) as usize] & (1 << (number % 64)) != 0
    }

    /// Puts the number into the set, where it may be already.
    pub fn insert(&mut self, number: u32)
        requires { number < 64 * WORDS }
        ensures { self.new ≡ set.insert self.old number }
    {
        self.words[(number / 64) as usize] |= 1 << (number % 64);
    }

    /// Takes the number out of the set, where it may be missing.
    pub fn remove(&mut self, number: u32)
        requires { number < 64 * WORDS }
        ensures { self.new ≡ set.remove self.old number }
    {
        self.words[(number / 64) as usize] &= !(1 << (number % 64));
    }

    /// Whether the set has no number.
    pub fn is_empty(&self) -> bool
        ensures { IsTrue result ↔ (self.now ≡ set.empty) }
    {
        for word in &self.words {
            if *word != 0 {
                return false;
            }
        }
        true
    }

    /// The least number of the set that isn't below `from`. None exactly where there is none.
    pub fn next(&self, from: u32) -> Option<u32>
        requires { 64 * WORDS ≤ 2 ^ 32 }
        ensures member { IfSome result (λ n. set.contains self.now n ≡ true) }
        ensures behind { IfSome result (λ n. from ≤ n) }
        ensures below { IfSome result (λ n. n < 64 * WORDS) }
        ensures least { IfSome result (λ n. (m : ℕ) →
            from ≤ m → set.contains self.now m ≡ true → n ≤ m) }
        ensures none { IfNone result ((m : ℕ) → from ≤ m → set.contains self.now m ≡ false) }
    {
        let mut low = from % 64;
        for place in (from / 64) as usize..WORDS {
            if let Some(bit) = word::next(self.words[place], low) {
                return Some(64 * place as u32 + bit);
            }
            low = 0;
        }
        None
    }

    /// The word at the place: which of the 64 numbers from 64 times the place on are in the set.
    pub fn word(&self, place: usize) -> u64
        requires { place < WORDS }
        ensures { (i : ℕ) → i < 64 → is_in result i ≡ set.contains self.now (64 * place + i) }
    {
        self.words[place]
    }
}

#[cfg(test)]
mod tests {
    use super::*;

    #[test]
    fn keeps_numbers(rt: HostRuntime) {
        let mut set: BitSet<2> = BitSet::new();
        assert!(rt; set.is_empty());
        assert_eq!(rt; set.next(0), None);
        set.insert(127);
        set.insert(64);
        set.insert(3);
        let with_three = set;
        set.remove(3);
        assert!(rt; with_three.contains(3));
        assert!(rt; !set.is_empty());
        assert_eq!(rt; set.next(0), Some(64));
        assert_eq!(rt; set.next(65), Some(127));
        assert_eq!(rt; set.next(128), None);
        assert_eq!(rt; set.word(1), (1 << 63) + 1);
        for (number, there) in [
            (3, false),
            (63, false),
            (64, true),
            (126, false),
            (127, true),
        ] {
            assert_eq!(rt; set.contains(number), there, "at {number}");
        }
    }

    #[test]
    fn words_are_sets(rt: HostRuntime) {
        let set = word::with(word::with(0, 63), 5);
        assert!(rt; word::has(set, 63));
        assert!(rt; !word::has(set, 6));
        assert_eq!(rt; word::without(set, 63), 32);
        assert_eq!(rt; word::next(set, 6), Some(63));
        assert_eq!(rt; word::next(set, 64), None);
    }
}
