//! Numbers in decimal digits, and texts that grow.

ghost use Rattle.std.specs.Prelude.{◌≡◌, ◌≤◌, ◌↔◌, ◌++◌, length, true, false, if◌then◌else◌, IfOk, OnOk, OnErr};
ghost use Rattle.std.specs.Fmt.{decimal};
ghost use Rattle.std.specs.Str.{all_ascii_digits};
ghost use Rattle.std.specs.Str.Parse.{digits_value};
ghost use Rattle.site_lines.specs.Numbers.{number_of, is_number, IsWithin};

use fleet_base::path::NoMemory;
use itoa::Buffer;

/// Why a word is refused in the place of a number; the first cause in this order.
#[derive(Clone, Copy, Debug, PartialEq, Eq)]
pub enum NumberRefused {
    /// It isn't 1 to so many decimal digits.
    BadNumber,
    /// Its value isn't in the range.
    OutOfRange,
}

/// The number that a word says, from `low` to `high`. The word has 1 to `digits` decimal digits;
/// leading zeros are allowed, and count as digits.
///
/// `BadNumber` comes exactly where the word isn't 1 to `digits` decimal digits, and `OutOfRange`
/// exactly where it is and its value isn't in the range. `digits` is at most 18.
pub fn read_number(word: &[u8], digits: u32, low: u64, high: u64) -> Result<u64, NumberRefused>
    requires { digits ≤ 18 }
    ensures is { result ≡ number_of word.now digits low high }
    ensures bad { (result ≡ Err NumberRefused.BadNumber) ↔ (is_number digits word.now ≡ false) }
    ensures out { (result ≡ Err NumberRefused.OutOfRange) ↔ ((is_number digits word.now ≡ true) × ¬ IsWithin low high (digits_value 10 word.now)) }
    ensures within { IfOk result (λ value. (low ≤ value) × (value ≤ high)) }
{
    if word.is_empty() || word.len() > digits as usize {
        return Err(NumberRefused::BadNumber);
    }
    let Some(value) = value_of(word) else {
        return Err(NumberRefused::BadNumber);
    };
    if value < low || value > high {
        return Err(NumberRefused::OutOfRange);
    }
    Ok(value)
}

// The value of decimal digits.
fn value_of(word: &[u8]) -> Option<u64>
    requires { length word.now ≤ 18 }
    ensures { result ≡ (if all_ascii_digits word.now then Some (digits_value 10 word.now) else None) }
{
    let mut value = 0u64;
    for b in word {
        if !b.is_ascii_digit() {
            return None;
        }
        value = value * 10 + u64::from(*b - b'0');
    }
    Some(value)
}

/// Appends the decimal text of a number, without leading zeros. Where no memory is left, the text
/// stays as it was.
pub fn push_number(text: &mut Vec<u8>, value: u64) -> Result<(), NoMemory>
    ensures ok { OnOk result (text.new.items ≡ text.old.items ++ decimal value) }
    ensures err { OnErr result (text.new.items ≡ text.old.items) }
{
    let mut buffer = Buffer::new();
    push_bytes(text, buffer.format(value).as_bytes())
}

/// Appends bytes. Where no memory is left, the text stays as it was.
pub fn push_bytes(text: &mut Vec<u8>, bytes: &[u8]) -> Result<(), NoMemory>
    ensures ok { OnOk result (text.new.items ≡ text.old.items ++ bytes.now) }
    ensures err { OnErr result (text.new.items ≡ text.old.items) }
{
    Ok(text.extend_from_slice(bytes)?)
}
