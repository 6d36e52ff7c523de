//! Appending to a text, which is given up where no memory is left.
ghost use Rattle.std.specs.Prelude.{◌≡◌, ◌∷◌, ◌++◌, [], OnOk, OnErr};
ghost use Rattle.std.specs.Fmt.{decimal};
ghost use Rattle.fleet_texts.specs.Words.{behind};

use fleet_base::path::NoMemory;
use site_lines::number::{push_bytes, push_number};

/// Appends bytes. Where no memory is left, the text is given up: it is then empty.
pub fn push_text(text: &mut Vec<u8>, bytes: &[u8]) -> Result<(), NoMemory>
    ensures ok { OnOk result (text.new.items ≡ text.old.items ++ bytes.now) }
    ensures err { OnErr result (text.new.items ≡ []) }
{
    let pushed = push_bytes(text, bytes);
    if pushed.is_err() {
        text.clear();
    }
    pushed
}

/// Appends a number in decimal digits, without leading zeros.
pub fn push_decimal(text: &mut Vec<u8>, number: u64) -> Result<(), NoMemory>
    ensures ok { OnOk result (text.new.items ≡ text.old.items ++ decimal number) }
    ensures err { OnErr result (text.new.items ≡ []) }
{
    let pushed = push_number(text, number);
    if pushed.is_err() {
        text.clear();
    }
    pushed
}

/// Appends a space and a word.
pub fn push_word(text: &mut Vec<u8>, word: &[u8]) -> Result<(), NoMemory>
    ensures ok { OnOk result (text.new.items ≡ text.old.items ++ behind (word.now ∷ [])) }
    ensures err { OnErr result (text.new.items ≡ []) }
{
    push_text(text, b" ")?;
    push_text(text, word)
}

/// Appends a space and a number.
pub fn push_number_word(text: &mut Vec<u8>, number: u64) -> Result<(), NoMemory>
    ensures ok { OnOk result (text.new.items ≡ text.old.items ++ behind (decimal number ∷ [])) }
    ensures err { OnErr result (text.new.items ≡ []) }
{
    push_text(text, b" ")?;
    push_decimal(text, number)
}
