//! The words of an input line.

ghost use Rattle.std.specs.Prelude.{◌≡◌, ◌≤◌, ◌<◌, [], ◌∷◌, length, drop, slice_range, MatchOption, IfSome};
ghost use Rattle.std.specs.List.{position_or_len, prefix_len};
ghost use Rattle.site_lines.specs.Words.{is_word_byte, is_bad_byte, word_from, words_of, has_bad_byte, is_blank};

/// The next word of a line from a place on: where it begins, and the place behind its last byte.
/// None where no word stands there any more; a comment is none, and its bytes aren't looked at.
///
/// The place is 0 or the end of a word, so that a word may begin there.
pub fn word_at(line: &[u8], from: usize) -> Option<(usize, usize)>
    requires { from ≤ length line.now }
    ensures is { result ≡ word_from line.now from }

    // It is the first of the words that are left, and the others are those from its end on.
    ensures words { MatchOption result (words_of (drop from line.now) ≡ [])
        (λ w. words_of (drop from line.now) ≡ slice_range line.now w.0 w.1 ∷ words_of (drop w.1 line.now)) }
    ensures within { IfSome result (λ w. (from ≤ w.0) × (w.0 < w.1) × (w.1 ≤ length line.now)) }
{
    let start = from + until_word(&line[from..]);
    if start == line.len() || line[start] == b'#' {
        return None;
    }
    Some((start, start + until_blank(&line[start..])))
}

/// Whether a byte may stand in a word: 0x21 to 0x7E.
pub fn is_word_byte(byte: u8) -> bool
    ensures { result ≡ is_word_byte byte }
{
    byte >= 0x21 && byte <= 0x7e
}

/// Whether a byte may not stand outside a comment: all but the tab and 0x20 to 0x7E.
pub fn is_bad_byte(byte: u8) -> bool
    ensures { result ≡ is_bad_byte byte }
{
    byte != b'\t' && (byte < 0x20 || byte > 0x7e)
}

/// Whether a bad byte stands in the line before its comment.
pub fn has_bad_byte(line: &[u8]) -> bool
    ensures { result ≡ has_bad_byte line.now }
{
    let mut within = false;
    for byte in line {
        if !within && *byte == b'#' {
            return false;
        }
        if is_bad_byte(*byte) {
            return true;
        }
        within = is_word_byte(*byte);
    }
    false
}

/// Whether the line has no word.
pub fn is_blank(line: &[u8]) -> bool
    ensures { result ≡ is_blank line.now }
{
    word_at(line, 0).is_none()
}

// How many bytes stand before the first that may stand in a word, or all.
fn until_word(bytes: &[u8]) -> usize
    ensures is { result ≡ position_or_len is_word_byte bytes.now }
    ensures within { result ≤ length bytes.now }
{
    for (place, byte) in bytes.iter().enumerate() {
        if is_word_byte(*byte) {
            return place;
        }
    }
    bytes.len()
}

// How many bytes stand before the first that may not stand in a word, or all.
fn until_blank(bytes: &[u8]) -> usize
    ensures is { result ≡ prefix_len is_word_byte bytes.now }
    ensures within { result ≤ length bytes.now }
{
    for (place, byte) in bytes.iter().enumerate() {
        if !is_word_byte(*byte) {
            return place;
        }
    }
    bytes.len()
}
