//! The lines of a text.

ghost use Rattle.std.specs.Prelude.{◌≡◌, ◌≤◌, ◌<◌, ◌↔◌, [], ◌∷◌, length, drop, slice_range, MatchOption, IfSome, IsNone};
ghost use Rattle.std.specs.List.{position_or_len};
ghost use Rattle.site_lines.specs.Lines.{is_feed, line_from, lines_of, without_return, is_too_long};

use fleet_base::limits::MAX_LINE;
use memchr::memchr;

/// Where a line of a text stands.
#[derive(Clone, Copy, Debug, PartialEq, Eq)]
pub struct Line {
    /// The place of its first byte.
    pub start: usize,
    /// The place behind its last byte; its line feed isn't counted.
    pub stop: usize,
    /// The place where the next line begins: behind the line feed, or the end of the text.
    pub next: usize,
    /// Whether a line feed ended it. The last line of a text may lack one.
    pub ended: bool,
}

/// The line that begins at a place of a text. None exactly at the end of the text.
///
/// Begun at 0 and gone on from each line's `next`, it gives the lines of the text in order.
pub fn line_at(bytes: &[u8], from: usize) -> Option<Line>
    requires { from ≤ length bytes.now }
    ensures is { result ≡ line_from bytes.now from }
    ensures none { IsNone result ↔ (from ≡ length bytes.now) }

    // It is the first of the lines that are left, and the others are those from its `next` on.
    ensures lines { MatchOption result (lines_of (drop from bytes.now) ≡ [])
        (λ l. lines_of (drop from bytes.now) ≡ slice_range bytes.now l.start l.stop ∷ lines_of (drop l.next bytes.now)) }
    ensures within { IfSome result (λ l. (l.start ≡ from) × (from ≤ l.stop) × (l.stop ≤ l.next) × (from < l.next) × (l.next ≤ length bytes.now)) }
{
    if from == bytes.len() {
        return None;
    }
    let stop = from + until_feed(&bytes[from..]);
    let ended = stop < bytes.len();
    let next = if ended { stop + 1 } else { stop };
    Some(Line {
        start: from,
        stop,
        next,
        ended,
    })
}

// How many bytes stand before the first line feed, or all.
fn until_feed(bytes: &[u8]) -> usize
    ensures is { result ≡ position_or_len is_feed bytes.now }
    ensures within { result ≤ length bytes.now }
{
    match memchr(b'\n', bytes) {
        Some(place) => place,
        None => bytes.len(),
    }
}

/// A line without the carriage return at its end, if it has one there. Of several just the last
/// one is dropped.
pub fn without_return(line: &[u8]) -> &[u8]
    ensures is { result.now ≡ without_return line.now }
    ensures shorter { length result.now ≤ length line.now }
{
    match line {
        [front @ .., b'\r'] => front,
        _ => line,
    }
}

/// Whether a line has more than 65,536 bytes. The bytes of an input line are handed in without its
/// line feed and its dropped carriage return.
pub fn is_too_long(line: &[u8]) -> bool
    ensures { result ≡ is_too_long line.now }
{
    line.len() > MAX_LINE as usize
}
