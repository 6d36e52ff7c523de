//! How fast lines and words are read. It prints the counts of a small text, or with the word `time`
//! reads 4 MiB and prints bytes a second.
#![tactic(auto)]

ghost use Rattle.std.specs.Prelude.{◌≡◌, ◌≤◌, length, sum_by};
ghost use Rattle.site_lines.specs.Lines.{lines_of};
ghost use Rattle.site_lines.specs.Words.{words_of};

use site_lines::line::line_at;
use site_lines::word::word_at;
use std::alloc::{AllocError, Global};
use std::time::{Clock, Instant};
use std::{env, io};

const LINES: &[u8] = b"cell a b\tc d12 # four cells\n\nlink d12 a 1000000\r\nvisit a#b\n";

/// The numbers of lines and words of a text.
#[derive(Clone, Copy, Debug, PartialEq, Eq)]
struct Counts {
    lines: usize,
    words: usize,
}

fn counts_of(text: &[u8]) -> Counts
    ensures lines { result.lines ≡ length (lines_of text.now) }
    ensures words { result.words ≡ sum_by (λ line. length (words_of line)) (lines_of text.now) }
{
    let mut lines = 0;
    let mut words = 0;
    let mut place = 0;
    while let Some(line) = line_at(text, place) {
        lines += 1;
        words += count_words(&text[line.start..line.stop]);
        place = line.next;
    }
    Counts { lines, words }
}

fn count_words(line: &[u8]) -> usize
    ensures is { result ≡ length (words_of line.now) }
    ensures few { result ≤ length line.now }
{
    let mut count = 0;
    let mut place = 0;
    while let Some((_, stop)) = word_at(line, place) {
        count += 1;
        place = stop;
    }
    count
}

// At least so many bytes of lines.
fn text_of(alloc: Global, bytes: usize) -> Result<Vec<u8>, AllocError> {
    let mut text = Vec::new(alloc);
    for _ in 0..bytes / LINES.len() + 1 {
        text.extend_from_slice(LINES)?;
    }
    Ok(text)
}

fn time(rt: &(impl Clock + Print), alloc: Global) -> io::Result<()> {
    let text = text_of(alloc, 4_194_304)?;
    let start = Instant::now(rt)?;
    let counts = counts_of(&text);
    let taken = start.elapsed(rt)?;
    let nanos = taken
        .as_secs()
        .saturating_mul(1_000_000_000)
        .saturating_add(u64::from(taken.subsec_nanos()));
    let bytes = text.len() as u64;
    let speed = bytes.saturating_mul(1_000_000_000) / nanos.max(1);
    println!(rt;
        "{bytes} bytes, {} lines, {} words",
        counts.lines, counts.words
    )?;
    println!(rt; "{nanos} nanoseconds, {speed} bytes a second")
}

fn main(rt: HostRuntime) -> io::Result<()> {
    for word in env::args(&rt)?.skip(1) {
        if word.as_str() == "time" {
            return time(&rt, rt.alloc());
        }
    }
    let counts = counts_of(&text_of(rt.alloc(), 1_000)?);
    println!(rt; "{} lines, {} words", counts.lines, counts.words)
}
