// Each public call once, with ample memory.
use site_lines::fault::{At, Code};
use site_lines::line::{Line, is_too_long, line_at, without_return};
use site_lines::number::{NumberRefused, push_bytes, push_number, read_number};
use site_lines::word::{has_bad_byte, is_bad_byte, is_blank, is_word_byte, word_at};
use std::test::Fail;

#[test]
fn a_text_gives_its_lines_in_order(rt: HostRuntime) {
    let text = b"ab\r\n\nc";
    let first = Line {
        start: 0,
        stop: 3,
        next: 4,
        ended: true,
    };
    let blank = Line {
        start: 4,
        stop: 4,
        next: 5,
        ended: true,
    };
    let last = Line {
        start: 5,
        stop: 6,
        next: 6,
        ended: false,
    };
    assert_eq!(rt; line_at(text, 0), Some(first));
    assert_eq!(rt; line_at(text, 4), Some(blank));
    assert_eq!(rt; line_at(text, 5), Some(last));
    assert_eq!(rt; line_at(text, 6), None);
    assert_eq!(rt; line_at(b"", 0), None);
}

#[test]
fn one_carriage_return_is_dropped(rt: HostRuntime) {
    assert!(rt; without_return(b"ab\r") == b"ab".as_slice());
    assert!(rt; without_return(b"ab\r\r") == b"ab\r".as_slice());
    assert!(rt; without_return(b"a\rb") == b"a\rb".as_slice());
    assert!(rt; without_return(b"\r") == b"".as_slice());
    assert!(rt; without_return(b"") == b"".as_slice());
}

#[test]
fn a_long_line_has_more_than_65536_bytes(rt: HostRuntime) -> Result<(), Fail> {
    let mut line = vec![in rt.alloc(); b'a'; 65_536]?;
    assert!(rt; !is_too_long(&line));
    line.push(b'a')?;
    assert!(rt; is_too_long(&line));
    Ok(())
}

#[test]
fn a_line_gives_its_words_in_order(rt: HostRuntime) {
    let line = b" a#b\t c~ #d e";
    assert_eq!(rt; word_at(line, 0), Some((1, 4)));
    assert_eq!(rt; word_at(line, 4), Some((6, 8)));
    assert_eq!(rt; word_at(line, 8), None);
    assert_eq!(rt; word_at(b"", 0), None);
    assert_eq!(rt; word_at(b" \t ", 0), None);
    assert_eq!(rt; word_at(b"end", 0), Some((0, 3)));
    assert!(rt; is_blank(b" \t# a"));
    assert!(rt; !is_blank(b"\ta"));
}

#[test]
fn bad_bytes_count_outside_a_comment(rt: HostRuntime) {
    assert!(rt; !has_bad_byte(b"a\t~ # \x01\xff"));
    assert!(rt; has_bad_byte(b"a#\x01"));
    assert!(rt; has_bad_byte(b"a\r"));
    assert!(rt; has_bad_byte(b"a \x7f"));
    assert!(rt; is_bad_byte(0x1f) && is_bad_byte(0x80) && !is_bad_byte(b' '));
    assert!(rt; is_word_byte(b'!') && !is_word_byte(b' ') && !is_word_byte(0x7f));
}

#[test]
fn numbers_are_read_in_their_range(rt: HostRuntime) {
    let bad = Err(NumberRefused::BadNumber);
    let out = Err(NumberRefused::OutOfRange);
    assert_eq!(rt; read_number(b"064", 9, 1, 64), Ok(64));
    assert_eq!(rt; read_number(b"65", 9, 1, 64), out);
    assert_eq!(rt; read_number(b"000", 9, 1, 64), out);
    assert_eq!(rt; read_number(b"", 9, 0, 64), bad);
    assert_eq!(rt; read_number(b"+1", 9, 0, 64), bad);
    assert_eq!(rt; read_number(b"0000000001", 9, 0, 64), bad);
    assert_eq!(rt;
        read_number(b"999999999999999999", 18, 0, u64::MAX),
        Ok(999_999_999_999_999_999)
    );
}

#[test]
fn numbers_and_bytes_are_appended(rt: HostRuntime) -> Result<(), Fail> {
    let mut text = Vec::new(rt.alloc());
    push_bytes(&mut text, b"n ").map_err(|_| "memory")?;
    push_number(&mut text, 0).map_err(|_| "memory")?;
    push_bytes(&mut text, b" ").map_err(|_| "memory")?;
    push_number(&mut text, u64::MAX).map_err(|_| "memory")?;
    assert!(rt; text.as_slice() == b"n 0 18446744073709551615".as_slice());
    Ok(())
}

#[test]
fn codes_have_their_texts(rt: HostRuntime) {
    let at = At {
        line: 7,
        code: Code::S1,
    };
    assert_eq!(rt; at.code.text(), "S1");
    assert_eq!(rt; Code::S23.text(), "S23");
    assert_eq!(rt; Code::C1.text(), "C1");
    assert_eq!(rt; Code::C7.text(), "C7");
    assert_eq!(rt; Code::J1.text(), "J1");
    assert_eq!(rt; Code::J10.text(), "J10");
    assert_eq!(rt; Code::T1.text(), "T1");
    assert_eq!(rt; Code::T3.text(), "T3");
}
