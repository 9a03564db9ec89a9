//! Lines, tokens, numbers and pages.
use std::test::Fail;
use surf_text::{Lines, Page, PageFault, Tokens, read_whole};

#[test]
fn lines_and_tokens(rt: HostRuntime) -> Result<(), Fail> {
    let text = b"# no token\r\n\n \t a b\t\rc  # d\ne#f\n#\n\x0c \xc2\xa0".as_slice();
    let mut lines = Lines::over(text);
    for (number, bytes, second, rest) in [
        (
            3,
            b"a b\t\rc".as_slice(),
            Some(b"b".as_slice()),
            b"c".as_slice(),
        ),
        (4, b"e".as_slice(), None, b"".as_slice()),
        (
            6,
            b"\x0c \xc2\xa0".as_slice(),
            Some(b"\xc2\xa0".as_slice()),
            b"".as_slice(),
        ),
    ] {
        let line = lines.next_line().ok_or("a line")?;
        assert_eq!(rt; line.number, number);
        assert_eq!(rt; line.bytes, bytes);
        let mut tokens = Tokens::over(line.bytes);
        assert!(rt; tokens.next_token().is_some());
        assert!(rt; tokens.next_token() == second);
        assert_eq!(rt; tokens.rest(), rest);
        assert_eq!(rt; tokens.is_empty(), rest.is_empty());
    }
    assert!(rt; lines.next_line().is_none());
    assert!(rt; lines.next_line().is_none());
    Ok(())
}

#[test]
fn signs_between_blanks(rt: HostRuntime) {
    let line = b" # copy 0#1".as_slice();
    assert!(rt; Tokens::over(line).is_empty());
    assert!(rt; Tokens::between_blanks(line).has(3));
    assert!(rt; !Tokens::between_blanks(line).has(4));
}

#[test]
fn numbers(rt: HostRuntime) {
    for (token, want) in [
        (b"0".as_slice(), Some(0)),
        (b"0007".as_slice(), Some(7)),
        (b"18446744073709551615".as_slice(), Some(u64::MAX)),
        (b"18446744073709551616".as_slice(), None),
        (b"".as_slice(), None),
        (b"+1".as_slice(), None),
        (b"1.0".as_slice(), None),
        (b"\xd9\xa1".as_slice(), None),
    ] {
        assert_eq!(rt; read_whole(token), want);
    }
}

#[test]
fn pages_fill(rt: HostRuntime) {
    let mut page = Page::make(rt.alloc(), 4);
    assert_eq!(rt; page.push_bytes(b"abc"), Ok(()));
    assert_eq!(rt; page.push_bytes(b"de"), Err(PageFault::Full));
    assert_eq!(rt; page.push_whole(10), Err(PageFault::Full));
    assert_eq!(rt; page.bytes(), b"abc".as_slice());
    assert_eq!(rt; page.push_whole(7), Ok(()));
    assert_eq!(rt; page.push_bytes(b""), Ok(()));
    assert_eq!(rt; page.bytes(), b"abc7".as_slice());
}

// It is longer than a text that grows by doubling.
#[test]
fn a_long_page_grows(rt: HostRuntime) -> Result<(), Fail> {
    let alloc = rt.alloc();
    let line = vec![in alloc; b'x'; 100_000]?;
    let mut page = Page::make(alloc, 1_300_000);
    for _ in 0..13 {
        assert_eq!(rt; page.push_bytes(&line), Ok(()));
    }
    assert_eq!(rt; page.push_bytes(b"x"), Err(PageFault::Full));
    assert_eq!(rt; page.bytes().len(), 1_300_000);
    Ok(())
}
