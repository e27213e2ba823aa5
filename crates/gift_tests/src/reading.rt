//! The first fault of texts that have no reading.

use gift_read::{GiftFault, read};
use std::alloc::Global;
use std::test::Fail;

/// What is told of a text: the line and rule of its fault, or how many questions it has, and 0.
fn told(alloc: Global, text: &[u8]) -> Option<(usize, u8)> {
    match read(alloc, text) {
        Ok(bank) => Some((bank.items.items.len(), 0)),
        Err(GiftFault::Malformed { line, rule }) => Some((line as usize, rule)),
        Err(GiftFault::Memory) => None,
    }
}

#[test]
fn tells_the_first_fault(rt: HostRuntime) -> Result<(), Fail> {
    let alloc = rt.alloc();
    let rows = [
        ("}", (1, 5)),
        ("::a", (1, 4)),
        ("A{=%200%b =c}", (1, 7)),
        ("A{#1:-1}", (1, 9)),
        ("A{T#a#b#c}", (1, 10)),
        ("$CATEGORY: a/ /b", (1, 3)),
        ("A {=b", (1, 5)),
        ("a\r\n\r\n// b\r\nc {\r\nd\r\n\r\ne", (5, 5)),
        ("a{T}\n\n// b\n\nc{=d~}\n\n::e", (5, 6)),
    ];
    for (text, want) in rows {
        assert_eq!(rt; told(alloc, text.as_bytes()), Some(want), "{text:?}");
    }
    assert_eq!(rt; told(alloc, b"\xff"), Some((1, 1)));
    assert_eq!(rt; told(alloc, b"::a\r\rb\r\n\xc3"), Some((4, 1)));
    Ok(())
}
