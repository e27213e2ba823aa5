//! Patterns that fit typed texts, each a copy.

use qz_text::{NoMemory, Pattern, TryCopy, Typed};
use std::test::Fail;

/// Whether a copy of the typed text fits a copy of the pattern.
fn fits(rt: &HostRuntime, pattern: &str, typed: &str) -> Result<bool, NoMemory> {
    let alloc = rt.alloc();
    let pattern = Pattern::of(alloc, pattern)?.try_copy(alloc)?;
    let typed = Typed::of(alloc, typed)?.try_copy(alloc)?;
    Ok(pattern.fits(&typed))
}

#[test]
fn patterns_fit(rt: HostRuntime) -> Result<(), Fail> {
    for (pattern, typed, want) in [
        ("  Stra*e ", "STRASSE", true),
        ("  Stra*e ", "stra?e", true),
        ("STRASSE", "straße", true),
        ("straße", "STRASSE", true),
        ("ΣΊΣΥΦΟΣ", "σίσυφος", true),
        ("σίσυφος", "ΣΊΣΥΦΟΣ", true),
        // The dot of `İ` stays, as a character of its own.
        ("İ", "i\u{307}", true),
        ("İ", "i", false),
        ("ﬁn*", "FINISH", true),
        ("f*n", "ﬁn", true),
        ("\u{a0}a\u{3000}", "\ta\u{2028}\r\n", true),
        // No white space, though no ink either.
        ("a", "a\u{200b}", false),
        ("*", "", true),
        ("**", " anything ", true),
        ("", " \n", true),
        ("", "a", false),
        ("a\\*b", "a*b", true),
        ("a\\*b", "axb", false),
        ("\\* ", "*", true),
        // A backslash that stands for itself, and an escaped star.
        ("\\\\*", "\\*", true),
        ("\\\\*", "\\a", false),
        ("\\a*", "\\ab", true),
        ("a*\\", "ab\\", true),
        ("\\**", "*b", true),
        ("a*b*c", "abcbc", true),
        ("a*b*c", "abcb", false),
        ("a*b*c", "xabc", false),
        ("ab*ba", "aba", false),
        ("a*longer than this", "a", false),
    ] {
        assert_eq!(rt;
            fits(&rt, pattern, typed).ok().ok_or("memory")?,
            want,
            "{pattern} at {typed}"
        );
    }
    Ok(())
}
