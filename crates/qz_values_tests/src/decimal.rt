//! Marks as texts, and the tone of a fraction.

use qz_decimal::{BadNumber, Fraction, Mark, Tone, tone_of};

fn stuck<T>(place: u32) -> Result<T, BadNumber> {
    Err(BadNumber::Malformed { place })
}

#[test]
fn reads_marks(rt: HostRuntime) {
    let cases: [(&[u8], Result<i64, BadNumber>); 22] = [
        (b"4", Ok(40_000_000)),
        (b"4.0", Ok(40_000_000)),
        (b"-0", Ok(0)),
        (b"-1.5", Ok(-15_000_000)),
        (b"000007.0000001", Ok(70_000_001)),
        (b"100000.0000000", Ok(1_000_000_000_000)),
        (b"-100000", Ok(-1_000_000_000_000)),
        (b"100000.0000001", Err(BadNumber::Range)),
        (b"-999999.9999999", Err(BadNumber::Range)),
        (b"", stuck(0)),
        (b"-", stuck(1)),
        (b"+1", stuck(0)),
        (b"--1", stuck(1)),
        (b" 1", stuck(0)),
        (b"1 ", stuck(1)),
        (b".5", stuck(0)),
        (b"1.", stuck(2)),
        (b"1..2", stuck(2)),
        (b"12a", stuck(2)),
        (b"1234567", stuck(6)),
        (b"0.12345678", stuck(9)),
        (b"-999999.99999999", stuck(15)),
    ];
    for (text, want) in cases {
        assert_eq!(rt; Mark::read(text).map(|mark| mark.0), want, "{text:?}");
    }
}

#[test]
fn tells_tones(rt: HostRuntime) {
    let cases = [
        (-60_000_000, Tone::Wrong),
        (9, Tone::Wrong),
        (10, Tone::Partial),
        (9_999_990, Tone::Partial),
        (9_999_991, Tone::Right),
        (30_000_000, Tone::Right),
    ];
    for (fraction, want) in cases {
        assert_eq!(rt; tone_of(Fraction(fraction)), want, "{fraction}");
    }
}
