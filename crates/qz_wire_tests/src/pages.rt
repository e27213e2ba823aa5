use qz_grading::AttemptId;
use qz_pages::page;
use qz_terms::Done;
use qz_text::{Listed, NoMemory, Text};
use std::alloc::Global;
use std::test::Fail;

const OWN: AttemptId = AttemptId { user: 2, nth: 1 };

/// The page of an attempt without slots.
fn page_due(alloc: Global, due: Option<u64>) -> Result<Text, NoMemory> {
    let quiz = Text::of(alloc, "Q")?;
    let done = Done::Page {
        attempt: OWN,
        quiz,
        due,
        parts: Listed::empty(alloc),
    };
    page(alloc, &done)
}

// The dates are those that Python's `datetime` gives in UTC.
#[test]
fn moments_are_dates_in_utc(rt: HostRuntime) -> Result<(), Fail> {
    let alloc = rt.alloc();
    for (due, want) in [
        (None, "-"),
        (Some(0), "1970-01-01T00:00:00Z"),
        (Some(68_169_600), "1972-02-29T00:00:00Z"),
        (Some(946_684_799), "1999-12-31T23:59:59Z"),
        (Some(951_868_799), "2000-02-29T23:59:59Z"),
        (Some(951_868_800), "2000-03-01T00:00:00Z"),
        (Some(1_709_164_800), "2024-02-29T00:00:00Z"),
        (Some(1_735_689_599), "2024-12-31T23:59:59Z"),
        (Some(4_107_542_399), "2100-02-28T23:59:59Z"),
        (Some(4_133_980_799), "2100-12-31T23:59:59Z"),
        (Some(4_133_980_800), "4133980800"),
        (Some(u64::MAX), "18446744073709551615"),
    ] {
        let shown = page_due(alloc, due)?;
        let line = format!(in alloc; "<p>Due {want}</p>\n<ol>\n</ol>\n")?;
        assert!(rt; shown.as_str().ends_with(line.as_str()), "{want}");
    }
    Ok(())
}
