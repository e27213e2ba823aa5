use qz_access::{due, effective};
use qz_terms::{Handling, Override, Review, Settings};

/// Opens at 50 and closes at 200, and gives 60 seconds, 2 attempts and 30 seconds of grace.
fn settings() -> Settings {
    Settings {
        opens: 50,
        closes: 200,
        limit: 60,
        allowed: 2,
        handling: Handling::GracePeriod,
        grace: 30,
        review: Review::Always,
    }
}

/// A group gives the time back that another takes, and the student's own setting comes before both.
#[test]
fn takes_the_most_lenient_group(rt: HostRuntime) {
    let none = Override {
        opens: None,
        closes: None,
        limit: None,
        allowed: None,
    };
    let groups = [
        Override {
            closes: Some(300),
            limit: Some(0),
            ..none
        },
        Override {
            opens: Some(30),
            closes: Some(250),
            limit: Some(90),
            ..none
        },
    ];
    let own = Override {
        closes: Some(150),
        ..none
    };
    let given = effective(&settings(), Some(&own), &groups);
    let want = Settings {
        opens: 30,
        closes: 150,
        limit: 0,
        ..settings()
    };
    assert!(rt; given == want);
    assert!(rt; due(&given, 100) == Some(150));
}
