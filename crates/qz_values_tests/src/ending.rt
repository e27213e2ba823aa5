//! The exit status of each stop.

use qz_ending::Stop;

#[test]
fn each_stop_has_its_status(rt: HostRuntime) {
    for (stop, status) in [
        (Stop::BadWords, 2),
        (Stop::Malformed { line: 7 }, 3),
        (Stop::Unreadable { line: 7, rule: 5 }, 3),
        (Stop::SourceFault, 4),
        (Stop::SinkFault, 5),
        (Stop::ShelfFault, 6),
        (Stop::Refused, 7),
        (Stop::Memory, 8),
        (Stop::TooLong, 9),
        (Stop::DoorFault, 10),
        (Stop::Gap, 11),
    ] {
        assert_eq!(rt; stop.status(), status, "{stop:?}");
    }
}
