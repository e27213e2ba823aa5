//! How serving several doors ended.

ghost use Rattle.std.specs.Prelude.{◌≡◌, ◌+◌, ◌^◌, ◌<◌, false, ◌||◌};
ghost use Rattle.qz_stations.specs.Stations.{both_ends, no_end};

use qz_doors::DoorEnd;
use qz_regrading::LoopEnd;

/// How serving a school ended.
#[derive(Clone, Copy, Debug, PartialEq, Eq)]
pub struct ServeEnd {
    /// At all doors: the links taken and those that were short, and whether a door failed.
    pub doors: DoorEnd,
    /// What the last pass came to, where somebody regraded.
    pub last: Option<LoopEnd>,
}

/// Of a door that wasn't served.
pub(crate) fn no_end() -> DoorEnd
    ensures { result ≡ no_end }
{
    DoorEnd {
        taken: 0,
        fault: false,
        short: 0,
    }
}

/// Of a door and of others.
pub(crate) fn both_ends(one: DoorEnd, others: DoorEnd) -> DoorEnd
    requires taken { one.taken + others.taken < 2 ^ 64 }
    requires short { one.short + others.short < 2 ^ 64 }
    ensures { result ≡ both_ends one others }
{
    DoorEnd {
        taken: one.taken + others.taken,
        fault: one.fault || others.fault,
        short: one.short + others.short,
    }
}
