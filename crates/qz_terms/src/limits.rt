//! How much there may be of each thing, and the greatest moments and times.

/// The greatest moment, in seconds since 1970-01-01 in UTC: the last second of 2099.
pub const GREATEST_MOMENT: u64 = 4_102_444_799;

/// The longest time, in seconds: 365 days.
pub const LONGEST_DURATION: u32 = 31_536_000;

/// The most bytes of a key or a token.
pub const LONGEST_KEY: usize = 64;

/// The most attempts that a setting allows.
pub const MOST_ALLOWED: u32 = 1_000;

/// The most shards of a school.
pub const MOST_SHARDS: u8 = 64;

/// The most users of a school.
pub const MOST_USERS: u32 = 65_535;

/// The most groups of a school.
pub const MOST_GROUPS: u32 = 1_000;

/// The most entries of a school's bank.
pub const MOST_ENTRIES: u32 = 20_000;

/// The most versions of an entry.
pub const MOST_VERSIONS: u32 = 1_000;

/// The most quizzes of a school.
pub const MOST_QUIZZES: u32 = 10_000;

/// The most slots of a quiz.
pub const MOST_SLOTS: u32 = 200;

/// The most exceptions of a school: quizzes, each for a user or a group, for which something is set otherwise.
pub const MOST_OVERRIDES: u32 = 100_000;

/// The most regrades of a school.
pub const MOST_JOBS: u32 = 100_000;

/// The most attempts of a user at a quiz.
pub const MOST_ATTEMPTS: u32 = 1_000;

/// The most bytes that a record spells.
pub const MOST_RECORD: usize = 67_108_864;
