//! When a quiz may be taken, and what is shown of it. Moodle's manual page "Quiz settings" describes each setting.

/// What becomes of an attempt that isn't finished when its time is over.
#[derive(Clone, Copy, PartialEq, Eq)]
pub enum Handling {
    /// It is finished as it stands.
    AutoSubmit,
    /// It may be finished for some time longer, and is abandoned then.
    GracePeriod,
    /// It is abandoned.
    AutoAbandon,
}

/// When a student is shown marks and grades.
#[derive(Clone, Copy, PartialEq, Eq)]
pub enum Review {
    Always,
    /// Once the attempt has ended.
    Finish,
    /// Once the attempt has ended and the quiz has closed.
    Close,
}

/// The settings of a quiz, or of one student at it. Moments are in seconds since 1970, times in seconds.
#[derive(Clone, Copy, PartialEq, Eq)]
pub struct Settings {
    /// The first moment at which an attempt may start.
    pub opens: u64,
    /// The last moment at which a step may be taken, or 0 for none.
    pub closes: u64,
    /// How long an attempt may take, or 0 for no limit.
    pub limit: u32,
    /// How many attempts there may be, or 0 for no limit.
    pub allowed: u32,
    pub handling: Handling,
    /// How much later an attempt may be finished under a grace period.
    pub grace: u32,
    pub review: Review,
}

/// What is set otherwise for a user or a group. Moodle's manual page "Quiz overrides" describes it.
#[derive(Clone, Copy, PartialEq, Eq)]
pub struct Override {
    pub opens: Option<u64>,
    pub closes: Option<u64>,
    pub limit: Option<u32>,
    pub allowed: Option<u32>,
}
