//! How a quiz makes a grade of the totals of its attempts. Moodle's manual page "Grading method" names the four.

use qz_decimal::{Grade, Mark};

/// Which totals count.
#[derive(Clone, Copy, PartialEq, Eq)]
pub enum Method {
    Highest,
    Average,
    First,
    Last,
}

/// How a quiz is graded: the method, the grade that a whole total has (in 10^-5), and the sum of the quiz's max
/// marks (in 10^-7).
#[derive(Clone, Copy, PartialEq, Eq)]
pub struct Policy {
    pub method: Method,
    pub grade: Grade,
    pub sum: Mark,
}
