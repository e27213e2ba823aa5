//! What one student's answers depend on.

ghost use Rattle.qz_isolation.specs.Asked.{StudentsAskOfOwn};
ghost use Rattle.qz_isolation.specs.Isolation.{DependsOnNobodyElse};

/// Two lists of a shard that are alike for a student answer each request of this student alike, and are alike in the student's own
/// records afterwards, whatever the records of others are.
pub fn depends_on_nobody_else()
    ensures { DependsOnNobodyElse }
{}

/// What a user asked stays about own attempts alone, whatever another asks, and whatever this user asks as a student.
pub fn students_ask_of_own()
    ensures { StudentsAskOfOwn }
{}
