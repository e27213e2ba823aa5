//! Who asks.

use qz_text::Text;

/// What a user may do.
#[derive(Clone, Copy, PartialEq, Eq)]
pub enum Role {
    Manager,
    Teacher,
    Student,
}

/// A user: a number from 1, a name, a role, and the token by which the user is known.
#[derive(Drop)]
pub struct User {
    pub number: u32,
    pub name: Text,
    pub role: Role,
    pub token: Text,
}

/// Who makes a request: the user with a token, or one of the server's own workers.
#[derive(Drop)]
pub enum Caller {
    Token(Text),
    Worker,
}
