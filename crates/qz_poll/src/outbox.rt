//! The bytes of a response that are not yet written.

ghost use Rattle.std.specs.Prelude.{◌≡◌, ◌≤◌, ◌==◌, [], length, drop, OnErr, OnOk};

use qz_text::NoMemory;
use std::alloc::Global;
use std::marker::Model;

/// A buffer that holds one response after the other, of which a front is written.
#[derive(Drop)]
pub struct Outbox {
    bytes: Vec<u8>,
    sent: usize,
}

impl Model for Outbox {
    ghost use Rattle.std.specs.Prelude.{ℕ, ◌≤◌, List, length, drop};

    ghost Value = { List ℕ };

    ghost view = { λ o. drop o.sent o.bytes.items };

    ghost invariant = { λ o. o.sent ≤ length o.bytes.items };
}

impl Outbox {
    /// A buffer with nothing to write. It takes no memory.
    pub fn new(alloc: Global) -> Outbox
        ensures { result ≡ [] }
    {
        Outbox {
            bytes: Vec::new(alloc),
            sent: 0,
        }
    }

    /// What is not yet written.
    pub fn unsent(&self) -> &[u8]
        ensures { result.now ≡ self.now }
    {
        self.bytes.split_at(self.sent).1
    }

    pub fn is_empty(&self) -> bool
        ensures { result ≡ (length self.now == 0) }
    {
        self.unsent().is_empty()
    }

    /// So many bytes more are written.
    pub fn advance(&mut self, count: usize)
        requires { count ≤ length self.old }
        ensures { self.new ≡ drop count self.old }
    {
        self.sent += count;
    }

    /// A response is to be written next. Where memory is wanting, nothing is.
    pub fn refill(&mut self, response: &[u8]) -> Result<(), NoMemory>
        ensures ok { OnOk result (self.new ≡ response.now) }
        ensures err { OnErr result (self.new ≡ []) }
    {
        self.sent = 0;
        self.bytes.clear();
        Ok(self.bytes.extend_from_slice(response)?)
    }
}
