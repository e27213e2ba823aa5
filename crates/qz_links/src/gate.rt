//! Gates, by which a call of one object in memory waits for a call of another.

ghost use Rattle.std.specs.Prelude.{◌≡◌, ◌≤◌, None, Some, IfOk};
ghost use Rattle.qz_outside.specs.Causes.{counted};
ghost use Rattle.qz_links.specs.Gates.{Passes, ungated};

use qz_text::NoMemory;
use std::alloc::Global;
use std::hint::spin_loop;
use std::marker::Model;
use std::sync::Arc;
use std::sync::atomic::{AtomicU64, Ordering};
use std::thread::yield_now;

/// How often a call looks at a gate at most.
const LOOKS: u32 = 100_000_000;

/// A call that waits gives way to other threads after so many looks.
const LOOKS_AT_ONCE: u32 = 64;

/// A gate, which is closed until somebody opens it, and open from then on: a word shared by those who have a handle,
/// 0 while it is closed.
#[derive(Drop)]
pub struct Gate {
    word: Arc<AtomicU64>,
}

impl Gate {
    /// A closed gate.
    pub fn new(alloc: Global) -> Result<Gate, NoMemory> {
        Ok(Gate {
            word: Arc::new(alloc, AtomicU64::new(0))?,
        })
    }

    /// Another handle of this gate.
    pub fn try_share(&self) -> Result<Gate, NoMemory> {
        Ok(Gate {
            word: Arc::try_clone(&self.word)?,
        })
    }

    /// Opens it.
    pub fn open(&self) {
        self.word.store(1, Ordering::SeqCst);
    }

    /// Whether it is open.
    pub fn is_open(&self) -> bool {
        self.word.load(Ordering::SeqCst) != 0
    }

    // Looks until it is open, `LOOKS` times at most, and tells whether it was.
    fn opens_in_time(&self) -> bool {
        for look in 0..LOOKS {
            if self.is_open() {
                return true;
            }
            if look % LOOKS_AT_ONCE == LOOKS_AT_ONCE - 1 {
                yield_now();
            } else {
                spin_loop();
            }
        }
        false
    }
}

// A call, by its number from 1, and its gate.
#[derive(Drop)]
struct GateCall {
    call: u64,
    gate: Gate,
}

/// The gates of an object in memory: the call, by its number from 1, that waits at a gate, the one that opens a gate,
/// and how many calls there were. What the object's calls answer doesn't depend on them.
#[derive(Drop)]
pub struct Gates {
    waits: Option<GateCall>,
    opens: Option<GateCall>,
    calls: u64,
    ran_out: bool,
}

impl Model for Gates {
    ghost use Rattle.std.specs.Prelude.{option_map};
    ghost use Rattle.qz_links.specs.Gates.{Gating};

    ghost Value = { Gating };

    ghost view = { λ g. record {
      waits = option_map (λ w. w.call) g.waits;
      opens = option_map (λ o. o.call) g.opens;
      calls = g.calls;
      ran_out = g.ran_out;
    } };
}

impl Gates {
    /// No call waits, and none opens a gate.
    pub fn none() -> Gates
        ensures { result ≡ ungated }
    {
        Gates {
            waits: None,
            opens: None,
            calls: 0,
            ran_out: false,
        }
    }

    /// The call of this number waits: before it does anything else it looks at the gate until that is open,
    /// 100,000,000 times at most.
    pub fn waiting(self, call: u64, gate: Gate) -> Gates
        ensures { result ≡ record self { waits = Some call } }
    {
        Gates {
            waits: Some(GateCall { call, gate }),
            ..self
        }
    }

    /// The call of this number opens the gate when it is done, unless it fails.
    pub fn opening(self, call: u64, gate: Gate) -> Gates
        ensures { result ≡ record self { opens = Some call } }
    {
        Gates {
            opens: Some(GateCall { call, gate }),
            ..self
        }
    }

    /// Begins a call: counts it, and waits where it is the one that waits.
    pub fn enter(&mut self)
        ensures { Passes self.old self.new }
    {
        self.calls = self.calls.saturating_add(1);
        match &self.waits {
            Some(wait) if wait.call == self.calls => {
                if !wait.gate.opens_in_time() {
                    self.ran_out = true;
                }
            }
            Some(_) | None => {}
        }
    }

    /// Ends a call that didn't fail: opens the gate where it is the one that opens it.
    pub fn leave(&self) {
        match &self.opens {
            Some(open) if open.call == self.calls => open.gate.open(),
            Some(_) | None => {}
        }
    }

    /// Whether a call looked so often and left the gate closed.
    pub fn ran_out(&self) -> bool
        ensures { result ≡ self.now.ran_out }
    {
        self.ran_out
    }
}
