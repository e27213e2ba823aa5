//! A door in memory.

ghost use Rattle.std.specs.Prelude.{◌≡◌, ◌↔◌, ◌+◌, ◌<◌, ◌≤◌, [], ◌∷◌, ◌++◌, length, Some, IsOk, IsErr, IfOk, OnErr, Contains};
ghost use Rattle.qz_outside.specs.Causes.{HasCause, counted};
ghost use Rattle.qz_links.specs.Doors.{NextLink, GivesBack};

use crate::{Door, Link};
use qz_outside::{Calls, Failed};
use qz_text::{Listed, NoMemory};
use std::alloc::Global;
use std::collections::VecDeque;
use std::marker::Model;

/// Some links, which come in order. The room for those given back is taken when the door is made.
#[derive(Drop)]
pub struct MemoryDoor<L> {
    links: VecDeque<L>,
    returned: Vec<L>,
    out: usize,
    calls: Calls,
}

impl<L> Model for MemoryDoor<L> {
    ghost use Rattle.std.specs.Prelude.{◌+◌, ◌≤◌, vec_len, vec_capacity};
    ghost use Rattle.std.specs.VecDeque.{deque_len};
    ghost use Rattle.qz_links.specs.Doors.{Doorway};

    ghost Value = { Doorway L };

    ghost view = { λ d. record {
      left = d.links.items;
      returned = d.returned.items;
      out = d.out;
      failing = d.calls.failing;
      calls = d.calls.made;
      faults = d.calls.faults;
    } };

    ghost invariant = { λ d. vec_len d.returned + d.out + deque_len d.links ≤ vec_capacity d.returned };
}

impl<L: Drop> MemoryDoor<L> {
    /// A door at which these links come. The calls of `next` whose numbers, from 1, are in `failing` fail.
    pub fn new(
        alloc: Global,
        links: Listed<L>,
        failing: Listed<u64>,
    ) -> Result<MemoryDoor<L>, NoMemory>
        ensures { IfOk result (λ made. made ≡ record {
          left = links;
          returned = [];
          out = 0;
          failing = failing;
          calls = 0;
          faults = 0;
        }) }
    {
        Ok(MemoryDoor {
            returned: Vec::with_capacity(alloc, links.items.len())?,
            links: VecDeque::from_vec(links.items),
            out: 0,
            calls: Calls::new(failing),
        })
    }
}

impl<L> MemoryDoor<L> {
    /// The links that were given back, in their order.
    pub fn returned(&self) -> &[L]
        ensures { result.now ≡ self.now.returned }
    {
        &self.returned
    }

    /// How many calls have failed.
    pub fn faults(&self) -> u64
        ensures { result ≡ self.now.faults }
    {
        self.calls.faults
    }
}

impl<L: Link> Door for MemoryDoor<L> {
    type Link = L;

    ghost left = { λ d. Some d.left };

    ghost returned = { λ d. Some d.returned };

    ghost returns = { λ d. length d.returned };

    ghost out = { λ d. d.out };

    ghost faults = { λ d. d.faults };

    fn next(&mut self) -> Result<Option<L>, Failed>
        ensures takes { NextLink (Some self.old.left) (Some self.new.left) self.old.out self.new.out result }
        ensures cause { HasCause self.old.faults self.new.faults result }
        ensures apart { Some self.new.returned ≡ Some self.old.returned }
        ensures returns_stay { length self.new.returned ≡ length self.old.returned }

        // It fails where the number of this call is listed, and there alone; and then it only raises the counts.
        ensures fails { IsErr result ↔ Contains self.old.failing (counted self.old.calls) }
        ensures sound { self.old.failing ≡ [] → IsOk result }
        ensures failed { OnErr result (self.new
            ≡ record self.old { calls = counted self.old.calls; faults = counted self.old.faults }) }
        ensures counts { IfOk result (λ _. self.new ≡ record self.old {
          left = self.new.left;
          out = self.new.out;
          calls = counted self.old.calls;
        }) }
    {
        self.calls.begin()?;
        let Some(link) = self.links.pop_front() else {
            return Ok(None);
        };
        self.out += 1;
        Ok(Some(link))
    }

    fn back(&mut self, link: L)
        requires { 0 < self.old.out }
        ensures adds { GivesBack (Some self.old.returned) (Some self.new.returned) link }
        ensures returns { length self.new.returned ≡ length self.old.returned + 1 }
        ensures out { self.old.out ≡ self.new.out + 1 }
        ensures apart { Some self.new.left ≡ Some self.old.left }
        ensures steady { self.new.faults ≡ self.old.faults }

        // The rest stays.
        ensures rest { self.new
            ≡ record self.old { returned = self.new.returned; out = self.new.out } }
    {
        // The room was taken when the door was made.
        self.returned.push_reserved(link);
        self.out -= 1;
    }
}
