//! One who asks a school behind locks.

ghost use Rattle.std.specs.Prelude.{◌≡◌};
ghost use Rattle.qz_visit.specs.Visits.{AreOf};

use crate::passes::Passes;
use crate::school::School;
use qz_disks::Keeper;
use qz_terms::{Ask, Desk, Reply};
use std::alloc::Global;
use std::marker::Model;
use std::sync::Wait;

/// A school, the passes of one who asks it, and what waits for their turns. To who answers links it is a desk as any other.
#[derive(Drop)]
pub struct Visit<'s, 'r, K: Keeper, R: Wait> {
    school: &'s School<K>,
    rt: &'r R,
    passes: Passes<K>,
}

impl<'s, 'r, K: Keeper, R: Wait> Model for Visit<'s, 'r, K, R> {
    ghost use Rattle.qz_visit.specs.Visits.{AreOf, Visitor};

    ghost Value = { Visitor };

    ghost view = { λ v. record {
      school = v.school.now;
      passes = v.passes.seats;
      last = v.passes.last;
    } };

    ghost invariant = { λ v. AreOf v.school.now v.passes.seats };
}

impl<'s, 'r, K: Keeper, R: Wait> Visit<'s, 'r, K, R> {
    /// One who asks this school with these passes, which are its.
    pub fn new(school: &'s School<K>, rt: &'r R, passes: Passes<K>) -> Visit<'s, 'r, K, R>
        requires { AreOf school.now passes.seats }
        ensures { result ≡ record {
          school = school.now;
          passes = passes.seats;
          last = passes.last;
        } }
    {
        Visit { school, rt, passes }
    }

    /// The passes, with all that they have seen.
    pub fn passes(&self) -> &Passes<K>
        ensures seats { result.now.seats ≡ self.now.passes }
        ensures last { result.now.last ≡ self.now.last }
    {
        &self.passes
    }

    /// The passes, given back.
    pub fn into_passes(self) -> Passes<K>
        ensures seats { result.seats ≡ self.entry.passes }
        ensures last { result.last ≡ self.entry.last }
        ensures own { AreOf self.entry.school result.seats }
    {
        self.passes
    }
}

impl<'s, 'r, K: Keeper, R: Wait> Desk for Visit<'s, 'r, K, R> {
    ghost use Rattle.std.specs.Prelude.{◌≡◌};
    ghost use Rattle.qz_school.specs.Answering.{MayBeAsked};
    ghost use Rattle.qz_visit.specs.Visits.{Asked, faults_seen, lists_told, seen_in};

    ghost lists = { λ v. lists_told (seen_in v.passes) };

    ghost faults = { λ v. faults_seen v.passes };

    ghost takes = { λ moment ask. MayBeAsked ask moment };

    ghost answers = { λ a b now ask told. (b.school ≡ a.school)
        × (Asked a.passes b.passes b.last now ask told) };

    fn ask(&mut self, alloc: Global, ask: &Ask, moment: u64) -> Reply {
        self.school
            .ask(self.rt, &mut self.passes, alloc, ask, moment)
    }
}
