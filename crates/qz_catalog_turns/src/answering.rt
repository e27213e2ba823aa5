//! What is answered over a catalogue, in one turn.

ghost use Rattle.std.specs.Prelude.{◌≡◌, ◌≢◌, ◌≤◌, [], None, length, unwrap_or, true};
ghost use Rattle.qz_terms.specs.declared.limits.TheConstants.{LONGEST_KEY};
ghost use Rattle.qz_catalog.specs.Applying.{IsAsked};
ghost use Rattle.qz_catalog.specs.Keeping.{IsTold};
ghost use Rattle.qz_keeper.specs.Lists.{EachMayStand};
ghost use Rattle.qz_keeper.specs.Recording.{GoesOn, HasFailed};
ghost use Rattle.qz_record.specs.Lengths.{NamesBriefly};
ghost use Rattle.qz_terms.specs.declared.reply.Reply.TheVariants as reply;
ghost use Rattle.qz_terms.specs.Catalog as catalog;
ghost use Rattle.qz_terms.specs.CatalogAnswer.{asks_catalog};
ghost use Rattle.qz_terms.specs.Cause.{is_keyed};
ghost use Rattle.qz_terms.specs.Kept.{KeepsAsked, asks_described, is_moment};
ghost use Rattle.qz_terms.specs.Legal.{IsLegalCatalog};
ghost use Rattle.qz_catalog_turns.specs.Answering.{CanAnswer};
ghost use Rattle.qz_catalog_turns.specs.Owning.{OneReply, ReplyEnds, TurnReplies};

use crate::records::Records;
use crate::replied::{OwnRecord, Replied};
use qz_catalog::Catalog;
use qz_disks::Keeper;
use qz_terms::{Ask, Reply, User};
use qz_turn::{Errand, Pass, Turns};
use std::alloc::Global;
use std::sync::Wait;

/// The reply over a list in which none is in doubt, and what became of the record that the request put.
fn applied<K: Keeper>(
    catalog: &mut Catalog<K>,
    alloc: Global,
    user: &User,
    ask: &Ask,
    moment: u64,
) -> Replied
    requires settled { catalog.old.held.doubt ≡ None }
    requires asked { EachMayStand (λ c. IsAsked c user.now ask.now moment) catalog.old.held }
    requires brief { length (unwrap_or ask.now.key []) ≤ LONGEST_KEY }
    requires names { NamesBriefly ask.now.request }
    ensures answer { ReplyEnds (HasFailed (K.sound catalog.old.keeper)
        (K.faults catalog.old.keeper) (K.faults catalog.new.keeper)) reply.Refused
        (IsTold moment user.now ask.now) catalog.old.held catalog.new.held
        result.reply result.own }
    ensures goes_on { GoesOn (K.sound catalog.old.keeper) (K.sound catalog.new.keeper)
        (K.faults catalog.old.keeper) (K.faults catalog.new.keeper) }
{
    let found = catalog.len();
    let reply = catalog.apply(alloc, user, ask, moment);
    let left = catalog.len();
    let own = OwnRecord::of(catalog.is_settled(), found, left);
    Replied { reply, own }
}

/// The list is mended, and then the request is answered. Where the list can't be mended nothing is put.
fn answered<K: Keeper>(
    catalog: &mut Catalog<K>,
    alloc: Global,
    user: &User,
    ask: &Ask,
    moment: u64,
) -> Replied
    requires asked { EachMayStand (λ c. IsAsked c user.now ask.now moment) catalog.old.held }
    requires brief { length (unwrap_or ask.now.key []) ≤ LONGEST_KEY }
    requires names { NamesBriefly ask.now.request }
    ensures answer { OneReply (HasFailed (K.sound catalog.old.keeper)
        (K.faults catalog.old.keeper) (K.faults catalog.new.keeper)) reply.Refused
        (IsTold moment user.now ask.now) catalog.old.held catalog.new.held
        result.reply result.own }
    ensures goes_on { GoesOn (K.sound catalog.old.keeper) (K.sound catalog.new.keeper)
        (K.faults catalog.old.keeper) (K.faults catalog.new.keeper) }
{
    match catalog.mend(alloc) {
        Ok(()) => applied(catalog, alloc, user, ask, moment),
        Err(why) => Replied {
            reply: Reply::Refused(why),
            own: OwnRecord::Absent,
        },
    }
}

/// A request of a user, and the reply.
#[derive(Drop)]
struct Answering<'a> {
    alloc: Global,
    user: &'a User,
    ask: &'a Ask,
    moment: u64,
    told: Option<Replied>,
}

impl<'a, K: Keeper> Errand<Records<K>> for Answering<'a> {
    ghost use Rattle.qz_catalog.specs.Keeping.{IsTold};
    ghost use Rattle.qz_catalog_turns.specs.Answering.{CanAnswer};
    ghost use Rattle.qz_catalog_turns.specs.Owning.{DidReply};

    // The user is known over what the pass has seen.
    ghost can = { λ _ seen it. CanAnswer seen.list it.user.now it.ask.now it.moment };

    ghost does = { λ it before after done. DidReply K.faults
        (IsTold it.moment it.user.now it.ask.now) before after done.told };

    fn go(&mut self, records: &mut Records<K>) {
        let _found = records.catalog.len();
        let told = answered(
            &mut records.catalog,
            self.alloc,
            self.user,
            self.ask,
            self.moment,
        );
        let _left = records.catalog.len();
        self.told = Some(told);
    }
}

/// Answers a request to the catalogue, of a user who was found in what the pass has seen, at this moment by the clock, in seconds
/// since 1970.
///
/// The reply is the answer over the mended list, and the list afterwards has the request's record at its end where the answer puts
/// one. Where memory is wanting it is `Memory` and nothing is put. Where the keeper fails it is `KeepFault`, nothing is put, and one
/// record is in doubt: that of the answer, or the one that was. With the reply it is told what became of the request's own record.
pub fn answer<K: Keeper, R: Wait>(
    turns: &Turns<Records<K>>,
    rt: &R,
    pass: &mut Pass<Records<K>>,
    alloc: Global,
    user: &User,
    ask: &Ask,
    moment: u64,
) -> Replied
    requires pass { pass.old.lock ≡ turns.now.lock }
    requires number { pass.old.numbers ≢ [] }
    requires asked { CanAnswer pass.old.seen.list user.now ask.now moment }
    ensures { TurnReplies IsLegalCatalog reply.Refused (IsTold moment user.now ask.now)
        pass.old pass.new result.reply result.own }
{
    let mut errand = Answering {
        alloc,
        user,
        ask,
        moment,
        told: None,
    };
    turns.turn(rt, pass, &mut errand);
    match errand.told {
        Some(told) => told,
        None => unreachable!(),
    }
}
