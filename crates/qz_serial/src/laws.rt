//! What one request does to the lists of a school, from what single calls did to single lists. `F` is whatever it means that a keeper
//! failed.

ghost use Rattle.qz_serial.specs.Calls.{RepliesCompose};
ghost use Rattle.qz_serial.specs.Once.{ActsOnceInLists};
ghost use Rattle.qz_serial.specs.Paths.{TokensAsk};
ghost use Rattle.qz_serial.specs.Repeating.{CatalogActsOnce};
ghost use Rattle.qz_serial.specs.Reports.{ReportsAsk};
ghost use Rattle.qz_serial.specs.Staying.{StaysThere};
ghost use Rattle.qz_serial.specs.Workers.{WorkersAsk, WorkersSettle};

/// What stands in a catalogue stands there whatever comes behind it: users, groups, entries, versions, quizzes, slots, jobs, and that a
/// quiz is ready. A request that names nothing that is missing goes on naming nothing that is missing.
pub fn stays_there()
    ensures { StaysThere }
{}

/// A request with a key that the catalogue accepts stands in its list from then on, whatever comes later. Asked again, it has
/// the reply that it had, and adds nothing.
pub fn catalog_acts_once()
    ensures { CatalogActsOnce }
{}

/// Calls at one list compose: a list of which no record is in doubt is read as it is, behind another call it isn't mended again, and what
/// is told is no answer only where the keeper failed or memory was wanting.
pub fn replies_compose<F>()
    ensures { RepliesCompose F }
{}

/// Whatever a request with a key comes to, it acts once: accepted it stands in the lists from then on, what stood there goes on standing,
/// and asked again it has the reply that it had and adds nothing, whatever is mended between.
pub fn acts_once_in_lists<F>()
    ensures { ActsOnceInLists F }
{}

/// What the calls at single lists for a user with a token come to, is what the request may come to: the catalogue is mended first and
/// finds the user; then it answers alone, or refuses; or one shard is mended and answers.
pub fn tokens_ask<F>()
    ensures { TokensAsk F }
{}

/// What the calls at single lists for a worker come to, is what the request may come to: what a worker may not ask reads nothing, the
/// catalogue alone tells the jobs, a shard alone where attempts go on, and a step of a job is the catalogue's first.
pub fn workers_ask<F>()
    ensures { WorkersAsk F }
{}

/// What the calls at single lists for a worker's settling come to, is what the request may come to: the attempt's shard is mended first,
/// the catalogue where the attempt is there, and then the shard answers.
pub fn workers_settle<F>()
    ensures { WorkersSettle F }
{}

/// What the calls at the shards for a report come to, one after the other, is what the report may come to: each shard is mended and tells
/// its rows, and the first that doesn't ends it.
pub fn reports_ask<F>()
    ensures { ReportsAsk F }
{}
