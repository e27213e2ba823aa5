//! What the rules of answers mean for workers.

ghost use Rattle.qz_regrading.specs.Workers.{AsksKeep, AsksTell};

/// No request of anybody, answered by the rules, takes a record from a shard's list, or a shard away. Lists may be in doubt.
pub fn asks_keep()
    ensures { AsksKeep }
{}

/// A worker's request that is answered by the rules tells what a worker needs: a job is done in a shard where work on it is over, a shard
/// that work finds missing isn't there, and the catalogue has as many jobs as are counted.
pub fn asks_tell()
    ensures { AsksTell }
{}
