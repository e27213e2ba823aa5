//! What holds of a school whatever turns, mendings and stops come, in whatever order.

ghost use Rattle.qz_schedule.specs.EverySchedule.{EverySchedule};

/// Whatever possible events come to a school that was loaded: each of its lists stays legal, also with its record in doubt, each
/// record of a shard agrees with the catalogue, what each caller has seen begins its list, and each reply, but that a keeper failed or
/// that memory was wanting, is the answer over the lists that its caller had then seen, without its own record.
pub fn every_schedule()
    ensures { EverySchedule }
{}
