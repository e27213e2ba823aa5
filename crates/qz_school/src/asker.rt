//! Who asks, and whom.

ghost use Rattle.std.specs.Prelude.{◌≡◌, ◌<◌, ◌≤◌, IfErr, IfOk};
ghost use Rattle.qz_grading.specs.declared.refusal.Refusal.TheVariants as refusal;
ghost use Rattle.qz_grading.specs.declared.refusal.Thing.TheVariants as thing;
ghost use Rattle.qz_terms.specs.Catalog.{worker};

use qz_grading::{Refusal, Thing};
use qz_terms::{Role, User};
use qz_text::{NoMemory, Text};
use std::alloc::Global;

/// How a worker stands in the calls at single lists: as a manager of number 0, with no name and no token.
pub fn worker(alloc: Global) -> Result<User, NoMemory>
    ensures { IfOk result (λ user. user ≡ worker) }
{
    Ok(User {
        number: 0,
        name: Text::of(alloc, "")?,
        role: Role::Manager,
        token: Text::of(alloc, "")?,
    })
}

/// The index of the shard with this number, from 0, of so many. One that isn't there is `Unknown`.
pub fn index_of(number: u8, count: usize) -> Result<usize, Refusal>
    ensures there { IfOk result (λ index. (index ≡ number) × (number < count)) }
    ensures missing { IfErr result (λ r. (count ≤ number) × (r ≡ refusal.Unknown thing.Shard)) }
{
    let index = usize::from(number);
    if index >= count {
        return Err(Refusal::Unknown { what: Thing::Shard });
    }
    Ok(index)
}
