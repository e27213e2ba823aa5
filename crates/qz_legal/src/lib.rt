//! Whether a record may stand behind those of a shard's list, told by the record itself and by readings of the list; and the causes that
//! lie with time.
#![tactic(auto)]

mod attempts;
mod job_puts;
mod legal;
mod new_versions;
mod request_puts;
mod times;

pub use attempts::{is_overdue, is_same};
pub use job_puts::same_shape;
pub use legal::is_allowed;
pub use times::{answer_time, finish_time, settled_by, start_cause};
