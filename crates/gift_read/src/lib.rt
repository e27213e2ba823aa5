//! The reader of GIFT, Moodle's text format for question banks.
#![tactic(auto)]

mod category;
mod fault;
mod faults;
mod faults_of_values;
mod kinds;
mod limits;
mod parts;
mod places;
mod question;
mod reading;
mod texts;
mod utf8;
mod values;

pub use fault::GiftFault;
pub use reading::read;

// What the definitions speak of: the laws of reading back name these.
pub use parts::Sort;
pub use places::Landmark;
pub use reading::Entry;
