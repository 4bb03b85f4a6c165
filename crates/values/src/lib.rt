//! The values inside information elements that the digital signalling systems share:
//! causes, progress, bearer capabilities and types of number.
#![tactic(auto)]

mod bearers;
mod causes;
mod numbering;
mod types;

pub use bearers::bearer;
pub use causes::{cause, progress};
pub use numbering::number_type;
pub use types::{BearerFault, Capability, NumberType};
