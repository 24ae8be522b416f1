//! What explains how a call of the command ended: why it was stopped, by its words, by the bytes that it read of its source, and by the reason; and what is
//! noted of a source.
#![tactic(auto)]

pub use crate::causes::asks_columns;
pub use crate::explaining::{explain_note, explain_stop};
pub use crate::judgments::PAST_CERTIFICATE;
pub use crate::notes::MOST_NOTED;
pub use crate::outlook::{Again, Outlook, PAST_SOURCE, RealOutlook};
pub use crate::sources::given_names;
pub use crate::stops::stop_text;

mod causes;
mod explaining;
mod faults;
mod judgments;
mod notes;
mod outlook;
mod sources;
mod stops;
mod usage;
