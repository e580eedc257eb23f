//! Evidence for rounds of changes: what makes them a certified ordered plan, or the first cause why nothing does.
#![tactic(auto)]

mod certifying;
mod evidence;
mod refusal;

pub use certifying::{certify, certify_rounds, with_evidence};
pub use refusal::{CertifyFault, Refusal};
