//! What readers and writers of lines share: bytes in hexadecimal digits, VLANs, and texts that grow.
#![tactic(auto)]

mod growing;
mod words;

pub use growing::{add_made, add_word};
pub use words::{read_digits, read_vlan};
