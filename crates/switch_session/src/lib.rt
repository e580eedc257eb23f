//! The channel between a controller and one switch: bytes come in any pieces, are cut into messages of OpenFlow 1.0 and taken,
//! and bytes are sent.
#![tactic(auto)]

mod causes;
mod channels;
mod fronts;
pub mod laws;
mod lines;

pub use causes::cause_text;
pub use channels::Channel;
pub use lines::{bytes_line, cause_line};

/// Why a session failed.
#[derive(Clone, Copy, Debug, PartialEq, Eq)]
pub enum Cause {
    /// A message's length is below 8, a barrier reply's isn't 8, or an error's is below 12.
    Length,
    /// A message's version is 0, or it isn't 1 and the message is no HELLO.
    Version,
    /// A message came before the first HELLO.
    NoHello,
    /// The switch sent an error, with this type and code (OpenFlow 1.0.0, section 5.4.4).
    Error(u16, u16),
    /// A barrier reply has this xid, which isn't that of an outstanding barrier.
    Xid(u32),
}

/// A session with a switch. A failed one stays so.
#[derive(Clone, Copy, Debug, PartialEq, Eq)]
pub enum Session {
    /// No HELLO has come.
    Waiting,
    /// A HELLO has come, and each message since was one that a controller can take.
    Open,
    /// Nothing more is read.
    Failed(Cause),
}
