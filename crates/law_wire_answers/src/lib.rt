//! What a driver says of an update rests on what switches answered: its events wait for the replies to barrier requests, an update turns
//! back whenever it is asked to, and a session fails just where its bytes break the rules. Each is a law over calls, and over the messages
//! and bytes that they exchange.
#![tactic(auto)]

pub mod laws;
