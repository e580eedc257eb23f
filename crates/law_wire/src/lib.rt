//! A network on the wire: the flow messages and barrier requests of a driver that can turn back, switches that carry them out in any order
//! between barriers, bytes that come in any pieces, and packets on their way.
#![tactic(auto)]

pub mod laws;
