// The bytes of the chunks that peers exchange, as the RFCs lay them out. Every call takes any bytes of any length.
#![tactic(auto)]

pub mod data;
pub mod flags;
pub mod sack;
