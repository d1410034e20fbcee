// Bytes, rows and values, as the second folder reads them, and its memories.
#![tactic(auto)]

pub mod bytes;
pub mod rooms;
pub mod rows;
pub mod values;
