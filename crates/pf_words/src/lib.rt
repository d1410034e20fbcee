// What the command says: outcomes, causes of a block and of a row, and results that are kept; and memories.
#![tactic(auto)]

pub mod block_causes;
pub mod calls;
pub mod outcome;
pub mod rooms;
pub mod row_causes;
pub mod saving;
