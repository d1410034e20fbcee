// Check, Count, Show, Fold, Sort and Run of a file, by the product and by the reference.
#![tactic(auto)]

pub mod files;
pub mod folds;
pub mod sorts;
