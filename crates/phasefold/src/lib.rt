// The phase folder's public library: Check, Count, Show, Sort, Import, Run, Fold and Trace, and a file for each with its form for C, where an answer is a struct of numbers and a slice is a pointer and a length, and one for the interface's number. The exports are those of `phasefold_c`.
#![tactic(auto)]

pub use accept::{Accepted, FileRefusal, accept as check};
pub use blockfile::count::Counts;
pub use clock_list::Clock;
pub use count::count;
pub use fold::fold;
pub use fold_answers::FoldNumbers;
pub use fold_refusals::FoldRefusal;
pub use import::import;
pub use import_answers::ImportRefusal;
pub use questions::Numbered;
pub use run::run;
pub use run_answers::RunRefusal;
pub use show::show;
pub use sort::sort;
pub use sort_answers::SortRefusal;
pub use trace::trace;
pub use trace_answers::TraceRefusal;

pub mod c_check;
pub mod c_count;
pub mod c_fold;
pub mod c_import;
pub mod c_run;
pub mod c_show;
pub mod c_sort;
pub mod c_trace;
pub mod c_version;
