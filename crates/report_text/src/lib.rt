//! What is written at the end of a call: the report of a run or of an audit, why each thing is left,
//! or the line of a refusal.
#![tactic(auto)]

mod audit;
mod lines;
mod numbers;
mod reasons;
mod refusal;
mod run_report;
mod status;

pub use audit::audit_report;
pub use numbers::Numbers;
pub use reasons::why_lines;
pub use refusal::refusal_line;
pub use run_report::report;
pub use status::Status;
