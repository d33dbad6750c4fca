//! What is reported of a server: counts of what it did, answers to lines of commands, and statistics.
#![tactic(auto)]

mod answer_lines;
mod counted_kinds;
mod counts;
mod customer_counts;
mod customer_report;
mod customer_text;
mod kind;
mod kinds;
mod line_allowance;
mod logging;
mod statistics;

pub use answer_lines::AnswerLines;
pub use counts::Counts;
pub use customer_counts::CustomerCounts;
pub use customer_report::{CustomerReport, KeyUse};
pub use customer_text::customer_line;
pub use kind::Kind;
pub use line_allowance::{Ask, LineAllowance, MOST_LINES};
pub use logging::{customers_after, write_logged_line};
pub use ntp_client::Doubt;
pub use statistics::{Belief, ClockGauges, FileGauges, Gauges, write_statistics};
