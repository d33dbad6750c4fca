//! Tests of what programs are made of (`labntp_jobs`, `ntp_port`, `ntp_server` and `ntp_reports`); and of refused memory, and of reads,
//! writes, receives and sends that fail.

mod command_line;
mod commands_file;
mod customer_reports;
mod fail_after;
mod failing_port;
mod failing_streams;
mod faulty;
mod first_answers;
mod freshness;
mod looks;
mod refused;
mod refused_calls;
mod refused_enrolments;
mod refused_rollovers;
mod registers;
mod replay;
mod reports;
mod scant_service;
mod server;
mod turns;
mod twin;
