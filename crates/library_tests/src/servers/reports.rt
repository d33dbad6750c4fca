//! What is written, and each call once with its answer.

use ntp_mac::Reply;
use ntp_packet::{Header, Malformed, Short, Stamp};
use ntp_reply::{Answer, Reason, SignedReply};
use ntp_reports::{
    AnswerLines, Ask, Belief, ClockGauges, Counts, Doubt, FileGauges, Gauges, Kind, LineAllowance,
    write_statistics,
};
use ntp_service::{Arrival, LineFault, LineOutcome, Refusal, Sending, TurnOutcome};
use std::alloc::{AllocError, Global};
use std::io::Write;
use std::process::Abort;
use std::test::Fail;
use test_support::{Broken, CUSTOMER, Refusing, moment};

// What is written of counts in which each metric has a number of its own: these texts, and between them a line for each of the silences
// and then of the refusals.
const BEFORE_SILENCES: &str = r#"# HELP labntp_answers_total Answers to datagrams.
# TYPE labntp_answers_total counter
labntp_answers_total{answer="time",mode="basic"} 3
labntp_answers_total{answer="time",mode="interleaved"} 2
labntp_answers_total{answer="rate"} 4
labntp_answers_total{answer="deny"} 5
labntp_answers_total{answer="nak"} 6
"#;

const BEFORE_REFUSALS: &str =
    r#"# HELP labntp_receive_failures_total Calls that received no datagram.
# TYPE labntp_receive_failures_total counter
labntp_receive_failures_total 7
# HELP labntp_send_failures_total Replies that could not be sent.
# TYPE labntp_send_failures_total counter
labntp_send_failures_total 5
# HELP labntp_stale_total Datagrams that were dropped, since they may have waited for too long.
# TYPE labntp_stale_total counter
labntp_stale_total 50
# HELP labntp_kernel_drops_total Datagrams that the kernel dropped for want of room.
# TYPE labntp_kernel_drops_total counter
labntp_kernel_drops_total 51
# HELP labntp_departures_noted_total Replies whose departure was noted.
# TYPE labntp_departures_noted_total counter
labntp_departures_noted_total 5
# HELP labntp_receive_buffer_octets The socket's receive buffer, as the kernel counts.
# TYPE labntp_receive_buffer_octets gauge
labntp_receive_buffer_octets 55
# HELP labntp_queue_wait_seconds How long a datagram can have waited at most.
# TYPE labntp_queue_wait_seconds gauge
labntp_queue_wait_seconds 0.012500000
# HELP labntp_send_would_wait_total Replies that were not sent, since the socket would have waited.
# TYPE labntp_send_would_wait_total counter
labntp_send_would_wait_total 56
# HELP labntp_sweeps_total Times that the queue was swept.
# TYPE labntp_sweeps_total counter
labntp_sweeps_total 57
# HELP labntp_commands_total Lines of commands.
# TYPE labntp_commands_total counter
labntp_commands_total{answer="done"} 8
"#;

const BEHIND_REFUSALS: &str = r#"labntp_commands_total{answer="faulty"} 9
# HELP labntp_commands_lines Lines of the commands file that are applied.
# TYPE labntp_commands_lines gauge
labntp_commands_lines 58
# HELP labntp_commands_octets Octets of these lines.
# TYPE labntp_commands_octets gauge
labntp_commands_octets 59
# HELP labntp_commands_changed Whether the commands file is no longer the one that was read: no line is carried out until a restart.
# TYPE labntp_commands_changed gauge
labntp_commands_changed 1
# HELP labntp_customers Customers that are enrolled.
# TYPE labntp_customers gauge
labntp_customers 52
# HELP labntp_clock_synchronised Whether replies say that the clock is synchronised.
# TYPE labntp_clock_synchronised gauge
labntp_clock_synchronised 1
# HELP labntp_clock_age_seconds How old what is known of the clock is.
# TYPE labntp_clock_age_seconds gauge
labntp_clock_age_seconds 1.050000000
# HELP labntp_clock_stratum The stratum that replies tell.
# TYPE labntp_clock_stratum gauge
labntp_clock_stratum 2
# HELP labntp_clock_leap The leap indicator that replies tell.
# TYPE labntp_clock_leap gauge
labntp_clock_leap 1
# HELP labntp_clock_root_delay_seconds The root delay that replies tell.
# TYPE labntp_clock_root_delay_seconds gauge
labntp_clock_root_delay_seconds 0.500000000
# HELP labntp_clock_root_dispersion_seconds The root dispersion that replies tell.
# TYPE labntp_clock_root_dispersion_seconds gauge
labntp_clock_root_dispersion_seconds 16.000015258
# HELP labntp_clock_offset_seconds How far the daemon's clock was from the host's at its last answer.
# TYPE labntp_clock_offset_seconds gauge
labntp_clock_offset_seconds -1.000000002
# HELP labntp_clock_reference_age_seconds How long ago the daemon's clock was set, by its last answer.
# TYPE labntp_clock_reference_age_seconds gauge
labntp_clock_reference_age_seconds 5000.250000000
# HELP labntp_clock_most_reference_age_seconds Up to which of these ages it is believed.
# TYPE labntp_clock_most_reference_age_seconds gauge
labntp_clock_most_reference_age_seconds 86400.000000000
# HELP labntp_clock_root_distance_seconds The root distance of the daemon's last answer by now.
# TYPE labntp_clock_root_distance_seconds gauge
labntp_clock_root_distance_seconds 16.250015258
# HELP labntp_clock_most_root_distance_seconds Up to which of these distances it is believed.
# TYPE labntp_clock_most_root_distance_seconds gauge
labntp_clock_most_root_distance_seconds 1.500000000
# HELP labntp_clock_believed Whether the clock's daemon is believed, or why not.
# TYPE labntp_clock_believed gauge
labntp_clock_believed{why="believed"} 0
labntp_clock_believed{why="fixed"} 0
labntp_clock_believed{why="no-answer"} 0
labntp_clock_believed{why="old"} 0
labntp_clock_believed{why="unsynchronised"} 0
labntp_clock_believed{why="reference-old"} 0
labntp_clock_believed{why="reference-ahead"} 0
labntp_clock_believed{why="far"} 1
labntp_clock_believed{why="set"} 0
# HELP labntp_log_lines_dropped_total Lines of the log that were not written.
# TYPE labntp_log_lines_dropped_total counter
labntp_log_lines_dropped_total 53
# HELP labntp_files_unreadable_total Times that a file began to fail, at reading or writing.
# TYPE labntp_files_unreadable_total counter
labntp_files_unreadable_total 54
# HELP labntp_file_ok Whether a file can be read or written.
# TYPE labntp_file_ok gauge
labntp_file_ok{file="commands"} 1
labntp_file_ok{file="answers"} 0
labntp_file_ok{file="statistics"} 1
labntp_file_ok{file="customers"} 0
# HELP labntp_start_time_seconds When the server was started, since 1970.
# TYPE labntp_start_time_seconds gauge
labntp_start_time_seconds 1790000000.000000001
# HELP labntp_build_info The version of the server.
# TYPE labntp_build_info gauge
labntp_build_info{version="0.1.0"} 1
"#;

// How these lines begin.
const SILENT: &str = r#"labntp_answers_total{answer="silent""#;

const REFUSED: &str = r#"labntp_commands_total{answer="refused""#;

// A turn in which a datagram was answered.
fn answered(answer: Answer, sending: Sending) -> TurnOutcome {
    TurnOutcome::Answered {
        arrival: Arrival {
            address: CUSTOMER,
            port: 123,
            length: 68,
            receipt: moment(1),
        },
        answer,
        sending,
    }
}

// A signed reply.
fn signed(is_interleaved: bool) -> SignedReply {
    SignedReply {
        octets: Reply::from_header(&Header::blank(4, 4)),
        number: 7,
        is_interleaved,
    }
}

// Time that was sent and whose departure was noted.
fn time(is_interleaved: bool) -> TurnOutcome {
    let answer = Answer::Time {
        reply: signed(is_interleaved),
        saved: Stamp(1),
    };
    answered(answer, Sending::Noted)
}

// Counts a turn so often.
fn count_turns(counts: &mut Counts, times: u64, outcome: &TurnOutcome) {
    for _ in 0..times {
        counts.count_turn(outcome);
    }
}

// Counts turns with a reply.
fn count_replies(counts: &mut Counts) {
    count_turns(counts, 3, &time(false));
    count_turns(counts, 2, &time(true));
    let rate = Answer::Rate(signed(false));
    let deny = Answer::Deny(signed(false).octets);
    let nak = Answer::Nak(signed(false).octets);
    count_turns(counts, 4, &answered(rate, Sending::Sent));
    count_turns(counts, 5, &answered(deny, Sending::NotSent));
    count_turns(counts, 6, &answered(nak, Sending::Sent));
}

// How often there is no answer, for each reason, and its word.
const SILENCES: [(u64, Reason, &str); 12] = [
    (10, Reason::Unregistered, "unregistered"),
    (11, Reason::Malformed(Malformed::Short), "short"),
    (12, Reason::Malformed(Malformed::Long), "long"),
    (
        13,
        Reason::Malformed(Malformed::FieldShort { at: 48 }),
        "field-short",
    ),
    (
        14,
        Reason::Malformed(Malformed::FieldUnaligned { at: 48 }),
        "field-unaligned",
    ),
    (
        15,
        Reason::Malformed(Malformed::FieldPastEnd { at: 48 }),
        "field-past-end",
    ),
    (16, Reason::Malformed(Malformed::Rest { at: 48 }), "rest"),
    (17, Reason::Version, "version"),
    (18, Reason::Mode, "mode"),
    (19, Reason::Bare, "bare"),
    (20, Reason::Muted, "muted"),
    (21, Reason::OverBudget, "over-budget"),
];

// Counts turns without a reply.
fn count_silences(counts: &mut Counts) {
    count_turns(counts, 7, &TurnOutcome::NothingReceived);
    for (times, reason, _) in SILENCES {
        count_turns(
            counts,
            times,
            &answered(Answer::Silent(reason), Sending::NoReply),
        );
    }
}

// How often lines of commands are refused, for each reason, and its word.
const REFUSALS: [(u64, Refusal, &str); 8] = [
    (30, Refusal::AlreadyEnrolled, "already-enrolled"),
    (31, Refusal::KeyTaken, "key-taken"),
    (32, Refusal::NoMemory, "no-memory"),
    (33, Refusal::NotEnrolled, "not-enrolled"),
    (34, Refusal::SameNumber, "same-number"),
    (35, Refusal::RoomFull, "room-full"),
    (36, Refusal::OnlyKey, "only-key"),
    (37, Refusal::NotHeld, "not-held"),
];

// Counts lines of commands that are answered so.
fn count_lines_of(counts: &mut Counts, times: u64, outcome: LineOutcome) {
    for _ in 0..times {
        counts.count_line(outcome);
    }
}

// Counts lines of commands.
fn count_lines(counts: &mut Counts) {
    count_lines_of(counts, 8, LineOutcome::Done);
    count_lines_of(counts, 9, LineOutcome::Faulty(LineFault::Budget));
    for (times, refusal, _) in REFUSALS {
        count_lines_of(counts, times, LineOutcome::Refused(refusal));
    }
}

// Adds a line: how often an answer was given for the reason with this word.
fn push_line(text: &mut String, answer: &str, word: &str, times: u64) -> Result<(), AllocError> {
    writeln!(text, r#"{answer},reason="{word}"}} {times}"#)
}

// What is written of all that.
fn statistics(alloc: Global) -> Result<String, Fail> {
    let mut text = String::from_str(alloc, BEFORE_SILENCES)?;
    for (times, _, word) in SILENCES {
        push_line(&mut text, SILENT, word, times)?;
    }
    text.push_str(BEFORE_REFUSALS)?;
    for (times, _, word) in REFUSALS {
        push_line(&mut text, REFUSED, word, times)?;
    }
    text.push_str(BEHIND_REFUSALS)?;
    Ok(text)
}

// What is told beside the counts.
const GAUGES: Gauges<'static> = Gauges {
    stale: 50,
    kernel_drops: 51,
    receive_buffer: 55,
    queue_wait: Some(12_500_000),
    send_would_wait: 56,
    sweeps: 57,
    commands_lines: 58,
    commands_octets: 59,
    commands_changed: true,
    customers: 52,
    clock: ClockGauges {
        is_synchronised: true,
        age: Some(1_050_000_000),
        stratum: 2,
        leap: 1,
        root_delay: Short(0x8000),
        root_dispersion: Short(0x0010_0001),
        offset: Some(-1_000_000_002),
        reference_age: Some(5_000_250_000_000),
        most_reference_age: Some(86_400_000_000_000),
        root_distance: Some(16_250_015_258),
        most_root_distance: Some(Short(0x0001_8000)),
        belief: Belief::Doubted(Doubt::Far),
    },
    files: FileGauges {
        commands: true,
        answers: false,
        statistics: true,
        customers: false,
    },
    log_lines_dropped: 53,
    files_unreadable: 54,
    start_time: 1_790_000_000_000_000_001,
    version: "0.1.0",
};

// Just this is written of these counts, without memory.
fn assert_statistics(
    rt: &impl Abort,
    memory: &Refusing<Global>,
    counts: &Counts,
    wanted: &str,
) -> Result<(), Fail> {
    let mut text = Vec::with_capacity(memory, 8192)?;
    memory.refuse_all();
    let written = write_statistics(&mut text, counts, &GAUGES);
    assert!(rt; written.is_ok() && memory.refused() == 0);
    assert_eq!(rt; str::from_utf8(text.as_slice()), Ok(wanted));
    Ok(())
}

#[test]
fn statistics_are_written_without_memory(rt: HostRuntime) -> Result<(), Fail> {
    let mut counts = Counts::new();
    count_replies(&mut counts);
    count_silences(&mut counts);
    count_lines(&mut counts);
    assert!(rt; counts.count(Kind::Noted) == 5);
    let memory = Refusing::new(rt.alloc());
    let wanted = statistics(rt.alloc())?;
    assert_statistics(&rt, &memory, &counts, wanted.as_str())
}

// Where nothing is known of the clock, and the commands file is as it was.
fn unknown() -> Gauges<'static> {
    let clock = ClockGauges {
        is_synchronised: false,
        age: None,
        offset: None,
        reference_age: None,
        most_reference_age: None,
        root_distance: None,
        most_root_distance: None,
        ..GAUGES.clock
    };
    Gauges {
        clock,
        queue_wait: None,
        commands_changed: false,
        ..GAUGES
    }
}

// Lines of what is written then.
const UNKNOWN_LINES: [&str; 9] = [
    "\nlabntp_clock_synchronised 0\n",
    "\nlabntp_commands_changed 0\n",
    "\nlabntp_clock_age_seconds NaN\n",
    "\nlabntp_clock_offset_seconds NaN\n",
    "\nlabntp_clock_reference_age_seconds NaN\n",
    "\nlabntp_clock_most_reference_age_seconds NaN\n",
    "\nlabntp_clock_root_distance_seconds NaN\n",
    "\nlabntp_clock_most_root_distance_seconds NaN\n",
    "\nlabntp_queue_wait_seconds NaN\n",
];

// Whether what is not known can be written.
fn writes_unknown<W: Write>(out: &mut W) -> bool {
    write_statistics(out, &Counts::new(), &unknown()).is_ok()
}

#[test]
fn a_clock_of_which_nothing_is_known_has_no_age(rt: HostRuntime) -> Result<(), Fail> {
    let mut octets = Vec::new(rt.alloc());
    assert!(rt; writes_unknown(&mut octets));
    let text = str::from_utf8(octets.as_slice())?;
    for line in UNKNOWN_LINES {
        assert!(rt; text.contains(line), "{line}");
    }
    assert!(rt; !writes_unknown(&mut Broken));
    Ok(())
}

// Answers three lines.
fn answer_three_lines<W: Write>(answers: &mut AnswerLines<W>) {
    answers.line(1, LineOutcome::Done);
    answers.line(3, LineOutcome::Refused(Refusal::AlreadyEnrolled));
    answers.line(12, LineOutcome::Faulty(LineFault::KeyText));
}

#[test]
fn lines_are_answered_without_memory(rt: HostRuntime) -> Result<(), Fail> {
    let memory = Refusing::new(rt.alloc());
    let mut written = Vec::with_capacity(&memory, 100)?;
    memory.refuse_all();
    let mut answers = AnswerLines::new(&mut written);
    let mut broken = AnswerLines::new(Broken);
    answer_three_lines(&mut answers);
    answer_three_lines(&mut broken);
    assert!(rt; answers.fault().is_none() && broken.fault().is_some());
    assert!(rt; memory.refused() == 0);
    let wanted = b"1 done\n3 refused already-enrolled\n12 faulty key\n";
    assert!(rt; written.as_slice() == wanted.as_slice());
    Ok(())
}

// In which minute, how often, and what is then answered to whether a line may be said.
const ASKS: [(u64, u64, Ask); 7] = [
    (0, 10, Ask::Say),
    (0, 2, Ask::Hold),
    (1, 1, Ask::SayWithMore(2)),
    (1, 9, Ask::Say),
    (1, 1, Ask::Hold),
    (29_000_000, 1, Ask::SayWithMore(1)),
    (29_000_001, 1, Ask::Say),
];

#[test]
fn ten_lines_a_minute_are_allowed(rt: HostRuntime) {
    let mut allowance = LineAllowance::new();
    for (minute, times, answer) in ASKS {
        for _ in 0..times {
            let has_room = allowance.has_room(minute);
            assert!(rt; has_room == (answer != Ask::Hold), "in minute {minute}");
            assert!(rt; allowance.ask(minute) == answer, "in minute {minute}");
        }
    }
}
