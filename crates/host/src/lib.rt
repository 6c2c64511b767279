// What a host in C or Rust calls: a session stays in memory that the host owns, and takes one event after another. `host_c` exports each
// function here under its own name; include/sundewcup_host.h explains it to a C programmer. The host may have damaged the session in its
// memory, so each function that reads it, unless its name says unchecked, decides that first, and refuses such memory with a number of its
// own; everything is then as it was.

#![tactic(auto)]

ghost use Rattle.std.specs.Prelude.{◌≡◌, pos, length};
ghost use Rattle.method.specs.words.Types.{steps};
ghost use Rattle.method.specs.told.Refusals.{table_said, event_said, limits_said, report_said};
ghost use Rattle.method.specs.told.Questions.{limits, place};
ghost use Rattle.method.specs.told.Report.{report};
ghost use Rattle.method.specs.computed.Table.{opening};
ghost use Rattle.rows.specs.Buffer.{written};
ghost use Rattle.corridor.specs.View.{view, Valid, opened_session, left_by_open};
ghost use Rattle.corridor.specs.Engine.{session_after};
ghost use Rattle.feeding.specs.Feeding.{fed_answer, fed_session, fed_into};
ghost use Rattle.closing.specs.Closing.{closed, closed_into};
ghost use Rattle.host_memory.specs.Memory.{session_in};
ghost use Rattle.host_questions.specs.AskedNumbers.{told_into, place_number, report_into};
ghost use Rattle.counting.specs.Counted.{number_in};
ghost use Rattle.host_session.specs.Answers.{line_said, field_said, reply_in, made_by, shift_rows, Leaves};
ghost use Rattle.host.specs.Checked.{damaged, damaged_count, Tells};

use host_memory::Memory;
use method::{EventReason, Limits, Place, Report, Row};
use numbers::Steps;

// What C is told of damaged memory: no refusal of the method has this number.
const DAMAGED: i64 = 99;

// And where rows are counted: more than any buffer has.
const DAMAGED_COUNT: usize = usize::MAX;

// How many numbers a session takes in memory, for a host that holds its own constant to it.
pub fn sundewcup_session_numbers() -> usize
    ensures { result ≡ 1056 }
{
    host_memory::numbers()
}

// Opens a session. After a refused table the memory holds none, and every function that checks refuses it as damaged (`tells_after_open`).
#[tactic(auto, unfolding(method::specs::told::Refusals::table_said, method::specs::told::Rows::row_numbers))]
pub fn sundewcup_open(session: &mut Memory, table: &[u8], line: &mut i64, field: &mut i64) -> i64
    ensures number { result ≡ pos (table_said (opened_session (opening table.now))).number }
    ensures line_after { line.new ≡ line_said (opened_session (opening table.now)) }
    ensures field_after { field.new ≡ field_said (opened_session (opening table.now)) }
    ensures session_after { session_in session.new ≡ left_by_open (opening table.now) }
{
    match host_session::open(session, table) {
        Ok(()) => {
            *line = 0;
            *field = 0;
            0
        }
        Err(refusal) => {
            let row = Row::RefusedTable(refusal.reason, refusal.line);
            let [_, number, at, place, _, _] = rows::row_numbers(row);
            *line = at;
            *field = place;
            number
        }
    }
}

// The answers to questions, in numbers: 0, or the refusal's number, and then nothing is written.

// The lower and the upper limit, and whether the lower one is frozen.
#[tactic(auto, using(crate::proofs::Told::told_into_refused), unfolding(method::specs::told::Refusals::limits_said))]
fn limits_number(answer: Result<Limits, EventReason>, out: &mut [i64; 3]) -> i64
    ensures number { result ≡ pos (limits_said answer).number }
    ensures out_after { out.new ≡ told_into out.old (limits_said answer) }
{
    match answer {
        Ok(k) => {
            *out = [k.lower.0, k.upper.0, host_report::mark_number(k.frozen)];
            0
        }
        Err(why) => rows::event_number(why),
    }
}

// Below -1, inside 0, above 1.
fn place_number(answer: Result<Place, EventReason>) -> i64
    ensures { result ≡ place_number answer }
{
    match answer {
        Ok(Place::Below) => -1,
        Ok(Place::Inside) => 0,
        Ok(Place::Above) => 1,
        Err(why) => rows::event_number(why),
    }
}

// All that stands on a line, in four rows.
#[tactic(auto, unfolding(method::specs::told::Refusals::report_said))]
fn report_number(answer: Result<Report, EventReason>, out: &mut [[i64; 6]; 4]) -> i64
    ensures number { result ≡ pos (report_said answer).number }
    ensures out_after { out.new ≡ report_into out.old answer }
{
    match answer {
        Ok(r) => {
            *out = host_report::report_rows(r);
            0
        }
        Err(why) => rows::event_number(why),
    }
}

// Each function from here on has the test in its own body. One test for all would be handed the rest as a closure, and of a closure no proof
// knows what it leaves in the buffers that it captures.

// Whether the memory has a session: 0, or the number of a damaged one.
pub fn sundewcup_check(session: &Memory) -> i64
    ensures { Tells session.now (result ≡ pos 0) (result ≡ damaged) }
{
    if host_intact::sound(session) {
        0
    } else {
        DAMAGED
    }
}

pub fn sundewcup_event(
    session: &mut Memory,
    bytes: &[u8],
    out: &mut [i64; 96],
    made: &mut usize,
) -> i64
    ensures number { Tells session.old
        (result ≡ pos (event_said (reply_in session.old bytes.now)).number) (result ≡ damaged) }
    ensures made_after { Tells session.old
        (made.new ≡ made_by (reply_in session.old bytes.now)) (made.new ≡ 0) }
    ensures out_after { Tells session.old
        (out.new ≡ written out.old 0 (shift_rows (reply_in session.old bytes.now)))
        (out.new ≡ out.old) }
    ensures session_after { Tells session.old
        (Leaves result session.old session.new (session_after (session_in session.old) bytes.now))
        (session.new ≡ session.old) }
{
    if host_intact::sound(session) {
        sundewcup_event_unchecked(session, bytes, out, made)
    } else {
        *made = 0;
        DAMAGED
    }
}

// One event, with no test of the memory first, for a host that answers for its memory.
#[tactic(auto, unfolding(method::specs::told::Refusals::event_said))]
pub fn sundewcup_event_unchecked(
    session: &mut Memory,
    bytes: &[u8],
    out: &mut [i64; 96],
    made: &mut usize,
) -> i64
    requires { Valid (session_in session.old) }
    ensures number { result ≡ pos (event_said (reply_in session.old bytes.now)).number }
    ensures made_after { made.new ≡ made_by (reply_in session.old bytes.now) }
    ensures out_after { out.new ≡ written out.old 0 (shift_rows (reply_in session.old bytes.now)) }
    ensures session_after { Leaves result session.old session.new (session_after (session_in session.old) bytes.now) }
{
    match host_session::event(session, bytes, out) {
        Ok(shifts) => {
            *made = shifts;
            0
        }
        Err(why) => {
            *made = 0;
            rows::event_number(why)
        }
    }
}

pub fn sundewcup_feed(session: &mut Memory, events: &[u8], out: &mut [i64]) -> usize
    ensures count { Tells session.old
        (result ≡ number_in (fed_answer (session_in session.old) (length out.old) events.now)) (result ≡ damaged_count) }
    ensures out_after { Tells session.old
        (out.new ≡ fed_into (session_in session.old) out.old events.now)
        (out.new ≡ out.old) }
    ensures session_after { Tells session.old
        (session_in session.new ≡ fed_session (session_in session.old) (length out.old) events.now)
        (session.new ≡ session.old) }
{
    if host_intact::sound(session) {
        counting::number_in(host_session::feed(session, events, out))
    } else {
        DAMAGED_COUNT
    }
}

pub fn sundewcup_close(session: &Memory, out: &mut [i64]) -> usize
    ensures count { Tells session.now
        (result ≡ number_in (closed (session_in session.now) (length out.old))) (result ≡ damaged_count) }
    ensures out_after { Tells session.now
        (out.new ≡ closed_into (session_in session.now) out.old) (out.new ≡ out.old) }
{
    if host_intact::sound(session) {
        counting::number_in(host_session::close(session, out))
    } else {
        DAMAGED_COUNT
    }
}

pub fn sundewcup_limits(session: &Memory, id: u32, out: &mut [i64; 3]) -> i64
    ensures number { Tells session.now
        (result ≡ pos (limits_said (limits id (view (session_in session.now)))).number) (result ≡ damaged) }
    ensures out_after { Tells session.now
        (out.new ≡ told_into out.old (limits_said (limits id (view (session_in session.now)))))
        (out.new ≡ out.old) }
{
    if host_intact::sound(session) {
        limits_number(host_questions::limits(session, id), out)
    } else {
        DAMAGED
    }
}

pub fn sundewcup_report(session: &Memory, id: u32, out: &mut [[i64; 6]; 4]) -> i64
    ensures number { Tells session.now
        (result ≡ pos (report_said (report id (view (session_in session.now)))).number) (result ≡ damaged) }
    ensures out_after { Tells session.now
        (out.new ≡ report_into out.old (report id (view (session_in session.now))))
        (out.new ≡ out.old) }
{
    if host_intact::sound(session) {
        report_number(host_questions::report(session, id), out)
    } else {
        DAMAGED
    }
}

pub fn sundewcup_place(session: &Memory, id: u32, price: i64) -> i64
    ensures { Tells session.now
        (result ≡ place_number (place id (steps price) (view (session_in session.now)))) (result ≡ damaged) }
{
    if host_intact::sound(session) {
        place_number(host_questions::place(session, id, Steps(price)))
    } else {
        DAMAGED
    }
}

// The place of an order price, with no test of the memory first.
pub fn sundewcup_place_unchecked(session: &Memory, id: u32, price: i64) -> i64
    requires { Valid (session_in session.now) }
    ensures { result ≡ place_number (place id (steps price) (view (session_in session.now))) }
{
    place_number(host_questions::place(session, id, Steps(price)))
}
