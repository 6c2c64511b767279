// The exports of `host` for C, each with the clauses of the function that it calls: a static library exports the functions of its own crate
// alone. The archive is libhost.a, its header include/sundewcup_host.h.

#![tactic(auto)]

ghost use Rattle.std.specs.Prelude.{◌≡◌, pos, length};
ghost use Rattle.method.specs.words.Types.{steps};
ghost use Rattle.method.specs.told.Refusals.{table_said, event_said, limits_said, report_said};
ghost use Rattle.method.specs.told.Questions.{limits, place};
ghost use Rattle.method.specs.told.Report.{report};
ghost use Rattle.method.specs.computed.Table.{opening};
ghost use Rattle.rows.specs.Buffer.{written};
ghost use Rattle.corridor.specs.View.{view, Valid, opened_session, left_by_open};
ghost use Rattle.corridor.specs.Engine.{session_after};
ghost use Rattle.feeding.specs.Feeding.{fed_answer, fed_session, fed_into};
ghost use Rattle.closing.specs.Closing.{closed, closed_into};
ghost use Rattle.host_memory.specs.Memory.{session_in};
ghost use Rattle.host_questions.specs.AskedNumbers.{told_into, place_number, report_into};
ghost use Rattle.counting.specs.Counted.{number_in};
ghost use Rattle.host_session.specs.Answers.{line_said, field_said, reply_in, made_by, shift_rows, Leaves};
ghost use Rattle.host.specs.Checked.{damaged, damaged_count, Tells};

use host_memory::Memory;

#[unsafe(no_mangle)]
pub extern "C" fn sundewcup_session_numbers() -> usize
    ensures { result ≡ 1056 }
{
    host::sundewcup_session_numbers()
}

#[unsafe(no_mangle)]
pub extern "C" fn sundewcup_open(
    session: &mut Memory,
    table: &[u8],
    line: &mut i64,
    field: &mut i64,
) -> i64
    ensures number { result ≡ pos (table_said (opened_session (opening table.now))).number }
    ensures line_after { line.new ≡ line_said (opened_session (opening table.now)) }
    ensures field_after { field.new ≡ field_said (opened_session (opening table.now)) }
    ensures session_after { session_in session.new ≡ left_by_open (opening table.now) }
{
    host::sundewcup_open(session, table, line, field)
}

#[unsafe(no_mangle)]
pub extern "C" fn sundewcup_check(session: &Memory) -> i64
    ensures { Tells session.now (result ≡ pos 0) (result ≡ damaged) }
{
    host::sundewcup_check(session)
}

#[unsafe(no_mangle)]
pub extern "C" fn sundewcup_event(
    session: &mut Memory,
    bytes: &[u8],
    out: &mut [i64; 96],
    made: &mut usize,
) -> i64
    ensures number { Tells session.old
        (result ≡ pos (event_said (reply_in session.old bytes.now)).number) (result ≡ damaged) }
    ensures made_after { Tells session.old
        (made.new ≡ made_by (reply_in session.old bytes.now)) (made.new ≡ 0) }
    ensures out_after { Tells session.old
        (out.new ≡ written out.old 0 (shift_rows (reply_in session.old bytes.now)))
        (out.new ≡ out.old) }
    ensures session_after { Tells session.old
        (Leaves result session.old session.new (session_after (session_in session.old) bytes.now))
        (session.new ≡ session.old) }
{
    host::sundewcup_event(session, bytes, out, made)
}

#[unsafe(no_mangle)]
pub extern "C" fn sundewcup_event_unchecked(
    session: &mut Memory,
    bytes: &[u8],
    out: &mut [i64; 96],
    made: &mut usize,
) -> i64
    requires { Valid (session_in session.old) }
    ensures number { result ≡ pos (event_said (reply_in session.old bytes.now)).number }
    ensures made_after { made.new ≡ made_by (reply_in session.old bytes.now) }
    ensures out_after { out.new ≡ written out.old 0 (shift_rows (reply_in session.old bytes.now)) }
    ensures session_after { Leaves result session.old session.new (session_after (session_in session.old) bytes.now) }
{
    host::sundewcup_event_unchecked(session, bytes, out, made)
}

#[unsafe(no_mangle)]
pub extern "C" fn sundewcup_feed(session: &mut Memory, events: &[u8], out: &mut [i64]) -> usize
    ensures count { Tells session.old
        (result ≡ number_in (fed_answer (session_in session.old) (length out.old) events.now)) (result ≡ damaged_count) }
    ensures out_after { Tells session.old
        (out.new ≡ fed_into (session_in session.old) out.old events.now)
        (out.new ≡ out.old) }
    ensures session_after { Tells session.old
        (session_in session.new ≡ fed_session (session_in session.old) (length out.old) events.now)
        (session.new ≡ session.old) }
{
    host::sundewcup_feed(session, events, out)
}

#[unsafe(no_mangle)]
pub extern "C" fn sundewcup_close(session: &Memory, out: &mut [i64]) -> usize
    ensures count { Tells session.now
        (result ≡ number_in (closed (session_in session.now) (length out.old))) (result ≡ damaged_count) }
    ensures out_after { Tells session.now
        (out.new ≡ closed_into (session_in session.now) out.old) (out.new ≡ out.old) }
{
    host::sundewcup_close(session, out)
}

#[unsafe(no_mangle)]
pub extern "C" fn sundewcup_limits(session: &Memory, id: u32, out: &mut [i64; 3]) -> i64
    ensures number { Tells session.now
        (result ≡ pos (limits_said (limits id (view (session_in session.now)))).number) (result ≡ damaged) }
    ensures out_after { Tells session.now
        (out.new ≡ told_into out.old (limits_said (limits id (view (session_in session.now)))))
        (out.new ≡ out.old) }
{
    host::sundewcup_limits(session, id, out)
}

#[unsafe(no_mangle)]
pub extern "C" fn sundewcup_report(session: &Memory, id: u32, out: &mut [[i64; 6]; 4]) -> i64
    ensures number { Tells session.now
        (result ≡ pos (report_said (report id (view (session_in session.now)))).number) (result ≡ damaged) }
    ensures out_after { Tells session.now
        (out.new ≡ report_into out.old (report id (view (session_in session.now))))
        (out.new ≡ out.old) }
{
    host::sundewcup_report(session, id, out)
}

#[unsafe(no_mangle)]
pub extern "C" fn sundewcup_place(session: &Memory, id: u32, price: i64) -> i64
    ensures { Tells session.now
        (result ≡ place_number (place id (steps price) (view (session_in session.now)))) (result ≡ damaged) }
{
    host::sundewcup_place(session, id, price)
}

#[unsafe(no_mangle)]
pub extern "C" fn sundewcup_place_unchecked(session: &Memory, id: u32, price: i64) -> i64
    requires { Valid (session_in session.now) }
    ensures { result ≡ place_number (place id (steps price) (view (session_in session.now))) }
{
    host::sundewcup_place_unchecked(session, id, price)
}
