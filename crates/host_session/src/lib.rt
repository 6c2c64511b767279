// What opens a session in a host's memory and what changes it there: a table, one event, a buffer of events; and its closing rows.

#![tactic(auto)]

ghost use Rattle.std.specs.Prelude.{◌≡◌, ◌<◌, length, get_or, OnErr};
ghost use Rattle.method.specs.words.Types.{blank, session_ids};
ghost use Rattle.method.specs.computed.Table.{opening};
ghost use Rattle.method.specs.computed.Event.{read, with_book, quoted_line};
ghost use Rattle.pressure.specs.Asks.{JudgeableLine};
ghost use Rattle.verdict.specs.Decided.{decided};
ghost use Rattle.rows.specs.Buffer.{written};
ghost use Rattle.corridor.specs.View.{view, with_line, Valid, no_session, opened_session, left_by_open};
ghost use Rattle.corridor.specs.Applied.{applied_to, Applies};
ghost use Rattle.corridor.specs.Engine.{session_after};
ghost use Rattle.feeding.specs.Quiet.{quiet_until};
ghost use Rattle.feeding.specs.Feeding.{fed_answer, fed_session, fed_into};
ghost use Rattle.closing.specs.Closing.{closed, closed_into};
ghost use Rattle.host_memory.specs.Memory.{session_in};
ghost use Rattle.host_session.specs.Answers.{opened_or_not, reply_in, made_in, shift_rows};

use arrayvec::ArrayVec;
use corridor::Session;
use host_memory::Memory;
use method::{EventReason, Quote, TableRefusal};
use numbers::Seconds;
use rows::NoRoom;
use verdict::Taken;

// What stands in the memory after a refused table: no lines, and hold seconds and near share of 0, which no session has.
fn none() -> Session
    ensures { result ≡ no_session }
{
    Session::default()
}

// Opens a session. After a refused table the memory holds none: what it reads as is then not `Valid`.
pub fn open(session: &mut Memory, table: &[u8]) -> Result<(), TableRefusal>
    ensures answer { result ≡ opened_or_not (opened_session (opening table.now)) }
    ensures session_after { session_in session.new ≡ left_by_open (opening table.now) }
{
    let opened = corridor::open(table);
    host_memory::kept(session, &opened.unwrap_or(none()));
    opened?;
    Ok(())
}

// By way of the whole session, which is copied out of the memory and back into it.
fn by_value(session: &mut Memory, bytes: &[u8], out: &mut [i64; 96]) -> Result<usize, EventReason>
    requires { Valid (session_in session.old) }
    ensures answer { result ≡ made_in (reply_in session.old bytes.now) }
    ensures out_after { out.new ≡ written out.old 0 (shift_rows (reply_in session.old bytes.now)) }
    ensures session_after { session_in session.new ≡ session_after (session_in session.old) bytes.now }
    ensures untouched { OnErr result (session.new ≡ session.old) }
{
    let mut taken = host_memory::taken(session);
    let shifts = taken.event(bytes)?;
    host_memory::kept(session, &taken);
    rows::write_shifts(out, 0, &shifts);
    Ok(shifts.len())
}

// `looked` and `applied` do what a `Session` does for itself, where the lines lie as pairs of rows. As functions of
// their own over whatever has lines they missed the speed of an event, measured; and of a pair the walk reads the numbers that it wants and no
// more, which is why an event is not taken by way of a `Session`. That each asks `Valid` of what the memory reads as, `host_memory` explains at `Memory`.

// A quote on the line at its place. What it asks of that line is a clause and no type of its own: a line comes out of a host's memory, where
// any numbers may stand.
#[tactic(auto, unfolding(method::specs::computed::Event::quoted_line, method::specs::computed::Judge::judge_line))]
fn quoted(session: &mut Memory, place: usize, q: Quote)
    requires { (place < 32)
        × JudgeableLine (session_in session.old).near (with_book (get_or (session_in session.old).lines place blank) q.bid q.ask) }
    ensures { session_in session.new ≡ with_line (session_in session.old) place
        (quoted_line (session_in session.old).near (session_in session.old).left q
        (get_or (session_in session.old).lines place blank)) }
{
    let head = host_memory::head(session);
    let line = shifts::quoted_line(
        head.near,
        head.left,
        q,
        host_memory::line_at(session, place),
    );
    host_memory::with_judged(session, place, &line);
}

// A quote is put on its line, a tick changes none, and the clock is set.
fn applied(session: &mut Memory, v: Taken)
    requires { Applies (session_in session.old) v.change }
    ensures { session_in session.new ≡ applied_to (session_in session.old) v }
{
    if let Some(p) = v.change {
        quoted(session, p.place, p.quote);
    }
    host_memory::with_clock(session, v.time);
}

// What becomes of an event, by the ids, the end and the clock alone, and the second before which no hold falls due, whatever the event. One
// walk over the lines sees to both: two would cost each event more, and so would a vector of ids that a function of its own hands back.
#[tactic(auto, unfolding(due::specs::Quiet::until_all))]
fn looked(session: &Memory, bytes: &[u8]) -> (Result<Taken, EventReason>, Seconds)
    requires { Valid (session_in session.now) }
    ensures taken { result.0 ≡ decided (session_ids (view (session_in session.now))) (session_in session.now).end
        (session_in session.now).clock (read bytes.now) }
    ensures quiet { result.1 ≡ quiet_until (view (session_in session.now)) }
{
    let head = host_memory::head(session);
    let mut ids = ArrayVec::<u32, 32>::new();
    let mut quiet = Seconds(u32::MAX);
    for pair in host_memory::lines(session) {
        ids.push(host_memory::id(pair));
        quiet = due::until(quiet, head.hold, host_memory::holds(pair));
    }
    let taken = verdict::screen(&ids, 0, head.end, head.clock, events::read(bytes));
    (taken, quiet)
}

// One event, where the session lies: how many shift lines there are. Only where a hold falls due by its second is the session taken out of
// the memory.
pub fn event(session: &mut Memory, bytes: &[u8], out: &mut [i64; 96]) -> Result<usize, EventReason>
    requires { Valid (session_in session.old) }
    ensures answer { result ≡ made_in (reply_in session.old bytes.now) }
    ensures out_after { out.new ≡ written out.old 0 (shift_rows (reply_in session.old bytes.now)) }
    ensures session_after { session_in session.new ≡ session_after (session_in session.old) bytes.now }
    ensures untouched { OnErr result (session.new ≡ session.old) }
{
    let (screened, quiet) = looked(session, bytes);
    let taken = screened?;
    if quiet <= taken.time {
        return by_value(session, bytes, out);
    }
    applied(session, taken);
    Ok(0)
}

// A buffer of events. Where the room is not there, nothing is done.
pub fn feed(session: &mut Memory, events: &[u8], out: &mut [i64]) -> Result<usize, NoRoom>
    requires { Valid (session_in session.old) }
    ensures value { result ≡ fed_answer (session_in session.old) (length out.old) events.now }
    ensures out_after { out.new ≡ fed_into (session_in session.old) out.old events.now }
    ensures session_after { session_in session.new ≡ fed_session (session_in session.old) (length out.old) events.now }
{
    let mut taken = host_memory::taken(session);
    let answer = feeding::feed(&mut taken, events, out);
    host_memory::kept(session, &taken);
    answer
}

// The closing rows. Where the room is not there, nothing is written.
pub fn close(session: &Memory, out: &mut [i64]) -> Result<usize, NoRoom>
    requires { Valid (session_in session.now) }
    ensures value { result ≡ closed (session_in session.now) (length out.old) }
    ensures out_after { out.new ≡ closed_into (session_in session.now) out.old }
{
    closing::close(&host_memory::taken(session), out)
}
