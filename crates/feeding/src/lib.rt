// A whole buffer of events: their answers as rows of numbers, in a buffer that the caller lends.

#![tactic(auto)]

ghost use Rattle.std.specs.Prelude.{◌≡◌, ◌≤◌, length};
ghost use Rattle.corridor.specs.View.{view, Valid};
ghost use Rattle.feeding.specs.Quiet.{quiet_until};
ghost use Rattle.feeding.specs.Feeding.{fed_answer, fed_session, fed_into};

use corridor::Session;
use method::Row;
use numbers::Seconds;
use rows::NoRoom;

// For each id a guess at its place, which spares most searches. Nothing hangs on its being right.
fn guessed(ids: &[u32]) -> [u8; 256]
    requires { length ids.now ≤ 32 }
{
    let mut places = [0; 256];
    for (place, &id) in ids.iter().enumerate() {
        places[(id % 256) as usize] = place as u8;
    }
    places
}

// The second before which no hold falls due, whatever the event; where no hold stands, one that no event reaches.
fn quiet_until(s: &Session) -> Seconds
    requires { Valid s.now }
    ensures { result ≡ quiet_until (view s.now) }
{
    let mut quiet = Seconds(u32::MAX);
    for line in &s.lines[..s.count] {
        quiet = due::until(quiet, s.hold, line.holds);
    }
    quiet
}

// Every event of the buffer in turn; a last one that is cut short is refused like any string that is no event. The room is worked out first:
// where it is not there, nothing is done. Before the second `quiet` no hold is due, and from it on that second is found anew before the session
// is searched for due holds; once these are served it is 0, to be found at the next event.
pub fn feed(session: &mut Session, events: &[u8], out: &mut [i64]) -> Result<usize, NoRoom>
    requires { Valid session.old }
    ensures value { result ≡ fed_answer session.old (length out.old) events.now }
    ensures left { session.new ≡ fed_session session.old (length out.old) events.now }
    ensures out_after { out.new ≡ fed_into session.old out.old events.now }
{
    let needed = rows::needed(events.len(), method::MOST_SHIFTS as usize);
    rows::room(out, needed)?;
    let ids = session.ids();
    let guesses = guessed(&ids);
    let mut quiet = Seconds(0);
    let mut at = 0;
    for (event, bytes) in events.chunks(20).enumerate() {
        let said = events::read(bytes);
        let guess = guesses[verdict::slot(said)];
        match verdict::screen(&ids, guess, session.end, session.clock, said) {
            Err(why) => {
                rows::write(out, at, Row::RefusedEvent(why, event + 1));
                at += 6;
            }
            Ok(taken) => {
                if quiet <= taken.time {
                    quiet = quiet_until(session);
                }
                if quiet <= taken.time {
                    let shifts = session.served(taken.time);
                    at = rows::write_shifts(out, at, &shifts);
                    quiet = Seconds(0);
                }
                if let Some(placed) = taken.change {
                    let line = shifts::quoted_line(
                        session.near,
                        session.left,
                        placed.quote,
                        session.lines[placed.place],
                    );
                    session.lines[placed.place] = line;
                    quiet = due::until(quiet, session.hold, line.holds);
                }
                session.clock = taken.time;
            }
        }
    }
    Ok(at)
}
