// A buffer of events handed to a session's `event` piece by piece: the way of a host that gets its events one at a time. Its promise is
// that of `feeding::feed`, word for word, so that the two are one.

#![tactic(auto)]

ghost use Rattle.std.specs.Prelude.{◌≡◌, length};
ghost use Rattle.corridor.specs.View.{Valid};
ghost use Rattle.feeding.specs.Feeding.{fed_answer, fed_session, fed_into};

use corridor::Session;
use method::Row;
use rows::NoRoom;

// Each piece goes to the session that the one before it left; a last one that is cut short goes as it is. The room is worked out first:
// where it is not there, nothing is done. A loop of its own beside `feeding`'s, since it must go by `event` alone: that one, for its speed,
// keeps a second and guesses from event to event.
pub fn feed(session: &mut Session, events: &[u8], out: &mut [i64]) -> Result<usize, NoRoom>
    requires { Valid session.old }
    ensures value { result ≡ fed_answer session.old (length out.old) events.now }
    ensures left { session.new ≡ fed_session session.old (length out.old) events.now }
    ensures out_after { out.new ≡ fed_into session.old out.old events.now }
{
    let needed = rows::needed(events.len(), method::MOST_SHIFTS as usize);
    rows::room(out, needed)?;
    let mut at = 0;
    for (event, bytes) in events.chunks(20).enumerate() {
        match session.event(bytes) {
            Ok(shifts) => at = rows::write_shifts(out, at, &shifts),
            Err(why) => {
                rows::write(out, at, Row::RefusedEvent(why, event + 1));
                at += 6;
            }
        }
    }
    Ok(at)
}
