// One event: refused, or the due holds served and then the tick or the quote applied.

ghost use Rattle.std.specs.Prelude.{◌≡◌};
ghost use Rattle.method.specs.words.Types.{session_ids};
ghost use Rattle.method.specs.computed.Event.{read};
ghost use Rattle.method.specs.computed.Search.{answer};
ghost use Rattle.corridor.specs.View.{view, Valid};
ghost use Rattle.corridor.specs.Applied.{applied_to, Applies};
ghost use Rattle.corridor.specs.Reply.{shifts_told, left_of};

use crate::{Session, Shifts};
use arrayvec::ArrayVec;
use method::EventReason;
use verdict::Taken;

impl Session {
    // The ids of the lines in their order, which is all that the screen asks of a session. By `push`: an `ArrayVec` has no `collect`.
    pub fn ids(&self) -> ArrayVec<u32, 32>
        requires { Valid self.now }
        ensures { result.items ≡ session_ids (view self.now) }
    {
        let mut got = ArrayVec::new();
        for line in &self.lines[..self.count] {
            got.push(line.terms.id);
        }
        got
    }

    // A quote is put on its line, a tick changes none, and the clock is set.
    fn applied(&mut self, v: Taken)
        requires { Applies self.old v.change }
        ensures { self.new ≡ applied_to self.old v }
    {
        self.clock = v.time;
        if let Some(p) = v.change {
            self.lines[p.place] = shifts::quoted_line(
                self.near,
                self.left,
                p.quote,
                self.lines[p.place],
            );
        }
    }

    // Holds that are due by an event's time are served before it is applied, so a quote meets the lines as the shifts leave them. A refused
    // event leaves the session as it was.
    pub fn event(&mut self, bytes: &[u8]) -> Result<Shifts, EventReason>
        requires { Valid self.old }
        ensures answer { result ≡ shifts_told (answer (view self.old) (read bytes.now)) }
        ensures left { self.new ≡ left_of self.old (read bytes.now) (answer (view self.old) (read bytes.now)) }
    {
        let ids = self.ids();
        let taken = verdict::screen(&ids, 0, self.end, self.clock, events::read(bytes))?;
        let shifts = self.served(taken.time);
        self.applied(taken);
        Ok(shifts)
    }
}
