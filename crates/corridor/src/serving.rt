// Shifts, and the holds that call for them.

ghost use Rattle.std.specs.Prelude.{◌≡◌, ◌<◌};
ghost use Rattle.method.specs.computed.Shift.{shifted};
ghost use Rattle.method.specs.computed.Search.{next_due, served_by};
ghost use Rattle.corridor.specs.View.{view, put, Ranged, Valid};
ghost use Rattle.corridor.specs.Reply.{served_as};

use crate::{Session, Shifts};
use method::{Due, ShiftLine, Side};
use numbers::Seconds;

impl Session {
    // One shift: every line of the table moves and is judged anew, not only the one that called.
    fn shifted(&mut self, side: Side, now: Seconds)
        requires { Ranged self.old × (0 < self.old.left) }
        ensures { self.new ≡ put self.old (shifted side now (view self.old)) }
    {
        self.left -= 1;
        // Read ahead of the loan of the lines: while it lasts, no proof may read another field of the session.
        let near = self.near;
        let left = self.left;
        for line in &mut self.lines[..self.count] {
            *line = shifts::shift_line(near, left, side, now, *line);
        }
    }

    // The hold that goes first, where it is due at or before t.
    #[tactic(auto, unfolding(method::specs::computed::Search::earliest, method::specs::computed::Search::next_due))]
    fn next_due(&self, t: Seconds) -> Option<Due>
        requires { Ranged self.now }
        ensures { result ≡ next_due t (view self.now) }
    {
        let mut best = None;
        for (place, line) in self.lines[..self.count].iter().enumerate() {
            best = due::passed(self.hold, place, line.holds, best);
        }
        due::in_time(t, self.end, self.left, best)
    }

    // Every hold that is due at or before t is served. A shift ends holds and starts others, so the search starts anew after each.
    pub fn served(&mut self, t: Seconds) -> Shifts
        requires { Valid self.old }
        ensures told { result.items ≡ served_by t (view self.old) }
        ensures left { self.new ≡ served_as self.old (served_by t (view self.old)) }
    {
        let mut made = Shifts::new();
        while let Some(call) = self.next_due(t) {
            made.push(ShiftLine {
                second: call.second,
                side: call.side,
                id: self.lines[call.place].terms.id,
            });
            self.shifted(call.side, call.second);
        }
        made
    }
}
