// Questions on one line of a session: its limits, the place of an order price, and all that stands on it. They know only refusal 13, serve
// no hold and know no time.

#![tactic(auto)]

ghost use Rattle.std.specs.Prelude.{◌≡◌, ◌≤◌};
ghost use Rattle.method.specs.words.Ranges.{longest_hold};
ghost use Rattle.method.specs.told.Questions.{limits, place};
ghost use Rattle.method.specs.told.Report.{line_report, report};
ghost use Rattle.method.specs.computed.Rooms.{Room};
ghost use Rattle.corridor.specs.declared.Session.{Session};
ghost use Rattle.corridor.specs.View.{view, Valid};
ghost use Rattle.questions.specs.Asked.{sought};

use corridor::Session;
use method::{EventReason, Limits, Line, Place, Report};
use numbers::Steps;

// A session that is asked, wherever it stands: as a value, or in a host's memory.
pub trait Asked {
    ghost session: { Self → Session };

    // The line that has the id.
    fn sought(&self, id: u32) -> Option<Line>
        requires { Valid (session self.now) }
        ensures { result ≡ sought id (view (session self.now)) };

    // What stands on a line, with the hold seconds, the shifts left and the clock of the session.
    fn told(&self, l: Line) -> Report
        requires { ((session self.now).hold.0 ≤ longest_hold) × Room (session self.now).left l }
        ensures { result ≡ line_report (session self.now).hold (session self.now).left (session self.now).clock l };
}

impl Asked for Session {
    ghost session = { λ s. s };

    fn sought(&self, id: u32) -> Option<Line> {
        self.lines[..self.count]
            .iter()
            .find(|l| l.terms.id == id)
            .copied()
    }

    fn told(&self, l: Line) -> Report {
        line_answers::line_report(self.hold, self.left, self.clock, l)
    }
}

// The limits of a contract.
#[tactic(auto, unfolding(crate::specs::Asked::sought, method::specs::told::Questions::limits))]
pub fn limits<S: Asked>(s: &S, id: u32) -> Result<Limits, EventReason>
    requires { Valid (S.session s.now) }
    ensures { result ≡ limits id (view (S.session s.now)) }
{
    let l = s.sought(id).ok_or(EventReason::UnknownId)?;
    Ok(l.limits)
}

// Where an order price lies.
#[tactic(auto, unfolding(crate::specs::Asked::sought, method::specs::told::Questions::place))]
pub fn place<S: Asked>(s: &S, id: u32, price: Steps) -> Result<Place, EventReason>
    requires { Valid (S.session s.now) }
    ensures { result ≡ place id price (view (S.session s.now)) }
{
    let l = s.sought(id).ok_or(EventReason::UnknownId)?;
    Ok(line_answers::placed(l.limits, price))
}

// All that stands on a contract's line.
#[tactic(auto, unfolding(crate::specs::Asked::sought, method::specs::told::Report::report))]
pub fn report<S: Asked>(s: &S, id: u32) -> Result<Report, EventReason>
    requires { Valid (S.session s.now) }
    ensures { result ≡ report id (view (S.session s.now)) }
{
    let l = s.sought(id).ok_or(EventReason::UnknownId)?;
    Ok(s.told(l))
}
