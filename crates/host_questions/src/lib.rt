// Questions on one line of a session in a host's memory, asked where the session lies: its limits, the place of an order price, and all
// that stands on it.

#![tactic(auto)]

ghost use Rattle.std.specs.Prelude.{◌≡◌};
ghost use Rattle.method.specs.told.Questions.{limits, place};
ghost use Rattle.method.specs.told.Report.{report};
ghost use Rattle.corridor.specs.View.{view, Valid};
ghost use Rattle.host_memory.specs.Memory.{session_in};

use host_memory::Memory;
use host_row::reading;
use method::{EventReason, Limits, Line, Place, Report};
use numbers::Steps;
use questions::Asked;

// A session that is asked where it lies, in memory that a host lends.
#[derive(Clone, Copy)]
struct Lent<'a>(&'a Memory);

impl Asked for Lent<'_> {
    ghost session = { λ lent. session_in lent.0.now };

    fn sought(&self, id: u32) -> Option<Line> {
        host_memory::lines(self.0)
            .iter()
            .map(reading::line)
            .find(|l| l.terms.id == id)
    }

    fn told(&self, l: Line) -> Report {
        let h = host_memory::head(self.0);
        line_answers::line_report(h.hold, h.left, h.clock, l)
    }
}

// The limits of a line.
pub fn limits(session: &Memory, id: u32) -> Result<Limits, EventReason>
    requires { Valid (session_in session.now) }
    ensures { result ≡ limits id (view (session_in session.now)) }
{
    questions::limits(&Lent(session), id)
}

// Where an order price lies.
pub fn place(session: &Memory, id: u32, price: Steps) -> Result<Place, EventReason>
    requires { Valid (session_in session.now) }
    ensures { result ≡ place id price (view (session_in session.now)) }
{
    questions::place(&Lent(session), id, price)
}

// All that stands on a line.
pub fn report(session: &Memory, id: u32) -> Result<Report, EventReason>
    requires { Valid (session_in session.now) }
    ensures { result ≡ report id (view (session_in session.now)) }
{
    questions::report(&Lent(session), id)
}
