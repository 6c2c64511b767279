// Whether the numbers in a host's memory are a session as every session is. Any numbers may stand there: what fails a test ends it, and
// only numbers that passed are worked with.

#![tactic(auto)]

ghost use Rattle.std.specs.Prelude.{◌≡◌};
ghost use Rattle.numbers.specs.Decides.{Decides};
ghost use Rattle.method.specs.words.Types.{session_ids};
ghost use Rattle.method.specs.computed.Search.{next_due};
ghost use Rattle.method.specs.computed.Sound.{Distinct};
ghost use Rattle.corridor.specs.View.{view, Valid};
ghost use Rattle.host_memory.specs.Memory.{session_in};
ghost use Rattle.host_intact.specs.Tests.{BesideIn, LinesIn};

use arrayvec::ArrayVec;
use host_memory::Memory;
use host_row::reading;

fn beside(session: &Memory) -> bool
    ensures { Decides result (BesideIn (session_in session.now)) }
{
    host_head::in_range(host_memory::head(session))
}

fn lines(session: &Memory) -> bool
    requires { BesideIn (session_in session.now) }
    ensures { Decides result (LinesIn (session_in session.now)) }
{
    let head = host_memory::head(session);
    host_memory::lines(session).iter().all(|pair| host_line::line(
        head.near,
        head.left,
        head.left,
        reading::line(pair),
    ))
}

// No id twice, and no hold that is due by the clock. The walk is that of a session's `next_due`, over pairs of rows; the ids are gathered on
// the way, so that the memory is gone over once.
#[tactic(auto, unfolding(method::specs::computed::Search::earliest))]
fn together(session: &Memory) -> bool
    requires { BesideIn (session_in session.now) × LinesIn (session_in session.now) }
    ensures { Decides result (Distinct (session_ids (view (session_in session.now)))
        × (next_due (session_in session.now).clock (view (session_in session.now)) ≡ None)) }
{
    let head = host_memory::head(session);
    let mut ids = ArrayVec::<u32, 32>::new();
    let mut best = None;
    for (place, pair) in host_memory::lines(session).iter().enumerate() {
        ids.push(host_memory::id(pair));
        best = due::passed(head.hold, place, host_memory::holds(pair), best);
    }
    host_head::distinct(&ids) && due::in_time(head.clock, head.end, head.left, best).is_none()
}

pub fn sound(session: &Memory) -> bool
    ensures { Decides result (Valid (session_in session.now)) }
{
    beside(session) && lines(session) && together(session)
}
