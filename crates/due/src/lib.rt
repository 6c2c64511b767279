// When a hold falls due, which of two goes first, and the search for the one that does, one line at a time.

#![tactic(auto)]

ghost use Rattle.std.specs.Prelude.{◌≡◌, ◌≤◌};
ghost use Rattle.method.specs.words.Ranges.{longest_hold};
ghost use Rattle.method.specs.computed.Search.{due_of, ahead, sooner, passed, in_time};
ghost use Rattle.method.specs.computed.Rooms.{HoldIn, HoldsIn};
ghost use Rattle.due.specs.Quiet.{nearer, until};

use method::{Due, Hold, Holds, Side};
use numbers::Seconds;

// When a hold falls due. The sum of two seconds stands at its three uses: a function for it would be longer, with its ranges asked again.
#[tactic(auto, unfolding(method::specs::computed::Search::due_of, method::specs::computed::Rooms::HoldIn))]
fn due_of(side: Side, wait: Seconds, place: usize, h: Hold) -> Option<Due>
    requires { HoldIn h × (wait.0 ≤ longest_hold) }
    ensures { result ≡ due_of side wait place h }
{
    h.map(|start| Due {
        second: Seconds(start.0 + wait.0),
        side,
        place,
    })
}

// Whether x goes before y, which stands at no later place: by its second, and at one second up before down.
#[tactic(auto, unfolding(method::specs::computed::Search::ahead))]
fn ahead(x: Due, y: Due) -> bool
    ensures { result ≡ ahead x y }
{
    (x.second, x.side) < (y.second, y.side)
}

// The best so far, unless d goes before it.
#[tactic(auto, unfolding(method::specs::computed::Search::sooner))]
fn sooner(best: Option<Due>, d: Option<Due>) -> Option<Due>
    ensures { result ≡ sooner best d }
{
    match (best, d) {
        (Some(y), Some(x)) if ahead(x, y) => d,
        _ => best.or(d),
    }
}

// One more line passed. The ranges of holds and of the wait are asked here and not kept by their types: a session lies in a host's memory, where
// any number may stand.
#[tactic(auto, unfolding(method::specs::computed::Search::passed))]
pub fn passed(wait: Seconds, place: usize, h: Holds, best: Option<Due>) -> Option<Due>
    requires { HoldsIn h × (wait.0 ≤ longest_hold) }
    ensures { result ≡ passed wait place h best }
{
    let first = sooner(best, due_of(Side::Up, wait, place, h.up));
    sooner(first, due_of(Side::Down, wait, place, h.down))
}

// The hold, where it is due at or before t and before session end, while shifts are left.
#[tactic(auto, unfolding(method::specs::computed::Search::in_time))]
pub fn in_time(t: Seconds, end: Seconds, left: u32, d: Option<Due>) -> Option<Due>
    ensures { result ≡ in_time t end left d }
{
    d.filter(|x| x.second <= t && x.second < end && left > 0)
}

// The nearer of two seconds: the one before which nothing is due so far, and the one at which the hold falls due.
#[tactic(auto, unfolding(crate::specs::Quiet::nearer, method::specs::computed::Rooms::HoldIn))]
fn nearer(quiet: Seconds, wait: Seconds, h: Hold) -> Seconds
    requires { HoldIn h × (wait.0 ≤ longest_hold) }
    ensures { result ≡ nearer quiet wait h }
{
    h.map_or(quiet, |start| quiet.min(Seconds(start.0 + wait.0)))
}

// The second before which nothing is due, once a line has these holds.
pub fn until(quiet: Seconds, wait: Seconds, h: Holds) -> Seconds
    requires { HoldsIn h × (wait.0 ≤ longest_hold) }
    ensures { result ≡ until quiet wait h }
{
    nearer(nearer(quiet, wait, h.up), wait, h.down)
}
