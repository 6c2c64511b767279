// What is told of one line: the place of an order price, all that stands on it, and its closing row.

#![tactic(auto)]

ghost use Rattle.std.specs.Prelude.{◌≡◌, ◌≤◌};
ghost use Rattle.numbers.specs.Ranges.{Within};
ghost use Rattle.method.specs.words.Ranges.{longest_hold};
ghost use Rattle.method.specs.told.Questions.{placed};
ghost use Rattle.method.specs.told.Report.{market_bounds, interest_bounds, hold_report, line_report};
ghost use Rattle.method.specs.told.Rows.{closing_row};
ghost use Rattle.method.specs.computed.Rooms.{largest_reach, HoldIn, Room};
ghost use Rattle.bounds.specs.Asks.{Drawn};

use method::{BothBounds, Closing, Hold, HoldTimes, Limits, Line, Place, Report, Row, Side};
use numbers::{Seconds, Steps};

// Both limits count as inside.
#[tactic(auto, unfolding(method::specs::told::Questions::placed))]
pub fn placed(k: Limits, price: Steps) -> Place
    ensures { result ≡ placed k price }
{
    if price < k.lower {
        Place::Below
    } else if k.upper < price {
        Place::Above
    } else {
        Place::Inside
    }
}

#[tactic(auto, unfolding(method::specs::told::Report::market_bounds))]
fn market_bounds(centre: Steps, half: Steps) -> BothBounds
    requires { Within largest_reach centre.0 × Within largest_reach half.0 }
    ensures { result ≡ market_bounds centre half }
{
    BothBounds {
        upper: bounds::market_bound(Side::Up, centre, half),
        lower: bounds::market_bound(Side::Down, centre, half),
    }
}

#[tactic(auto, unfolding(method::specs::told::Report::interest_bounds))]
fn interest_bounds(l: Line) -> BothBounds
    requires { Drawn l.terms.factors l.market }
    ensures { result ≡ interest_bounds l }
{
    BothBounds {
        upper: bounds::bound(Side::Up, l.terms.factors, l.market),
        lower: bounds::bound(Side::Down, l.terms.factors, l.market),
    }
}

#[tactic(auto, unfolding(method::specs::told::Report::hold_report, method::specs::computed::Rooms::HoldIn))]
fn hold_report(wait: Seconds, h: Hold) -> Option<HoldTimes>
    requires { (wait.0 ≤ longest_hold) × HoldIn h }
    ensures { result ≡ hold_report wait h }
{
    h.map(|start| HoldTimes {
        start,
        due: Seconds(start.0 + wait.0),
    })
}

// All that a gate or an operator asks of a line, with the session's shifts left and its clock. Both and the wait come one by one, as the method's
// `line_report` takes them: a session may lie in a host's memory, and is not read whole for them.
#[tactic(auto, using(crate::proofs::Rooms::rooms), unfolding(method::specs::told::Report::line_report))]
pub fn line_report(wait: Seconds, left: u32, clock: Seconds, l: Line) -> Report
    requires { (wait.0 ≤ longest_hold) × Room left l }
    ensures { result ≡ line_report wait left clock l }
{
    Report {
        limits: l.limits,
        interest: interest_bounds(l),
        centre: l.market.centre,
        level1: market_bounds(l.market.centre, l.market.half1),
        level2: market_bounds(l.market.centre, l.market.half2),
        level3: market_bounds(l.market.centre, l.market.half3),
        up: hold_report(wait, l.holds.up),
        down: hold_report(wait, l.holds.down),
        book: l.book,
        left,
        clock,
    }
}

// What stands on the line at the end.
#[tactic(auto, unfolding(method::specs::told::Rows::closing_row, method::specs::told::Report::interest_bounds))]
pub fn closing_row(l: Line) -> Row
    requires { Drawn l.terms.factors l.market }
    ensures { result ≡ closing_row l }
{
    let interest = interest_bounds(l);
    Row::Closed(Closing {
        id: l.terms.id,
        lower: l.limits.lower,
        upper: l.limits.upper,
        lowerbound: interest.lower,
        upperbound: interest.upper,
    })
}
