// Pressure on each side, and what it does to holds: of whatever has limits, a book and holds, and so of a line.

#![tactic(auto)]

ghost use Rattle.std.specs.Prelude.{◌≡◌, ◌-ℤ◌};
ghost use Rattle.method.specs.words.Pressure.{near_by, close, price, under_pressure, presses};
ghost use Rattle.method.specs.computed.Judge.{judged, judge, judge_line};
ghost use Rattle.pressure.specs.Asks.{Apart, Tested, Judgeable, JudgeableLine};

use method::{Book, Hold, Holds, Limits, Line, Price, Side, Watch};
use numbers::{Millionths, Seconds, Steps};

// Whether the distance is under the near share of the corridor's width. Both sides are multiplied out, so that nothing is rounded.
fn near_by(near: Millionths, k: Limits, from: Steps, to: Steps) -> bool
    requires { Apart near.0 k from.0 to.0 }
    ensures { result ≡ near_by near k (from.0 -ℤ to.0) }
{
    let distance = from.0 - to.0;
    let width = k.upper.0 - k.lower.0;
    distance * i64::from(method::WHOLE) < i64::from(near.0) * width
}

// A price beyond its limit has a negative distance, and is close too.
#[tactic(auto, unfolding(method::specs::words::Pressure::close))]
fn close(side: Side, near: Millionths, k: Limits, p: Price) -> bool
    requires { Tested near k p }
    ensures { result ≡ close side near k p }
{
    let Some(z) = p else {
        return false;
    };
    match side {
        Side::Up => near_by(near, k, k.upper, z),
        Side::Down => !k.frozen && near_by(near, k, z, k.lower),
    }
}

// The price that may press on a side.
fn price(side: Side, b: Book) -> Price
    ensures { result ≡ price side b }
{
    match side {
        Side::Up => b.bid,
        Side::Down => b.ask,
    }
}

// The watch is tested first: a side that is not watched costs no product.
#[tactic(auto, using(crate::proofs::Pressing::price_in))]
fn under_pressure(watched: bool, side: Side, near: Millionths, k: Limits, b: Book) -> bool
    requires { Judgeable near k b }
    ensures { result ≡ under_pressure watched side near k b }
{
    watched && close(side, near, k, price(side, b))
}

// One side, judged at the second `now` (METHOD 14.2): a hold that stands keeps its start as long as there is pressure.
#[tactic(auto, unfolding(method::specs::computed::Judge::judged))]
fn judged(now: Seconds, pressed: bool, h: Hold) -> Hold
    ensures { result ≡ judged now pressed h }
{
    if pressed { h.or(Some(now)) } else { None }
}

// Both holds, over all that they hang on. Where no shift is left no hold exists, and no price is looked at. Share, shifts left and second come from
// different places (of a shift the shifts after it, of a quote its own time), and ranges from the session, so that no type binds them.
#[tactic(auto, unfolding(method::specs::computed::Judge::judge, method::specs::computed::Judge::judged))]
pub fn judge(
    w: Watch,
    near: Millionths,
    left: u32,
    now: Seconds,
    k: Limits,
    b: Book,
    h: Holds,
) -> Holds
    requires { Judgeable near k b }
    ensures { result ≡ judge w near left now k b h }
{
    if left == 0 {
        Holds::default()
    } else {
        Holds {
            up: judged(now, under_pressure(w.up, Side::Up, near, k, b), h.up),
            down: judged(now, under_pressure(w.down, Side::Down, near, k, b), h.down),
        }
    }
}

// ---- a line

// What pressure asks of a line is a clause and no type of it: a line comes out of a host's memory too, where any number may stand.

#[tactic(auto, unfolding(method::specs::words::Pressure::presses))]
pub fn presses(side: Side, near: Millionths, l: Line) -> bool
    requires { JudgeableLine near l }
    ensures { result ≡ presses side near l }
{
    under_pressure(wire::bit(1, l.terms.flags), side, near, l.limits, l.book)
}

#[tactic(auto, unfolding(method::specs::computed::Judge::judge_line))]
pub fn judge_line(near: Millionths, left: u32, now: Seconds, l: Line) -> Line
    requires { JudgeableLine near l }
    ensures { result ≡ judge_line near left now l }
{
    let watched = wire::bit(1, l.terms.flags);
    let w = Watch {
        up: watched,
        down: watched,
    };
    Line {
        holds: judge(w, near, left, now, l.limits, l.book, l.holds),
        ..l
    }
}
