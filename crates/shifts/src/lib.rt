// What a shift and a quote do to one line: its numbers, its book and its holds.

#![tactic(auto)]

ghost use Rattle.std.specs.Prelude.{◌≡◌, ◌+ℤ◌, ◌-ℤ◌};
ghost use Rattle.numbers.specs.Ranges.{Within};
ghost use Rattle.method.specs.computed.Shift.{toward, moved, redrawn, ended, moved_line, shift_line};
ghost use Rattle.method.specs.computed.Event.{with_book, quoted_line};
ghost use Rattle.method.specs.computed.Rooms.{largest_half_move, reach};
ghost use Rattle.pressure.specs.Asks.{JudgeableLine};
ghost use Rattle.shifts.specs.Asks.{Movable, Carried, Redrawable, Shiftable, Shifts};

use bounds::limits;
use method::{Book, Holds, Limits, Line, Market, Quote, Side, Terms};
use numbers::{Millionths, Seconds, Steps};

// z moved by a half-move.
#[tactic(auto, using(crate::proofs::Moving::moves))]
fn toward(side: Side, by: Steps, z: Steps) -> Steps
    requires { Within largest_half_move by.0 × Within (reach 1) z.0 }
    ensures { result ≡ toward side by z }
{
    bounds::market_bound(side, z, by)
}

// The centre goes toward the side; the half-widths grow on either.
#[tactic(auto, unfolding(method::specs::computed::Shift::moved))]
fn moved(side: Side, by: Steps, m: Market) -> Market
    requires { Movable by.0 m }
    ensures { result ≡ moved side by m }
{
    Market {
        centre: toward(side, by, m.centre),
        half1: toward(Side::Up, by, m.half1),
        half2: toward(Side::Up, by, m.half2),
        half3: toward(Side::Up, by, m.half3),
    }
}

// A limit that goes with its bound.
#[tactic(auto, using(crate::proofs::Moving::carries, crate::proofs::Moving::carried_down))]
fn carried(z: Steps, from: Steps, to: Steps) -> Steps
    requires { Carried z.0 from.0 to.0 }
    ensures up { result.0 ≡ z.0 +ℤ (to.0 -ℤ from.0) }
    ensures down { result.0 ≡ z.0 -ℤ (from.0 -ℤ to.0) }
{
    Steps(z.0 + (to.0 - from.0))
}

// The limits as the market goes from m to n. The shifted side's limit moves by its bound's growth, not by the half-move.
#[tactic(auto, unfolding(method::specs::computed::Shift::redrawn))]
fn redrawn(side: Side, t: Terms, m: Market, n: Market, k: Limits) -> Limits
    requires { Redrawable t m n k }
    ensures { result ≡ redrawn side t m n k }
{
    let from = bounds::bound(side, t.factors, m);
    let to = bounds::bound(side, t.factors, n);
    match side {
        Side::Up => Limits {
            upper: carried(k.upper, from, to),
            ..k
        },
        Side::Down => limits::floored(
            wire::bit(0, t.flags),
            Limits {
                lower: carried(k.lower, from, to),
                ..k
            },
        ),
    }
}

// A side's hold ends with its shift, the other one goes on.
fn ended(side: Side, h: Holds) -> Holds
    ensures { result ≡ ended side h }
{
    match side {
        Side::Up => Holds { up: None, ..h },
        Side::Down => Holds { down: None, ..h },
    }
}

// A line shifted, before its pressure is judged anew.
#[tactic(auto, unfolding(method::specs::computed::Shift::moved_line))]
fn moved_line(side: Side, l: Line) -> Line
    requires { Shiftable l }
    ensures { result ≡ moved_line side l }
{
    let market = moved(side, l.terms.halfmove, l.market);
    Line {
        market,
        limits: redrawn(side, l.terms, l.market, market, l.limits),
        holds: ended(side, l.holds),
        ..l
    }
}

// A line after a shift that leaves `left`. Share, shifts left and second come one by one, as the method's `shift_line` takes them: a session may lie in
// a host's memory, and is not read whole for them.
#[tactic(auto, unfolding(method::specs::computed::Shift::shift_line))]
pub fn shift_line(near: Millionths, left: u32, side: Side, now: Seconds, l: Line) -> Line
    requires { Shifts near left l }
    ensures { result ≡ shift_line near left side now l }
{
    pressure::judge_line(near, left, now, moved_line(side, l))
}

// A line after its quote: both standing prices replaced, and its pressure judged anew.
#[tactic(auto, unfolding(method::specs::computed::Event::quoted_line))]
pub fn quoted_line(near: Millionths, left: u32, q: Quote, l: Line) -> Line
    requires { JudgeableLine near (with_book l q.bid q.ask) }
    ensures { result ≡ quoted_line near left q l }
{
    let book = Book {
        bid: q.bid,
        ask: q.ask,
    };
    pressure::judge_line(near, left, q.time, Line { book, ..l })
}
