// The numbers that say it: rows from which a line, or a head, is read again. Which of several numbers stand for one thing, no contract says.

ghost use Rattle.std.specs.Prelude.{◌≡◌};
ghost use Rattle.host_row.specs.Packed.{word_in, mark_in, signed_in, price_in, hold_in, terms_in, market_in, limits_in, book_in, holds_in, line_in, head_in};

use crate::{Head, Pair, Row};
use method::{Hold, Line, Price};
use numbers::Steps;

// The plain number is asked for its sign, since that is what is turned.
fn signed_number(z: Steps) -> u64
    ensures { signed_in result ≡ z.0 }
{
    if z.0 < 0 {
        2 * ((-1 - z.0) as u64) + 1
    } else {
        2 * (z.0 as u64)
    }
}

// The two numbers of a price: whether it is there, and what.
#[tactic(auto, unfolding(crate::specs::Packed::price_in, crate::specs::Packed::mark_in))]
fn price_numbers(p: Price) -> (u64, u64)
    ensures { price_in result.0 result.1 ≡ p }
{
    p.map_or((0, 0), |z| (1, signed_number(z)))
}

#[tactic(auto, unfolding(crate::specs::Packed::hold_in, crate::specs::Packed::mark_in))]
fn hold_numbers(h: Hold) -> (u64, u64)
    ensures { hold_in result.0 result.1 ≡ h }
{
    h.map_or((0, 0), |start| (1, u64::from(start.0)))
}

// A line's first row: what its bounds are drawn from.
#[tactic(auto, unfolding(crate::specs::Packed::terms_in, crate::specs::Packed::market_in))]
fn drawn_row(l: &Line) -> Row
    ensures { (terms_in result ≡ l.now.terms) × (market_in result ≡ l.now.market) }
{
    [
        u64::from(l.terms.id),
        u64::from(l.terms.flags),
        signed_number(l.terms.halfmove),
        l.terms.factors.up.0,
        l.terms.factors.down.0,
        signed_number(l.market.centre),
        signed_number(l.market.half1),
        signed_number(l.market.half2),
        signed_number(l.market.half3),
        0,
        0,
        0,
        0,
        0,
        0,
        0,
    ]
}

// Its second row: what pressure is judged on.
#[tactic(auto, unfolding(crate::specs::Packed::mark_in, crate::specs::Packed::limits_in, crate::specs::Packed::book_in, crate::specs::Packed::holds_in))]
pub fn judged_row(l: &Line) -> Row
    ensures { (limits_in result ≡ l.now.limits) × (book_in result ≡ l.now.book) × (holds_in result ≡ l.now.holds) }
{
    let bid = price_numbers(l.book.bid);
    let ask = price_numbers(l.book.ask);
    let up = hold_numbers(l.holds.up);
    let down = hold_numbers(l.holds.down);
    [
        signed_number(l.limits.upper),
        signed_number(l.limits.lower),
        u64::from(l.limits.frozen),
        bid.0,
        bid.1,
        ask.0,
        ask.1,
        up.0,
        up.1,
        down.0,
        down.1,
        0,
        0,
        0,
        0,
        0,
    ]
}

// Two rows that have the line.
#[tactic(auto, unfolding(crate::specs::Packed::line_in))]
pub fn rows(l: &Line) -> Pair
    ensures { line_in result ≡ l.now }
{
    [drawn_row(l), judged_row(l)]
}

// A row that has the head.
#[tactic(auto, unfolding(crate::specs::Packed::head_in))]
pub fn head_row(h: Head) -> Row
    ensures { head_in result ≡ h }
{
    [
        h.count as u64,
        u64::from(h.clock.0),
        u64::from(h.end.0),
        u64::from(h.hold.0),
        u64::from(h.left),
        u64::from(h.near.0),
        0,
        0,
        0,
        0,
        0,
        0,
        0,
        0,
        0,
        0,
    ]
}
