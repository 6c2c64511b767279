// One contract as it opens: its numbers, its corridor, or its refusal.

#![tactic(auto)]

ghost use Rattle.std.specs.Prelude.{◌≡◌, ◌≤◌, pos, nat_abs};
ghost use Rattle.numbers.specs.Ranges.{Within, Between, Span};
ghost use Rattle.method.specs.words.Ranges.{whole, largest_price, ContractIn};
ghost use Rattle.method.specs.words.Growth.{most_exponent};
ghost use Rattle.method.specs.words.Opening.{normal_price, half_width, market_of, half_move, terms_of, corridor_half, corridor, fresh_line};
ghost use Rattle.method.specs.computed.Opening.{inside_bounds, opened_with};
ghost use Rattle.method.specs.computed.Rooms.{largest_bound};
ghost use Rattle.bounds.specs.Asks.{Drawn};
ghost use Rattle.table_line.specs.Asks.{Spanned};

use bounds::{limits, rounding};
use method::{Book, Contract, Factors, Holds, Limits, Line, Market, Side, TableReason, Terms};
use numbers::{Billionths, Millionths, Steps};

// A constant may not call `i64::from`.
const TWICE_WHOLE: i64 = 2 * method::WHOLE as i64;

// That a contract is in its ranges, or a corridor can be worked out, stays a clause and no type of its own: docs/PROMISES.md promises `market`,
// `terms` and `opened_with` of plain records.

// The larger of |spot| and least price.
#[tactic(auto, unfolding(method::specs::words::Opening::normal_price))]
fn normal_price(c: Contract) -> Steps
    requires { ContractIn c }
    ensures value { result.0 ≡ normal_price c }
    ensures range { Span (pos 1) (pos largest_price) result.0 }
{
    Steps(c.spot.0.abs()).max(c.least)
}

#[tactic(auto, unfolding(method::specs::words::Opening::half_width))]
fn half_width(c: Contract, rate: Millionths) -> Steps
    requires { ContractIn c × Between 1 whole rate.0 }
    ensures { result ≡ half_width c rate }
{
    rounding::rounded(
        Side::Up,
        normal_price(c).0 * i64::from(rate.0),
        i64::from(method::WHOLE),
    )
}

#[tactic(auto, unfolding(method::specs::words::Opening::market_of))]
pub fn market(c: Contract) -> Market
    requires { ContractIn c }
    ensures { result ≡ market_of c }
{
    Market {
        centre: c.price,
        half1: half_width(c, c.rate1),
        half2: half_width(c, c.rate2),
        half3: half_width(c, c.rate3),
    }
}

#[tactic(auto, unfolding(method::specs::words::Opening::half_move))]
fn half_move(shift: Millionths, half1: Steps) -> Steps
    requires { Between 1 whole shift.0 × Span (pos 1) (pos largest_price) half1.0 }
    ensures { result ≡ half_move shift half1 }
{
    rounding::rounded(Side::Down, i64::from(shift.0) * half1.0, TWICE_WHOLE)
}

// What stays for the session. The flags are rebuilt from their two bits.
#[tactic(auto, unfolding(method::specs::words::Opening::terms_of))]
pub fn terms(shift: Millionths, y: Billionths, c: Contract) -> Terms
    requires { ContractIn c × (Between 1 whole shift.0 × (y.0 ≤ most_exponent)) }
    ensures { result ≡ terms_of shift y.0 c }
{
    Terms {
        id: c.id,
        flags: wire::rebuilt(c.flags),
        halfmove: half_move(shift, half_width(c, c.rate1)),
        factors: growth::factors(y),
    }
}

#[tactic(auto, using(bounds::proofs::Drawing::drawn_within), unfolding(method::specs::words::Opening::corridor_half))]
fn corridor_half(width: Millionths, f: Factors, m: Market) -> Steps
    requires { Spanned width f m }
    ensures value { result.0 ≡ corridor_half width f m }
    ensures range { Within largest_bound result.0 }
{
    let upper = bounds::bound(Side::Up, f, m);
    let lower = bounds::bound(Side::Down, f, m);
    rounding::rounded(
        Side::Down,
        i64::from(width.0) * (upper.0 - lower.0),
        TWICE_WHOLE,
    )
}

// The limits P + half and P - half, before they are held against their bounds.
#[tactic(auto, unfolding(method::specs::words::Opening::corridor))]
fn corridor(width: Millionths, f: Factors, m: Market) -> Limits
    requires { Spanned width f m }
    ensures { result ≡ corridor width f m }
{
    let half = corridor_half(width, f, m);
    Limits {
        upper: Steps(m.centre.0 + half.0),
        lower: Steps(m.centre.0 - half.0),
        frozen: false,
    }
}

// Neither limit beyond its interest bound (refusal 9).
#[tactic(auto, unfolding(method::specs::computed::Opening::inside_bounds))]
fn inside_bounds(f: Factors, m: Market, k: Limits) -> bool
    requires { Drawn f m }
    ensures { result ≡ inside_bounds f m k }
{
    k.upper <= bounds::bound(Side::Up, f, m) && bounds::bound(Side::Down, f, m) <= k.lower
}

// A line with an empty book and no hold, its lower limit floored.
#[tactic(auto, unfolding(method::specs::words::Opening::fresh_line))]
fn fresh_line(t: Terms, m: Market, k: Limits) -> Line
    ensures { result ≡ fresh_line t m k }
{
    Line {
        terms: t,
        market: m,
        limits: limits::floored(wire::bit(0, t.flags), k),
        book: Book::default(),
        holds: Holds::default(),
    }
}

// The last two refusals of a contract, 8 and 9, or its line.
#[tactic(auto, unfolding(method::specs::computed::Opening::opened_with))]
pub fn opened_with(width: Millionths, t: Terms, m: Market) -> Result<Line, TableReason>
    requires { Spanned width t.factors m }
    ensures { result ≡ opened_with width t m }
{
    if t.halfmove < Steps(1) {
        return Err(TableReason::HalfMove);
    }
    let k = corridor(width, t.factors, m);
    // The limits before the floor: a lower limit beyond its bound is refused, though the floor would lift it.
    if inside_bounds(t.factors, m, k) {
        Ok(fresh_line(t, m, k))
    } else {
        Err(TableReason::Corridor)
    }
}
