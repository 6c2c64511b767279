// The ranges of one line, record by record. A bound is worked out only from numbers that were found in range, so that nothing overflows.

ghost use Rattle.std.specs.Prelude.{◌≡◌, ◌≤◌, pos};
ghost use Rattle.numbers.specs.Decides.{Decides};
ghost use Rattle.numbers.specs.Ranges.{Within, Span};
ghost use Rattle.method.specs.words.Ranges.{most_shifts};
ghost use Rattle.method.specs.computed.Rooms.{reach, FactorsIn, TermsIn, Floor, MarketRoom, LimitsRoom, PriceIn, BookIn, HoldIn, HoldsIn, Room};
ghost use Rattle.bounds.specs.Asks.{Drawn};

use method::{Book, Factors, Hold, Holds, Limits, Line, Market, Price, Side, Terms};
use numbers::Steps;

// The bounds that computed/Rooms draws from the words'.
const LARGEST_FACTOR: u64 = 1_650_000_000;

const LEAST_FACTOR: u64 = 606_000_000;

// A factor of 1, in billionths.
const ONE: u64 = 1_000_000_000;

const LARGEST_HALF_MOVE: i64 = method::LARGEST_PRICE / 2;

const EACH_SHIFT: u32 = LARGEST_HALF_MOVE as u32;

const LARGEST_REACH: u32 = method::LARGEST_PRICE as u32 + EACH_SHIFT * method::MOST_SHIFTS;

fn factors(f: Factors) -> bool
    ensures { Decides result (FactorsIn f) }
{
    (ONE..=LARGEST_FACTOR).contains(&f.up.0) && (LEAST_FACTOR..=ONE).contains(&f.down.0)
}

fn terms(t: Terms) -> bool
    ensures { Decides result (TermsIn t) }
{
    t.id != 0
        && t.flags < 4
        && (1..=LARGEST_HALF_MOVE).contains(&t.halfmove.0)
        && factors(t.factors)
}

// How far a centre and a half-width reach while so many shifts are left.
fn reach(left: u32) -> u32
    requires { left ≤ most_shifts }
    ensures { result ≡ reach left }
{
    LARGEST_REACH - EACH_SHIFT * left
}

fn centre(most: u32, z: Steps) -> bool
    ensures { Decides result (Within most z.0) }
{
    let most = i64::from(most);
    (-most..=most).contains(&z.0)
}

fn half(most: u32, z: Steps) -> bool
    ensures { Decides result (Span (pos 1) (pos most) z.0) }
{
    (1..=i64::from(most)).contains(&z.0)
}

fn market(left: u32, m: Market) -> bool
    requires { left ≤ most_shifts }
    ensures { Decides result (MarketRoom left m) }
{
    let most = reach(left);
    centre(most, m.centre) && half(most, m.half1) && half(most, m.half2) && half(most, m.half3)
}

// Where negative prices are not permitted nothing stands below one step, and what is frozen stands there.
fn floor(k: Limits, flags: u32) -> bool
    ensures { Decides result (Floor k flags) }
{
    if wire::bit(0, flags) {
        !k.frozen
    } else if k.frozen {
        k.lower == Steps(1)
    } else {
        Steps(1) <= k.lower
    }
}

// The numbers are compared and not the steps: a range of steps tested so is slower, measured.
fn between(low: Steps, high: Steps, z: Steps) -> bool
    ensures { Decides result (Span low.0 high.0 z.0) }
{
    (low.0..=high.0).contains(&z.0)
}

// Both limits between the interest bounds, and in their order. What bounds are drawn from is in range by the tests before, which no type says.
fn limits(t: Terms, m: Market, k: Limits) -> bool
    requires { Drawn t.factors m }
    ensures { Decides result (LimitsRoom t m k) }
{
    between(bounds::bound(Side::Down, t.factors, m), k.upper, k.lower)
        && between(k.lower, bounds::bound(Side::Up, t.factors, m), k.upper)
        && floor(k, t.flags)
}

// `events` has the same test of the prices that it reads; this crate reads none, and is checked without that one.
#[tactic(auto, unfolding(method::specs::computed::Rooms::PriceIn))]
fn price(p: Price) -> bool
    ensures { Decides result (PriceIn p) }
{
    p.is_none_or(|z| (method::LOWEST_QUOTE..=method::LARGEST_QUOTE).contains(&z.0))
}

fn book(b: Book) -> bool
    ensures { Decides result (BookIn b) }
{
    price(b.bid) && price(b.ask)
}

// The end is a plain number, as the method has it.
#[tactic(auto, unfolding(method::specs::computed::Rooms::HoldIn))]
fn hold(h: Hold) -> bool
    ensures { Decides result (HoldIn h) }
{
    h.is_none_or(|start| start.0 <= method::LONGEST_SESSION)
}

fn holds(h: Holds) -> bool
    ensures { Decides result (HoldsIn h) }
{
    hold(h.up) && hold(h.down)
}

// All five records of a line.
pub fn room(left: u32, l: Line) -> bool
    requires { left ≤ most_shifts }
    ensures { Decides result (Room left l) }
{
    terms(l.terms)
        && market(left, l.market)
        && limits(l.terms, l.market, l.limits)
        && book(l.book)
        && holds(l.holds)
}
