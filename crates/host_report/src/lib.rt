// What stands on one line, in four rows of six numbers for C: each value has its own place, and 0 stands where a hold or a price does not.

#![tactic(auto)]

ghost use Rattle.std.specs.Prelude.{◌≡◌, [], ◌∷◌, pos};
ghost use Rattle.method.specs.told.Refusals.{mark};
ghost use Rattle.host_report.specs.ReportRows.{hold_told, price_told, limit_row, market_row, hold_row, book_row, report_rows};

use method::{Book, BothBounds, HoldTimes, Limits, Price, Report};
use numbers::{Seconds, Steps};

// The library's conversion, under the name that docs/PROMISES.md promises it by.
pub fn mark_number(b: bool) -> i64
    ensures { result ≡ mark b }
{
    i64::from(b)
}

// Whether a hold stands, since when, and when it falls due.
#[tactic(auto, unfolding(crate::specs::ReportRows::hold_told))]
fn hold_numbers(h: Option<HoldTimes>) -> (i64, i64, i64)
    ensures { result.0 ∷ result.1 ∷ result.2 ∷ [] ≡ hold_told h }
{
    h.map_or((0, 0, 0), |t| (1, i64::from(t.start.0), i64::from(t.due.0)))
}

// Whether a price is given, and which.
#[tactic(auto, unfolding(crate::specs::ReportRows::price_told))]
fn price_numbers(p: Price) -> (i64, i64)
    ensures { result.0 ∷ result.1 ∷ [] ≡ price_told p }
{
    p.map_or((0, 0), |z| (1, z.0))
}

// The limits, the interest bounds and the centre.
#[tactic(auto, unfolding(crate::specs::ReportRows::limit_row))]
fn limit_row(limits: Limits, interest: BothBounds, centre: Steps) -> [i64; 6]
    ensures { result ≡ limit_row limits interest centre }
{
    [
        limits.lower.0,
        limits.upper.0,
        mark_number(limits.frozen),
        interest.lower.0,
        interest.upper.0,
        centre.0,
    ]
}

// The market bounds.
#[tactic(auto, unfolding(crate::specs::ReportRows::market_row))]
fn market_row(level1: BothBounds, level2: BothBounds, level3: BothBounds) -> [i64; 6]
    ensures { result ≡ market_row level1 level2 level3 }
{
    [
        level1.lower.0,
        level1.upper.0,
        level2.lower.0,
        level2.upper.0,
        level3.lower.0,
        level3.upper.0,
    ]
}

#[tactic(auto, unfolding(crate::specs::ReportRows::hold_row))]
fn hold_row(up: Option<HoldTimes>, down: Option<HoldTimes>) -> [i64; 6]
    ensures { result ≡ hold_row up down }
{
    let (up_stands, up_start, up_due) = hold_numbers(up);
    let (down_stands, down_start, down_due) = hold_numbers(down);
    [
        up_stands,
        up_start,
        up_due,
        down_stands,
        down_start,
        down_due,
    ]
}

// The bid, the ask, the shifts left and the clock.
#[tactic(auto, unfolding(crate::specs::ReportRows::book_row))]
fn book_row(book: Book, left: u32, clock: Seconds) -> [i64; 6]
    ensures { result ≡ book_row book left clock }
{
    let (bid_given, bid) = price_numbers(book.bid);
    let (ask_given, ask) = price_numbers(book.ask);
    [
        bid_given,
        bid,
        ask_given,
        ask,
        i64::from(left),
        i64::from(clock.0),
    ]
}

#[tactic(auto, unfolding(crate::specs::ReportRows::report_rows))]
pub fn report_rows(r: Report) -> [[i64; 6]; 4]
    ensures { result ≡ report_rows r }
{
    [
        limit_row(r.limits, r.interest, r.centre),
        market_row(r.level1, r.level2, r.level3),
        hold_row(r.up, r.down),
        book_row(r.book, r.left, r.clock),
    ]
}
