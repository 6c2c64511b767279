// What numbers say: a word, a price, a hold; what stands in a row; and the line that two rows have. Any numbers say something.

ghost use Rattle.std.specs.Prelude.{◌≡◌};
ghost use Rattle.method.specs.words.Types.{steps};
ghost use Rattle.host_row.specs.Packed.{word_in, mark_in, signed_in, price_in, hold_in, terms_in, market_in, limits_in, book_in, holds_in, line_in, head_in};

use crate::{Head, Pair, Row};
use method::{Book, Factors, Hold, Holds, Limits, Line, Market, Price, Terms};
use numbers::{Billionths, Millionths, Seconds, Steps};

// The low half. A cast may lose nothing, and the library has no other way to drop bits.
fn word(n: u64) -> u32
    ensures { result ≡ word_in n }
{
    (n % 4_294_967_296) as u32
}

#[tactic(auto, unfolding(crate::specs::Packed::mark_in))]
fn mark(n: u64) -> bool
    ensures { result ≡ mark_in n }
{
    0 < n
}

// 0, -1, 1, -2, 2 and so on, by turns, which the library does not have.
#[tactic(auto, using(crate::proofs::Numbers::even_read, crate::proofs::Numbers::odd_read))]
fn signed(n: u64) -> Steps
    ensures { result ≡ steps (signed_in n) }
{
    let half = (n / 2) as i64;
    if n % 2 == 0 {
        Steps(half)
    } else {
        Steps(-1 - half)
    }
}

// A price and a hold are a number that says whether they are there, and another: a type with an enum does not go to C. Each is one call of the
// library's generic function, so that a generic one of our own would be no plainer; so in writing.
#[tactic(auto, unfolding(crate::specs::Packed::price_in))]
fn price(there: u64, n: u64) -> Price
    ensures { result ≡ price_in there n }
{
    mark(there).then_some(signed(n))
}

#[tactic(auto, unfolding(crate::specs::Packed::hold_in))]
fn hold(there: u64, n: u64) -> Hold
    ensures { result ≡ hold_in there n }
{
    mark(there).then_some(Seconds(word(n)))
}

// ---- what bounds are drawn from, in a line's first row

// The id alone, for a walk over lines that has no use for the rest.
#[tactic(auto, unfolding(crate::specs::Packed::terms_in))]
pub fn id(row: &Row) -> u32
    ensures { result ≡ (terms_in row.now).id }
{
    word(row[0])
}

#[tactic(auto, unfolding(crate::specs::Packed::terms_in))]
fn terms(row: &Row) -> Terms
    ensures { result ≡ terms_in row.now }
{
    Terms {
        id: word(row[0]),
        flags: word(row[1]),
        halfmove: signed(row[2]),
        factors: Factors {
            up: Billionths(row[3]),
            down: Billionths(row[4]),
        },
    }
}

#[tactic(auto, unfolding(crate::specs::Packed::market_in))]
fn market(row: &Row) -> Market
    ensures { result ≡ market_in row.now }
{
    Market {
        centre: signed(row[5]),
        half1: signed(row[6]),
        half2: signed(row[7]),
        half3: signed(row[8]),
    }
}

// ---- what pressure is judged on, in its second row

#[tactic(auto, unfolding(crate::specs::Packed::limits_in))]
fn limits(row: &Row) -> Limits
    ensures { result ≡ limits_in row.now }
{
    Limits {
        upper: signed(row[0]),
        lower: signed(row[1]),
        frozen: mark(row[2]),
    }
}

#[tactic(auto, unfolding(crate::specs::Packed::book_in))]
fn book(row: &Row) -> Book
    ensures { result ≡ book_in row.now }
{
    Book {
        bid: price(row[3], row[4]),
        ask: price(row[5], row[6]),
    }
}

#[tactic(auto, unfolding(crate::specs::Packed::holds_in))]
pub fn holds(row: &Row) -> Holds
    ensures { result ≡ holds_in row.now }
{
    Holds {
        up: hold(row[7], row[8]),
        down: hold(row[9], row[10]),
    }
}

// The line that two rows have.
#[tactic(auto, unfolding(crate::specs::Packed::line_in))]
pub fn line(pair: &Pair) -> Line
    ensures { result ≡ line_in pair.now }
{
    Line {
        terms: terms(&pair[0]),
        market: market(&pair[0]),
        limits: limits(&pair[1]),
        book: book(&pair[1]),
        holds: holds(&pair[1]),
    }
}

// The head that a row has.
#[tactic(auto, unfolding(crate::specs::Packed::head_in))]
pub fn head(row: &Row) -> Head
    ensures { result ≡ head_in row.now }
{
    Head {
        count: row[0] as usize,
        clock: Seconds(word(row[1])),
        end: Seconds(word(row[2])),
        hold: Seconds(word(row[3])),
        left: word(row[4]),
        near: Millionths(word(row[5])),
    }
}
