// What the records of a morning table must keep to: the tests behind refusals 1, 3, 4 and 5.

#![tactic(auto)]

ghost use Rattle.std.specs.Prelude.{◌≡◌, ◌&&◌, ◌||◌, ◌≤◌, leb, pos, length};
ghost use Rattle.std.specs.Int.Signed.{le_z};
ghost use Rattle.numbers.specs.Tests.{in_range, in_span};
ghost use Rattle.method.specs.words.Layout.{table_length};
ghost use Rattle.method.specs.words.Ranges.{most_keys, whole, largest_price, permits_negative};
ghost use Rattle.method.specs.computed.Opening.{field_good, fields_answer};
ghost use Rattle.method.specs.computed.Table.{bad_key, header_good, laid_out, key_good};

use method::{Contract, Field, Header, Key};
use numbers::{Millionths, Steps};
use std::ops::RangeBounds;

// ---- the header

// A count, a time or a share out of range (refusal 3).
#[tactic(auto, unfolding(method::specs::computed::Table::header_good))]
pub fn header_good(h: Header) -> bool
    ensures { result ≡ header_good h }
{
    one_to(method::MOST_CONTRACTS, h.contracts)
        && one_to(method::MOST_KEYS, h.keys)
        && one_to(method::LONGEST_SESSION, h.end.0)
        && one_to(method::LONGEST_HOLD, h.hold.0)
        && h.most <= method::MOST_SHIFTS
        && one_to(method::LARGEST_NEAR_SHARE, h.near.0)
        && one_to(method::WHOLE, h.shift.0)
}

// Most ranges begin at 1. The ends are plain numbers, as the method has them, so that of a unit its number is held against them, here and below.
fn one_to(most: u32, n: u32) -> bool
    ensures { result ≡ in_range 1 most n }
{
    (1..=most).contains(&n)
}

// Where the table ends as the counts say. The sums are of 64 bits, and fit whatever the counts are.
pub fn table_length(h: Header) -> usize
    ensures { result ≡ table_length h }
{
    40 + 8 * (h.keys as usize) + 40 * (h.contracts as usize)
}

// Offsets and length as the counts say (the rest of refusal 1).
#[tactic(auto, unfolding(method::specs::computed::Table::laid_out))]
pub fn laid_out(h: Header, size: usize) -> bool
    ensures { result ≡ laid_out h size }
{
    h.keysat == 40
        && (h.contractsat as usize) == 40 + 8 * (h.keys as usize)
        && size == table_length(h)
}

// ---- the keys

// A key in its range, and after the one before it (refusal 4).
#[tactic(auto, unfolding(method::specs::computed::Table::key_good))]
fn key_good(before: u32, k: Key) -> bool
    ensures { result ≡ key_good before k }
{
    one_to(method::MOST_DAYS, k.days) && before < k.days && k.rate.0 <= method::LARGEST_RATE
}

// The line of the first bad key, from 1. A loop and no `position`, since a key is judged by the one before it.
#[tactic(auto, unfolding(method::specs::computed::Table::bad_key))]
pub fn first_bad_key(keys: &[Key]) -> Option<u32>
    requires { length keys.now ≤ most_keys }
    ensures { result ≡ bad_key 1 0 keys.now }
{
    let mut last = 0;
    for (i, key) in keys.iter().enumerate() {
        if !key_good(last, *key) {
            return Some(i as u32 + 1);
        }
        last = key.days;
    }
    None
}

// ---- a contract

fn in_price_range(z: Steps) -> bool
    ensures { result ≡ in_span largest_price z.0 }
{
    (method::LOWEST_PRICE..=method::LARGEST_PRICE).contains(&z.0)
}

// In its range, and at least 1 where negative prices are not permitted.
fn price_good(flags: u32, price: Steps) -> bool
    ensures { result ≡ (in_span largest_price price.0 && (permits_negative flags || le_z (pos 1) price.0)) }
{
    in_price_range(price) && (wire::bit(0, flags) || 1 <= price.0)
}

// In its range, and not below the rate before it.
fn rate_good(before: Millionths, rate: Millionths) -> bool
    ensures { result ≡ (in_range 1 whole rate.0 && leb before.0 rate.0) }
{
    one_to(method::WHOLE, rate.0) && before <= rate
}

#[tactic(auto, unfolding(method::specs::computed::Opening::field_good))]
fn field_good(f: Field, c: Contract) -> bool
    ensures { result ≡ field_good f c }
{
    match f {
        Field::Price => price_good(c.flags, c.price),
        Field::Spot => in_price_range(c.spot),
        Field::Least => (1..=method::LARGEST_PRICE).contains(&c.least.0),
        Field::Rate1 => one_to(method::WHOLE, c.rate1.0),
        Field::Rate2 => rate_good(c.rate1, c.rate2),
        Field::Rate3 => rate_good(c.rate2, c.rate3),
        Field::Width => c.width.0 <= method::WHOLE,
        Field::Days => c.days <= method::MOST_DAYS,
        Field::Flags => wire::reserved_zero(c.flags),
    }
}

// In the order of their places.
const FIELDS: [Field; 9] = [
    Field::Price,
    Field::Spot,
    Field::Least,
    Field::Rate1,
    Field::Rate2,
    Field::Rate3,
    Field::Width,
    Field::Days,
    Field::Flags,
];

// The fields from first to last, up to one that is not in its range (refusal 5). A loop, which reads as the method does:
// by `find` the answer would be turned from an option first.
#[tactic(auto, unfolding(method::specs::computed::Opening::first_bad))]
pub fn fields(c: Contract) -> Result<(), Field>
    ensures { result ≡ fields_answer c }
{
    for field in FIELDS {
        if !field_good(field, c) {
            return Err(field);
        }
    }
    Ok(())
}
