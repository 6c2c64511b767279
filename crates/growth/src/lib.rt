// Rate at the days left, exponent, and growth factors.

#![tactic(auto)]

ghost use Rattle.std.specs.Prelude.{◌≡◌, ◌+◌, ◌≤◌, ◌<◌, pos, length};
ghost use Rattle.std.specs.List.Sorted.{IsPartitionPoint};
ghost use Rattle.method.specs.words.Ranges.{largest_rate, most_days, KeysIn};
ghost use Rattle.method.specs.words.Growth.{between_keys, rate_at, most_exponent, exponent, series, up_factor, factors_of};
ghost use Rattle.growth.specs.Asks.{Neighbours, Searched};

use method::{Factors, Key};
use numbers::{Billionths, Millionths};

// The rate between two neighbouring keys.
fn between_keys(l: Key, r: Key, days: u32) -> Millionths
    requires { Neighbours l r days }
    ensures { pos result.0 ≡ between_keys l r days }
{
    let rise = i64::from(r.rate.0) - i64::from(l.rate.0);
    let part = i64::from(days - l.days);
    let whole = i64::from(r.days - l.days);
    // A rate between two others, so that `as` loses nothing, and a test of it would never fail.
    Millionths((i64::from(l.rate.0) + numbers::floor(rise * part, whole)) as u32)
}

// The line, from 0, of the first key that is not before the days left, or their number where all are.
fn found_line(keys: &[Key], days: u32) -> usize
    requires { KeysIn 0 keys.now }
    ensures inside { result ≤ length keys.now }
    ensures found { IsPartitionPoint (λ k. k.days < days) (λ k. days ≤ k.days) keys.now result }
{
    keys.partition_point(|k| k.days < days)
}

// The rate at the days left.
pub fn rate_at(keys: &[Key], days: u32) -> Millionths
    requires { Searched keys.now days }
    ensures { result.0 ≡ rate_at keys.now days }
{
    match found_line(keys, days) {
        0 => keys[0].rate,
        line if line == keys.len() => keys[line - 1].rate,
        line => between_keys(keys[line - 1], keys[line], days),
    }
}

#[tactic(auto, unfolding(method::specs::words::Growth::exponent))]
pub fn exponent(rate: Millionths, days: u32) -> Billionths
    requires { (rate.0 ≤ largest_rate) × (days ≤ most_days) }
    ensures { result.0 ≡ exponent rate.0 days }
{
    Billionths(u64::from(rate.0) * u64::from(days) * 1_000 / 365)
}

// What is added to the series above exponent 0, so that a factor is never short of the exact one.
const OUTER_PART: u64 = 20;

// The exponential series to its twelfth power, each term rounded down. That an exponent is capped stays a clause: `exponent` gives any, and
// docs/PROMISES.md promises `factors` of a plain one.
fn series(y: Billionths) -> Billionths
    requires { y.0 ≤ most_exponent }
    ensures { result.0 ≡ series y.0 12 }
{
    let mut term = 1_000_000_000;
    let mut sum = term;
    // From 0, so that before each turn the sum is the series to its k-th power; from 1 what holds in the loop would speak of k - 1.
    for k in 0..12 {
        term = term * y.0 / ((k + 1) * 1_000_000_000);
        sum += term;
    }
    Billionths(sum)
}

// A whole thousandth, and so exponent 0, is read off the desk's sheet; elsewhere the series is worked out, and the outer part added.
#[tactic(auto, using(crate::proofs::Summed::summed))]
fn up_factor(y: Billionths) -> Billionths
    requires { y.0 ≤ most_exponent }
    ensures { result.0 ≡ up_factor y.0 }
{
    if y.0 % growth_sheet::THOUSANDTH == 0 {
        growth_sheet::up_factor((y.0 / growth_sheet::THOUSANDTH) as usize)
    } else {
        Billionths(series(y).0 + OUTER_PART)
    }
}

#[tactic(auto, using(crate::proofs::Summed::up_range), unfolding(method::specs::words::Growth::factors_of, method::specs::words::Growth::down_factor))]
pub fn factors(y: Billionths) -> Factors
    requires { y.0 ≤ most_exponent }
    ensures { result ≡ factors_of y.0 }
{
    let up = up_factor(y);
    Factors {
        up,
        down: Billionths(1_000_000_000_000_000_000 / up.0),
    }
}
