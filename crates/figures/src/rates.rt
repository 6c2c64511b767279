// The rate at the days left, exponents and factors.

ghost use Rattle.std.specs.Prelude.{◌≤◌};
ghost use Rattle.method.specs.words.Growth.{most_exponent};
ghost use Rattle.method.specs.words.Ranges.{most_days};

use method::Key;
use numbers::{Billionths, Millionths};
use std::io;

const KEYS: [Key; 2] = [
    Key {
        days: 30,
        rate: Millionths(100000),
    },
    Key {
        days: 90,
        rate: Millionths(70001),
    },
];

#[tactic(auto, unfolding(method::specs::words::Ranges::KeysIn))]
fn rate(out: &impl Print, days: u32) -> io::Result<()>
    requires { days ≤ most_days }
{
    println!(out; "  days {days}: {}", growth::rate_at(&KEYS, days).0)
}

fn rates(out: &impl Print) -> io::Result<()> {
    println!(out; "Keys (30; 100,000), (90; 70,001)")?;
    rate(out, 31)?;
    rate(out, 30)?;
    rate(out, 10)?;
    rate(out, 91)
}

fn exponents(out: &impl Print) -> io::Result<()> {
    println!(out; "Exponent")?;
    println!(out;
        "  rate 92,500, 45 days: {}",
        growth::exponent(Millionths(92500), 45).0
    )?;
    println!(out;
        "  rate 100,000, 365 days: {}",
        growth::exponent(Millionths(100000), 365).0
    )
}

// Both factors of an exponent.
fn both(out: &impl Print, name: &str, y: Billionths) -> io::Result<()>
    requires { y.0 ≤ most_exponent }
{
    let f = growth::factors(y);
    println!(out; "  y {name}, up: {}", f.up.0)?;
    println!(out; "  y {name}, down: {}", f.down.0)
}

fn factors(out: &impl Print) -> io::Result<()> {
    println!(out; "Factors")?;
    both(out, "100,000,000", Billionths(100000000))?;
    both(out, "0", Billionths(0))?;
    both(out, "1", Billionths(1))?;
    both(out, "11,404,109", Billionths(11404109))
}

pub(crate) fn say(out: &impl Print) -> io::Result<()> {
    rates(out)?;
    exponents(out)?;
    factors(out)
}
