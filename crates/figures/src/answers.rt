// The answers to the questions as lines of text. Numbers are printed bare, without their unit, so no unit has a `Display`.

use method::{EventReason, HoldTimes, Limits, Place, Report};
use std::io;

fn word(place: Place) -> &'static str {
    match place {
        Place::Below => "below",
        Place::Inside => "inside",
        Place::Above => "above",
    }
}

pub(crate) fn place(
    out: &impl Print,
    price: &str,
    answer: Result<Place, EventReason>,
) -> io::Result<()> {
    match answer {
        Ok(place) => println!(out; "  {price}: {}", word(place)),
        Err(why) => println!(out; "  {price}: {}", rows::event_number(why)),
    }
}

fn standing_limits(out: &impl Print, k: Limits) -> io::Result<()> {
    println!(out; "  limits: {} {}", k.upper.0, k.lower.0)?;
    if k.frozen {
        println!(out; "  frozen")?;
    }
    Ok(())
}

pub(crate) fn limits(out: &impl Print, answer: Result<Limits, EventReason>) -> io::Result<()> {
    match answer {
        Ok(k) => standing_limits(out, k),
        Err(why) => println!(out; "  limits of an unknown id: {}", rows::event_number(why)),
    }
}

// A hold stands there only where there is one.
fn hold(out: &impl Print, side: &str, times: Option<HoldTimes>) -> io::Result<()> {
    match times {
        None => Ok(()),
        Some(t) => println!(out; "  {side} hold, start and due: {} {}", t.start.0, t.due.0),
    }
}

fn standing(out: &impl Print, r: Report) -> io::Result<()> {
    standing_limits(out, r.limits)?;
    println!(out;
        "  interest bounds, centre: {} {} {}",
        r.interest.upper.0, r.interest.lower.0, r.centre.0
    )?;
    println!(out;
        "  market bounds of levels 1, 2, 3: {} {} {} {} {} {}",
        r.level1.upper.0,
        r.level1.lower.0,
        r.level2.upper.0,
        r.level2.lower.0,
        r.level3.upper.0,
        r.level3.lower.0
    )?;
    hold(out, "up", r.up)?;
    hold(out, "down", r.down)?;
    println!(out; "  shifts left, clock: {} {}", r.left, r.clock.0)
}

pub(crate) fn report(out: &impl Print, answer: Result<Report, EventReason>) -> io::Result<()> {
    match answer {
        Ok(r) => standing(out, r),
        Err(why) => println!(out; "  report of an unknown id: {}", rows::event_number(why)),
    }
}
