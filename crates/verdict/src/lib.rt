// Whether an event is taken, and what it then changes: from the ids, the end and the clock, and not from a session, since one may lie in a host's
// memory. That no id stands twice is a clause for the same reason: any ids may stand there.

#![tactic(auto)]

ghost use Rattle.std.specs.Prelude.{◌≡◌};
ghost use Rattle.method.specs.computed.Event.{in_session, not_crossed, quote_answer};
ghost use Rattle.method.specs.computed.Sound.{Distinct};
ghost use Rattle.verdict.specs.Decided.{slot_of, place_of, found, verdict_of, decided};

use method::{Event, EventReason, Price, Quote};
use numbers::Seconds;

// A quote, and the place of its line in the table, from 0.
#[derive(Clone, Copy)]
pub struct PlacedQuote {
    pub place: usize,
    pub quote: Quote,
}

// What an event does that is taken: the clock goes to its time, and a quote changes its line.
#[derive(Clone, Copy)]
pub struct Taken {
    pub time: Seconds,
    pub change: Option<PlacedQuote>,
}

// A bid above the ask crosses; where one of them is absent nothing does.
#[tactic(auto, unfolding(method::specs::computed::Event::not_crossed))]
fn not_crossed(bid: Price, ask: Price) -> bool
    ensures { result ≡ not_crossed bid ask }
{
    match (bid, ask) {
        (Some(b), Some(a)) => b <= a,
        _ => true,
    }
}

// A slot for an event's id, so that a caller can keep a guess at the place of each id.
pub fn slot(said: Result<Event, EventReason>) -> usize
    ensures { result ≡ slot_of said }
{
    match said {
        Ok(Event::Quoted(q)) => (q.id % 256) as usize,
        _ => 0,
    }
}

// The place of an id. A guess that is right spares the search, and one that is wrong costs nothing but time.
#[tactic(auto, using(crate::proofs::Finding::guess_found))]
fn place_of(ids: &[u32], guess: u8, id: u32) -> Option<usize>
    requires { Distinct ids.now }
    ensures { result ≡ found id ids.now }
{
    let likely = usize::from(guess);
    if likely < ids.len() && ids[likely] == id {
        Some(likely)
    } else {
        ids.iter().position(|&other| other == id)
    }
}

// Refusals 10 and 11.
#[tactic(auto, unfolding(method::specs::computed::Event::in_session))]
fn in_session(end: Seconds, clock: Seconds, t: Seconds) -> Result<(), EventReason>
    ensures { result ≡ in_session end clock t (Ok tt) }
{
    if end < t {
        Err(EventReason::AfterEnd)
    } else if t < clock {
        Err(EventReason::BeforeClock)
    } else {
        Ok(())
    }
}

// Refusals 13 and 14, or the quote with its place.
#[tactic(auto, using(crate::proofs::Finding::found_none, crate::proofs::Finding::found_some), unfolding(method::specs::computed::Event::quote_answer))]
fn placed(ids: &[u32], guess: u8, quote: Quote) -> Result<PlacedQuote, EventReason>
    requires { Distinct ids.now }
    ensures { result ≡ verdict_of (quote_answer ids.now quote) (record { place = place_of quote.id ids.now; quote = quote }) }
{
    let place = place_of(ids, guess, quote.id).ok_or(EventReason::UnknownId)?;
    if not_crossed(quote.bid, quote.ask) {
        Ok(PlacedQuote { place, quote })
    } else {
        Err(EventReason::Crossed)
    }
}

// What becomes of an event in a session of these ids, this end and this clock; with a guess at the place of a quote's line. It is made part
// of its callers, since what it answers is large, and handing it back costs each event.
#[inline(always)]
#[tactic(auto, unfolding(method::specs::computed::Event::screened, method::specs::computed::Event::in_session))]
pub fn screen(
    ids: &[u32],
    guess: u8,
    end: Seconds,
    clock: Seconds,
    said: Result<Event, EventReason>,
) -> Result<Taken, EventReason>
    requires { Distinct ids.now }
    ensures { result ≡ decided ids.now end clock said }
{
    match said? {
        Event::Tick(time) => {
            in_session(end, clock, time)?;
            Ok(Taken { time, change: None })
        }
        Event::Quoted(quote) => {
            in_session(end, clock, quote.time)?;
            let change = Some(placed(ids, guess, quote)?);
            Ok(Taken {
                time: quote.time,
                change,
            })
        }
    }
}
