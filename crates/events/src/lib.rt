// Where an event of a buffer ends, and what its byte string says: a tick, a quote, or why it is no event.

#![tactic(auto)]

ghost use Rattle.std.specs.Prelude.{◌≡◌, ◌<◌, Ok, Err};
ghost use Rattle.method.specs.computed.Event.{zero_if_absent, price_of, read_tick, read_quote, read};
ghost use Rattle.method.specs.told.Questions.{demand};
ghost use Rattle.events.specs.Prices.{price_in};
ghost use Rattle.events.specs.Cutting.{cut_at};

use method::{Event, EventReason, Price, Quote};
use numbers::{Seconds, Steps};

// Where the event that begins at `from` ends: after 20 bytes, or with the buffer. A whole buffer is cut by the library's `chunks`, in the same places;
// this is promised (docs/PROMISES.md) to whoever looks for the end of one event.
pub fn cut(from: usize, size: usize) -> usize
    requires { from < size }
    ensures { result ≡ cut_at from size }
{
    if size - from < 20 { size } else { from + 20 }
}

// A price field: its flag says whether a price is there, and a price that is absent is 0.
fn price(present: bool, z: Steps) -> Result<Price, EventReason>
    ensures { result ≡ demand (zero_if_absent present z.0) (Err EventReason.AbsentNotZero) (Ok (price_of present z.0)) }
{
    if present {
        Ok(Some(z))
    } else if z == Steps(0) {
        Ok(None)
    } else {
        Err(EventReason::AbsentNotZero)
    }
}

// A price that is present lies in its range. The numbers are compared and not the steps: a range of steps is slower, measured.
fn in_range(price: Price) -> bool
    ensures { result ≡ price_in price }
{
    price.is_none_or(|z| (method::LOWEST_QUOTE..=method::LARGEST_QUOTE).contains(&z.0))
}

// A tick names no contract and has no price. The fields come one by one here and in `read_quote`, as the method's definitions of these names take them:
// a struct of them would be read once and taken apart at once.
#[tactic(auto, unfolding(method::specs::computed::Event::read_tick))]
fn read_tick(time: Seconds, id: u32, bid: Steps, ask: Steps) -> Result<Event, EventReason>
    ensures { result ≡ read_tick time id bid.0 ask.0 }
{
    if id == 0 && bid == Steps(0) && ask == Steps(0) {
        Ok(Event::Tick(time))
    } else {
        Err(EventReason::Malformed)
    }
}

// A quote has the flags of one, and the prices that they say are there (refusals 12, 15 and 16).
#[tactic(auto, unfolding(method::specs::computed::Event::read_quote))]
fn read_quote(
    time: Seconds,
    id: u32,
    flags: u32,
    bid: Steps,
    ask: Steps,
) -> Result<Event, EventReason>
    ensures { result ≡ read_quote time id flags bid.0 ask.0 }
{
    if !wire::reserved_zero(flags) {
        return Err(EventReason::Malformed);
    }
    let bid = price(wire::bit(0, flags), bid)?;
    let ask = price(wire::bit(1, flags), ask)?;
    if in_range(bid) && in_range(ask) {
        Ok(Event::Quoted(Quote { time, id, bid, ask }))
    } else {
        Err(EventReason::PriceOutOfRange)
    }
}

// Any bytes of any length: a string that is no event is refused.
#[tactic(auto, unfolding(method::specs::computed::Event::read))]
pub fn read(bytes: &[u8]) -> Result<Event, EventReason>
    ensures { result ≡ read bytes.now }
{
    if bytes.len() != 20 {
        return Err(EventReason::Malformed);
    }
    let time = Seconds(wire::word(bytes, 0));
    let id = wire::word(bytes, 4);
    let flags = wire::word(bytes, 8);
    let bid = Steps(wire::signed_word(bytes, 12));
    let ask = Steps(wire::signed_word(bytes, 16));
    if flags == 4 {
        read_tick(time, id, bid, ask)
    } else {
        read_quote(time, id, flags, bid, ask)
    }
}
