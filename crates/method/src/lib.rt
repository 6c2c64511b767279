// The plain data of the method, parted as specs/ is, and the ends of ranges for the code. No function runs here: specs/ says over these types what
// is right, and the crates above compute it.

#![tactic(auto)]

ghost use Rattle.std.specs.Prelude.{[], ◌∷◌, ◌≡◌};
ghost use Rattle.method.specs.words.Ranges.{most_contracts, most_keys, longest_session, longest_hold, most_shifts, largest_near_share, whole, largest_rate, most_days, largest_price, largest_quote};
ghost use Rattle.method.specs.words.Growth.{most_exponent};

use numbers::{Billionths, Millionths, Seconds, Steps};

// ==== of the words

// ---- the morning table

#[derive(Clone, Copy)]
pub struct Header {
    pub edition: u32,
    pub contracts: u32,
    pub contractsat: u32,
    pub keys: u32,
    pub keysat: u32,
    pub end: Seconds,
    pub hold: Seconds,
    pub most: u32,
    pub near: Millionths,
    pub shift: Millionths,
}

#[derive(Clone, Copy, Default)]
pub struct Key {
    pub days: u32,
    pub rate: Millionths,
}

// The ten fields of a contract, in the table's order.
#[derive(Clone, Copy)]
pub struct Contract {
    pub price: Steps,
    pub spot: Steps,
    pub least: Steps,
    pub rate1: Millionths,
    pub rate2: Millionths,
    pub rate3: Millionths,
    pub width: Millionths,
    pub days: u32,
    pub id: u32,
    pub flags: u32,
}

// ---- a line: five records, each changed by one kind of thing
// Factors, holds and watches are records of their own, though each has an up and a down: the definitions name them so, and no function treats
// two of them alike.

#[derive(Clone, Copy, Default, PartialEq, Eq, PartialOrd, Ord)]
pub enum Side {
    #[default]
    Up,
    Down,
}

#[derive(Clone, Copy, Default)]
pub struct Factors {
    pub up: Billionths,
    pub down: Billionths,
}

// Fixed for the session.
#[derive(Clone, Copy, Default)]
pub struct Terms {
    pub id: u32,
    pub flags: u32,
    pub halfmove: Steps,
    pub factors: Factors,
}

// Changed by every shift: the centre, and the half-width of each level.
#[derive(Clone, Copy, Default)]
pub struct Market {
    pub centre: Steps,
    pub half1: Steps,
    pub half2: Steps,
    pub half3: Steps,
}

// Changed by the shifts of one side each.
#[derive(Clone, Copy, Default)]
pub struct Limits {
    pub upper: Steps,
    pub lower: Steps,
    pub frozen: bool,
}

// The price that stands on one side of a book, if there is one.
pub type Price = Option<Steps>;

// Changed by the contract's quotes.
#[derive(Clone, Copy, Default)]
pub struct Book {
    pub bid: Price,
    pub ask: Price,
}

// The second at which pressure started, where there is pressure.
pub type Hold = Option<Seconds>;

// Changed wherever pressure starts or ends.
#[derive(Clone, Copy, Default)]
pub struct Holds {
    pub up: Hold,
    pub down: Hold,
}

#[derive(Clone, Copy, Default)]
pub struct Line {
    pub terms: Terms,
    pub market: Market,
    pub limits: Limits,
    pub book: Book,
    pub holds: Holds,
}

// ---- shifts

#[derive(Clone, Copy, Default)]
pub struct ShiftLine {
    pub second: Seconds,
    pub side: Side,
    pub id: u32,
}

// A hold that falls due: when, on which side, and at which place of the table, from 0.
#[derive(Clone, Copy)]
pub struct Due {
    pub second: Seconds,
    pub side: Side,
    pub place: usize,
}

// ---- refusals

// The fields of a contract that have a range, by their places in its line: all but the id, whose place is 9 and which has a refusal of its own.
#[derive(Clone, Copy, PartialEq, Eq)]
pub enum Field {
    Price = 1,
    Spot = 2,
    Least = 3,
    Rate1 = 4,
    Rate2 = 5,
    Rate3 = 6,
    Width = 7,
    Days = 8,
    Flags = 10,
}

// Refusals 1 to 9, in the order of their numbers; 5 names the field at fault.
#[derive(Clone, Copy, PartialEq, Eq)]
pub enum TableReason {
    Length,
    Edition,
    Header,
    Key,
    Field(Field),
    Id,
    Exponent,
    HalfMove,
    Corridor,
}

// Refusals 10 to 16, by their numbers.
#[derive(Clone, Copy, PartialEq, Eq)]
pub enum EventReason {
    AfterEnd = 10,
    BeforeClock = 11,
    Malformed = 12,
    UnknownId = 13,
    Crossed = 14,
    AbsentNotZero = 15,
    PriceOutOfRange = 16,
}

// ==== of what is told

// Why a table is refused, and at which of its lines, counted from 1; 0 where the header is at fault.
#[derive(Clone, Copy, PartialEq, Eq)]
pub struct TableRefusal {
    pub reason: TableReason,
    pub line: u32,
}

// Where an order price lies.
#[derive(Clone, Copy, PartialEq, Eq)]
pub enum Place {
    Below,
    Inside,
    Above,
}

// An upper and a lower bound of one kind.
#[derive(Clone, Copy)]
pub struct BothBounds {
    pub upper: Steps,
    pub lower: Steps,
}

// When a hold started, and when it falls due.
#[derive(Clone, Copy)]
pub struct HoldTimes {
    pub start: Seconds,
    pub due: Seconds,
}

// What stands on one line: the market bounds by level, the hold of each side, and of the session the shifts left and the clock.
#[derive(Clone, Copy)]
pub struct Report {
    pub limits: Limits,
    pub interest: BothBounds,
    pub centre: Steps,
    pub level1: BothBounds,
    pub level2: BothBounds,
    pub level3: BothBounds,
    pub up: Option<HoldTimes>,
    pub down: Option<HoldTimes>,
    pub book: Book,
    pub left: u32,
    pub clock: Seconds,
}

// ---- what the program prints

#[derive(Clone, Copy)]
pub struct Closing {
    pub id: u32,
    pub lower: Steps,
    pub upper: Steps,
    pub lowerbound: Steps,
    pub upperbound: Steps,
}

// A refused event has its place in the buffer, counted from 1. A refused table has its reason and its line apart, as the definitions name them.
#[derive(Clone, Copy)]
pub enum Row {
    Shift(ShiftLine),
    RefusedEvent(EventReason, usize),
    RefusedTable(TableReason, u32),
    Closed(Closing),
}

// ==== of what is computed

// Which sides are watched: of a contract both, or neither.
#[derive(Clone, Copy)]
pub struct Watch {
    pub up: bool,
    pub down: bool,
}

#[derive(Clone, Copy)]
pub struct Quote {
    pub time: Seconds,
    pub id: u32,
    pub bid: Price,
    pub ask: Price,
}

// What a byte string says where it is an event.
#[derive(Clone, Copy)]
pub enum Event {
    Tick(Seconds),
    Quoted(Quote),
}

// ==== the ends of ranges

// One for each end that specs/words/Ranges names, and `most_exponent`; the code of all crates has them from here. Only the arrays that hold so many
// contracts, keys or shifts have a literal for their size (32, 16, 16): where a count may be more than its array holds, its proofs fail.
pub const MOST_CONTRACTS: u32 = 32;

pub const MOST_KEYS: u32 = 16;

pub const LONGEST_SESSION: u32 = 172_800;

pub const LONGEST_HOLD: u32 = 3_600;

pub const MOST_SHIFTS: u32 = 16;

pub const LARGEST_NEAR_SHARE: u32 = 500_000;

pub const WHOLE: u32 = 1_000_000;

pub const LARGEST_RATE: u32 = 1_000_000;

pub const MOST_DAYS: u32 = 3_650;

pub const LARGEST_PRICE: i64 = 100_000_000;

pub const LARGEST_QUOTE: i64 = 2_000_000_000;

pub const MOST_EXPONENT: u64 = 500_000_000;

// The lower ends of prices.
pub const LOWEST_PRICE: i64 = -LARGEST_PRICE;

pub const LOWEST_QUOTE: i64 = -LARGEST_QUOTE;

const ALL_ENDS: [u64; 12] = [
    MOST_CONTRACTS as u64,
    MOST_KEYS as u64,
    LONGEST_SESSION as u64,
    LONGEST_HOLD as u64,
    MOST_SHIFTS as u64,
    LARGEST_NEAR_SHARE as u64,
    WHOLE as u64,
    LARGEST_RATE as u64,
    MOST_DAYS as u64,
    LARGEST_PRICE as u64,
    LARGEST_QUOTE as u64,
    MOST_EXPONENT,
];

// Called by nobody. It is proved only where each constant is the end that the words name.
fn ends() -> [u64; 12]
    ensures { result ≡ most_contracts ∷ most_keys ∷ longest_session ∷ longest_hold ∷ most_shifts ∷ largest_near_share ∷ whole ∷ largest_rate ∷ most_days ∷ largest_price ∷ largest_quote ∷ most_exponent ∷ [] }
{
    ALL_ENDS
}
