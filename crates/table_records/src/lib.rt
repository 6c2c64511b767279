// The records of a morning table: header, keys and contracts out of its bytes. What they must keep to is tested in `table_ranges`.

#![tactic(auto)]

ghost use Rattle.std.specs.Prelude.{◌≡◌, ◌+◌, ◌*◌, ◌≤◌, length};
ghost use Rattle.method.specs.words.Layout.{header_of, key_at, contract_at, keys_at};
ghost use Rattle.method.specs.words.Ranges.{most_keys};

use arrayvec::ArrayVec;
use method::{Contract, Header, Key};
use numbers::{Millionths, Seconds, Steps};

// ---- the three kinds of record

// Bytes and no array of 40: docs/PROMISES.md promises it of any bytes that are long enough, and an array would ask more of callers.
#[tactic(auto, unfolding(method::specs::words::Layout::header_of))]
pub fn header(bytes: &[u8]) -> Header
    requires { 40 ≤ length bytes.now }
    ensures { result ≡ header_of bytes.now }
{
    Header {
        edition: wire::word(bytes, 0),
        contracts: wire::word(bytes, 4),
        contractsat: wire::word(bytes, 8),
        keys: wire::word(bytes, 12),
        keysat: wire::word(bytes, 16),
        end: Seconds(wire::word(bytes, 20)),
        hold: Seconds(wire::word(bytes, 24)),
        most: wire::word(bytes, 28),
        near: Millionths(wire::word(bytes, 32)),
        shift: Millionths(wire::word(bytes, 36)),
    }
}

#[tactic(auto, unfolding(method::specs::words::Layout::key_at))]
fn key(bytes: &[u8], at: usize) -> Key
    requires { at + 8 ≤ length bytes.now }
    ensures { result ≡ key_at bytes.now at }
{
    Key {
        days: wire::word(bytes, at),
        rate: Millionths(wire::word(bytes, at + 4)),
    }
}

#[tactic(auto, unfolding(method::specs::words::Layout::contract_at))]
pub fn contract(bytes: &[u8], at: usize) -> Contract
    requires { at + 40 ≤ length bytes.now }
    ensures { result ≡ contract_at bytes.now at }
{
    Contract {
        price: Steps(wire::signed_word(bytes, at)),
        spot: Steps(wire::signed_word(bytes, at + 4)),
        least: Steps(i64::from(wire::word(bytes, at + 8))),
        rate1: Millionths(wire::word(bytes, at + 12)),
        rate2: Millionths(wire::word(bytes, at + 16)),
        rate3: Millionths(wire::word(bytes, at + 20)),
        width: Millionths(wire::word(bytes, at + 24)),
        days: wire::word(bytes, at + 28),
        id: wire::word(bytes, at + 32),
        flags: wire::word(bytes, at + 36),
    }
}

// ---- the keys

pub fn keys(bytes: &[u8], n: usize) -> ArrayVec<Key, 16>
    requires { (n ≤ most_keys) × (40 + 8 * n ≤ length bytes.now) }
    ensures { result.items ≡ keys_at bytes.now 40 n }
{
    let mut keys = ArrayVec::new();
    for record in bytes[40..40 + 8 * n].chunks_exact(8) {
        keys.push(key(record, 0));
    }
    keys
}
