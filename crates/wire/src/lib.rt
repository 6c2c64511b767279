// Fields out of bytes: little-endian 32-bit words, their reading as signed numbers, and the bits of a flag word.

#![tactic(auto)]

ghost use Rattle.std.specs.Prelude.{◌≡◌, ◌+◌, ◌<◌, ◌≤◌, ltb, length};
ghost use Rattle.method.specs.words.Wire.{word, signed, bit};

// The field whose lowest byte stands at `at`.
#[tactic(auto, unfolding(method::specs::words::Wire::word))]
pub fn word(bytes: &[u8], at: usize) -> u32
    requires { at + 4 ≤ length bytes.now }
    ensures { result ≡ word bytes.now at }
{
    u32::from_le_bytes([bytes[at], bytes[at + 1], bytes[at + 2], bytes[at + 3]])
}

// The same field as two's complement.
#[tactic(auto, unfolding(method::specs::words::Wire::signed))]
pub fn signed_word(bytes: &[u8], at: usize) -> i64
    requires { at + 4 ≤ length bytes.now }
    ensures { result ≡ signed (word bytes.now at) }
{
    i64::from(word(bytes, at).cast_signed())
}

// Bit n of a flag word. Bit 0 of a contract's permits negative prices, of an event's it says that a bid is present; bit 1 of a contract's puts it under
// watch, of an event's it says that an ask is present.
#[tactic(auto, unfolding(method::specs::words::Wire::bit))]
pub fn bit(n: u32, flags: u32) -> bool
    requires { n < 32 }
    ensures { result ≡ bit n flags }
{
    flags >> n & 1 == 1
}

// Whether all other bits are zero.
pub fn reserved_zero(flags: u32) -> bool
    ensures { result ≡ ltb flags 4 }
{
    flags & 0xffff_fffc == 0
}

// The word rebuilt from its two bits. Where the others are zero it is the word itself.
pub fn rebuilt(flags: u32) -> u32
    requires { flags < 4 }
    ensures { result ≡ flags }
{
    flags & 3
}
