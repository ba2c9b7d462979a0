// The row of bits that an OFDM symbol carries, and its protected fields, clause 7.4.5 and Table 6.
ghost use Rattle.std.specs.Prelude.{◌≡◌, ◌++◌, ◌+◌, ◌≤◌, length};
ghost use Rattle.bits.specs.Words.{differ};
ghost use Rattle.payload_a.specs.Segments.{field1, field2, field3, carried_by, protected_in};

use payload_a::segments;
use payload_a::segments::{BLOCK, SYMBOL};

// Two lists one behind the other, which have N elements.
pub(crate) fn joined<const N: usize>(first: &[u8], second: &[u8]) -> [u8; N]
    requires { length first.now + length second.now ≡ N }
    ensures { result ≡ first.now ++ second.now }
{
    let mut out = [0u8; N];
    segments::put(first, 0, &mut out);
    segments::put(second, first.len(), &mut out);
    out
}

// The block that an OFDM symbol carries, out of the middle of its 420 bits.
#[tactic(auto, unfolding(payload_a::specs::Segments::carried_by))]
pub(crate) fn block(symbol: &[u8; SYMBOL]) -> [u8; BLOCK]
    ensures { result ≡ carried_by symbol.now }
{
    joined(&symbol[10..206], &symbol[216..412])
}

// The number of places where a protected field as received differs.
fn places_apart(field: &[u8], received: &[u8]) -> usize
    requires { length field.now ≡ length received.now }
    ensures { (result ≡ differ field.now received.now) × (result ≤ length field.now) }
{
    field
        .iter()
        .zip(received)
        .filter(|(sent, got)| sent != got)
        .count()
}

// The number of protected bits of an OFDM symbol that differ.
pub(crate) fn differing(symbol: &[u8; SYMBOL]) -> usize
    ensures { (result ≡ differ (field1 ++ field2 ++ field3) (protected_in symbol.now)) × (result ≤ 28) }
{
    places_apart(&segments::FIELD1, &symbol[0..10])
        + places_apart(&segments::FIELD2, &symbol[206..216])
        + places_apart(&segments::FIELD3, &symbol[412..420])
}
