// Numbers and parts of bytes, read at any place.
// Promise: each function answers its definition for every place, also past the end, where every byte reads as 0.
// The definition is specs/Words.antt.
#![tactic(auto)]

ghost use Rattle.std.specs.Prelude.{◌≡◌, ◌+◌, [], ◌∷◌, take, drop};
ghost use Rattle.byte_fields.specs.Words.{byte_at, word_at, signed_at, float_at};

use std::array;
use std::num::f32_from_bits_with_nan;

// The first bytes, as many as there are.
pub fn front(bytes: &[u8], count: usize) -> &[u8]
    ensures { result.now ≡ take count bytes.now }
{
    &bytes[0..count.min(bytes.len())]
}

// The bytes from a place on.
pub fn rest(bytes: &[u8], place: usize) -> &[u8]
    ensures { result.now ≡ drop place bytes.now }
{
    &bytes[place.min(bytes.len())..]
}

pub fn byte_at(bytes: &[u8], place: usize) -> u8
    ensures { result ≡ byte_at bytes.now place }
{
    bytes.get(place).copied().unwrap_or(0)
}

fn four_at(bytes: &[u8], place: usize) -> [u8; 4]
    ensures { result ≡ byte_at bytes.now place ∷ byte_at bytes.now (place + 1) ∷ byte_at bytes.now (place + 2) ∷ byte_at bytes.now (place + 3) ∷ [] }
{
    let four = rest(bytes, place);
    array::from_fn(|k| byte_at(four, k))
}

#[tactic(auto, unfolding(crate::specs::Words::word_at))]
pub fn word_at(bytes: &[u8], place: usize) -> u32
    ensures { result ≡ word_at bytes.now place }
{
    u32::from_le_bytes(four_at(bytes, place))
}

#[tactic(auto, unfolding(crate::specs::Words::signed_at))]
pub fn signed_at(bytes: &[u8], place: usize) -> i32
    ensures { result ≡ signed_at bytes.now place }
{
    word_at(bytes, place).cast_signed()
}

#[tactic(auto, unfolding(crate::specs::Words::float_at))]
pub fn float_at(bytes: &[u8], place: usize) -> f32
    ensures { result ≡ float_at bytes.now place }
{
    f32_from_bits_with_nan(word_at(bytes, place))
}
