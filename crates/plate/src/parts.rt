// The parts of a plate's header and its records, out of the bytes from its first on.
// Functions over the slice itself: a struct around it would be made anew for an input's first plate and at each check, and its clauses would say no less.
ghost use Rattle.std.specs.Prelude.{◌≡◌, ◌≤◌};
ghost use Rattle.plate.specs.Format.{colors_of, extras_of, header_of, length_of, kind_bytes, kinds_of, unused_kinds, record_at, records_of};

use arrayvec::ArrayVec;
use byte_fields::{byte_at, front, rest, signed_at, word_at};
use machine::{FrameRecord, Header};

pub(crate) fn colors(bytes: &[u8]) -> u32
    ensures { result ≡ colors_of bytes.now }
{
    word_at(bytes, 8)
}

pub(crate) fn extras(bytes: &[u8]) -> u32
    ensures { result ≡ extras_of bytes.now }
{
    word_at(bytes, 12)
}

pub(crate) fn header(bytes: &[u8]) -> Header
    ensures { result ≡ header_of bytes.now }
{
    Header {
        number: word_at(bytes, 4),
        left: signed_at(bytes, 16),
        top: signed_at(bytes, 20),
        width: word_at(bytes, 24),
        height: word_at(bytes, 28),
        target: word_at(bytes, 32),
    }
}

pub(crate) fn length(bytes: &[u8]) -> u32
    ensures { result ≡ length_of bytes.now }
{
    word_at(bytes, 56)
}

fn kind_bytes(bytes: &[u8]) -> &[u8]
    ensures { result.now ≡ kind_bytes bytes.now }
{
    front(rest(bytes, 36), 8)
}

pub(crate) fn kinds(bytes: &[u8]) -> &[u8]
    ensures { result.now ≡ kinds_of bytes.now }
{
    front(kind_bytes(bytes), extras(bytes) as usize)
}

pub(crate) fn unused_kinds(bytes: &[u8]) -> &[u8]
    ensures { result.now ≡ unused_kinds bytes.now }
{
    rest(kind_bytes(bytes), extras(bytes) as usize)
}

fn record_at(bytes: &[u8], k: usize) -> FrameRecord
    requires { k ≤ 8 }
    ensures { result ≡ record_at bytes.now k }
{
    FrameRecord {
        mode: byte_at(bytes, 64 + 4 * k),
        alpha: byte_at(bytes, 65 + 4 * k),
        clamp: byte_at(bytes, 66 + 4 * k) == 1,
        source: byte_at(bytes, 67 + 4 * k),
    }
}

// At most nine; a plate has no more, since it has at most eight extra channels. Pushed one by one: `extend` answers a `Result` that could not be an error.
pub(crate) fn records(bytes: &[u8]) -> ArrayVec<FrameRecord, 9>
    ensures { result.items ≡ records_of bytes.now }
{
    let mut records = ArrayVec::new();
    for k in 0..(extras(bytes) as usize + 1).min(9) {
        records.push(record_at(bytes, k));
    }
    records
}
