//! A field is written at its place.

ghost use Rattle.std.specs.Prelude.{◌≡◌, ◌+◌, ◌≤◌, ◌++◌, length, take, drop};

/// Writes a field at a place. All other octets stay.
#[inline]
pub fn put(out: &mut [u8], at: usize, field: &[u8])
    requires { at + length field.now ≤ length out.old }
    ensures { out.new ≡ take at out.old ++ field.now ++ drop (at + length field.now) out.old }
{
    // An empty field isn't worth the call of a copy.
    if field.is_empty() {
        return;
    }
    out[at..at + field.len()].copy_from_slice(field);
}

/// Writes a field that is passed by value at its place, so that it needn't stand elsewhere in memory. All other octets stay.
#[inline]
pub fn put_array<const N: usize>(out: &mut [u8], at: usize, field: [u8; N])
    requires { at + length field ≤ length out.old }
    ensures { out.new ≡ take at out.old ++ field.entry ++ drop (at + length field.entry) out.old }
{
    put(out, at, &field);
}
