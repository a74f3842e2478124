//! Fields that are read at their place.

ghost use Rattle.std.specs.Prelude.{◌≡◌, ◌+◌, ◌≤◌, length};
ghost use Rattle.octet_format.specs.Octets.{field};

/// The two octets at a place.
#[inline]
pub fn field2(octets: &[u8], at: usize) -> [u8; 2]
    requires { at + 2 ≤ length octets.now }
    ensures { result ≡ field at 2 octets.now }
{
    let mut array = [0; 2];
    array.copy_from_slice(&octets[at..at + 2]);
    array
}

/// The four octets at a place.
#[inline]
pub fn field4(octets: &[u8], at: usize) -> [u8; 4]
    requires { at + 4 ≤ length octets.now }
    ensures { result ≡ field at 4 octets.now }
{
    let mut array = [0; 4];
    array.copy_from_slice(&octets[at..at + 4]);
    array
}

/// The eight octets at a place.
#[inline]
pub fn field8(octets: &[u8], at: usize) -> [u8; 8]
    requires { at + 8 ≤ length octets.now }
    ensures { result ≡ field at 8 octets.now }
{
    let mut array = [0; 8];
    array.copy_from_slice(&octets[at..at + 8]);
    array
}

/// The 16 octets at a place.
#[inline]
pub fn field16(octets: &[u8], at: usize) -> [u8; 16]
    requires { at + 16 ≤ length octets.now }
    ensures { result ≡ field at 16 octets.now }
{
    let mut array = [0; 16];
    array.copy_from_slice(&octets[at..at + 16]);
    array
}
