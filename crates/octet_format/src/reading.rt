//! Fields are read from left to right. Each reader gives the field and the octets after it.

ghost use Rattle.std.specs.Prelude.{◌≡◌, ◌==◌, ◌≤◌, length, IfOk};
ghost use Rattle.std.specs.Int.{w16, w32, w64};
ghost use Rattle.octet_format.specs.Reading.{Gives, octet_at, octet_in, number_at, octets_at, zeros_at};

/// Why nothing was read.
#[derive(Clone, Copy, Debug, PartialEq, Eq)]
pub enum Unread {
    /// The octets are the front of what is read, and lack its end.
    More,
    /// Nothing begins with these octets, whatever follows.
    Bad,
}

/// Reads a number of 16 bits in network order.
pub fn u16_at(octets: &[u8]) -> Result<(u16, &[u8]), Unread>
    ensures { Gives (λ x. (x.0, x.1.now)) result (number_at w16 octets.now) }
{
    if octets.len() < 2 {
        return Err(Unread::More);
    }
    let (front, rest) = octets.split_at(2);
    Ok((u16::from_be_bytes([front[0], front[1]]), rest))
}

/// Reads a number of 32 bits in network order.
pub fn u32_at(octets: &[u8]) -> Result<(u32, &[u8]), Unread>
    ensures { Gives (λ x. (x.0, x.1.now)) result (number_at w32 octets.now) }
{
    if octets.len() < 4 {
        return Err(Unread::More);
    }
    let (front, rest) = octets.split_at(4);
    let number = u32::from_be_bytes([front[0], front[1], front[2], front[3]]);
    Ok((number, rest))
}

/// Reads a number of 64 bits in network order.
pub fn u64_at(octets: &[u8]) -> Result<(u64, &[u8]), Unread>
    ensures { Gives (λ x. (x.0, x.1.now)) result (number_at w64 octets.now) }
{
    if octets.len() < 8 {
        return Err(Unread::More);
    }
    let (front, rest) = octets.split_at(8);
    let number = u64::from_be_bytes([
        front[0], front[1], front[2], front[3], front[4], front[5], front[6], front[7],
    ]);
    Ok((number, rest))
}

/// Reads four octets.
pub fn array4_at(octets: &[u8]) -> Result<([u8; 4], &[u8]), Unread>
    ensures { Gives (λ x. (x.0, x.1.now)) result (octets_at 4 octets.now) }
{
    if octets.len() < 4 {
        return Err(Unread::More);
    }
    let (front, rest) = octets.split_at(4);
    Ok(([front[0], front[1], front[2], front[3]], rest))
}

/// Reads eight octets.
pub fn array8_at(octets: &[u8]) -> Result<([u8; 8], &[u8]), Unread>
    ensures { Gives (λ x. (x.0, x.1.now)) result (octets_at 8 octets.now) }
{
    if octets.len() < 8 {
        return Err(Unread::More);
    }
    let (front, rest) = octets.split_at(8);
    let mut array = [0; 8];
    array.copy_from_slice(front);
    Ok((array, rest))
}

/// Reads 16 octets.
pub fn array16_at(octets: &[u8]) -> Result<([u8; 16], &[u8]), Unread>
    ensures { Gives (λ x. (x.0, x.1.now)) result (octets_at 16 octets.now) }
{
    if octets.len() < 16 {
        return Err(Unread::More);
    }
    let (front, rest) = octets.split_at(16);
    let mut array = [0; 16];
    array.copy_from_slice(front);
    Ok((array, rest))
}

/// Reads 64 octets.
pub fn array64_at(octets: &[u8]) -> Result<([u8; 64], &[u8]), Unread>
    ensures { Gives (λ x. (x.0, x.1.now)) result (octets_at 64 octets.now) }
{
    if octets.len() < 64 {
        return Err(Unread::More);
    }
    let (front, rest) = octets.split_at(64);
    let mut array = [0; 64];
    array.copy_from_slice(front);
    Ok((array, rest))
}

fn zero_at(octets: &[u8]) -> Result<&[u8], Unread>
    ensures { Gives (λ x. (0, x.now)) result (octet_at (λ b. b == 0) octets.now) }
{
    match octets {
        [] => Err(Unread::More),
        [0, rest @ ..] => Ok(rest),
        [_, ..] => Err(Unread::Bad),
    }
}

/// Reads as many zeros.
pub fn zeros_at(count: usize, octets: &[u8]) -> Result<&[u8], Unread>
    ensures { Gives (λ x. (tt, x.now)) result (zeros_at count octets.now) }
{
    let mut rest = octets;
    for _ in 0..count {
        rest = zero_at(rest)?;
    }
    Ok(rest)
}

/// Reads one octet of a range.
pub fn octet_in(low: u8, high: u8, octets: &[u8]) -> Result<(u8, &[u8]), Unread>
    ensures value { Gives (λ x. (x.0, x.1.now)) result (octet_in low high octets.now) }
    ensures range { IfOk result (λ x. (low ≤ x.0) × (x.0 ≤ high)) }
{
    match octets {
        [] => Err(Unread::More),
        [b, rest @ ..] => {
            if low <= *b && *b <= high {
                Ok((*b, rest))
            } else {
                Err(Unread::Bad)
            }
        }
    }
}

/// Reads as many octets.
pub fn octets_at(count: usize, octets: &[u8]) -> Result<(&[u8], &[u8]), Unread>
    ensures value { Gives (λ x. (x.0.now, x.1.now)) result (octets_at count octets.now) }
    ensures len { IfOk result (λ x. length x.0.now ≡ count) }
{
    if octets.len() < count {
        return Err(Unread::More);
    }
    Ok(octets.split_at(count))
}
