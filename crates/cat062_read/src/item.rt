//! What the items that the profile uses say. An absent item has no octet, and then says nothing.
ghost use Rattle.std.specs.Prelude.{◌≡◌, ◌<◌, ◌^◌, IfSome, slice_index};
ghost use Rattle.asterix_fields.specs.Numbers.{twos_complement};
ghost use Rattle.cat062_read.specs.Contents.{acceleration, barometric, code, is_ended, is_simulated, is_tentative, number, position, signed, source, speed, time, wgs};
ghost use Rattle.track_motion.specs.Tracks.{IsInPlane};

use asterix_fields::{be16, be24, signed16, signed24, signed32};

/// 010: the system area code and the system identification code.
pub fn source(text: &[u8]) -> Option<(u8, u8)>
    ensures { result ≡ source text.now }
{
    match text {
        [sac, sic] => Some((*sac, *sic)),
        _ => None,
    }
}

/// 040: the track number.
pub fn number(text: &[u8]) -> Option<u16>
    ensures { result ≡ number text.now }
{
    match text {
        [high, low] => Some(be16([*high, *low])),
        _ => None,
    }
}

/// 070: the time of day in 1/128 s, as written.
pub fn time(text: &[u8]) -> Option<u32>
    ensures { result ≡ time text.now }
{
    match text {
        [high, middle, low] => Some(be24([*high, *middle, *low])),
        _ => None,
    }
}

/// 100: X and Y in 0.5 m.
pub fn position(text: &[u8]) -> Option<(i32, i32)>
    ensures value { result ≡ position text.now }
    ensures placed { IfSome result (λ xy. IsInPlane xy.0 xy.1) }
{
    match text {
        [a, b, c, d, e, f] => Some((signed24([*a, *b, *c]), signed24([*d, *e, *f]))),
        _ => None,
    }
}

/// 105: latitude and longitude in 180/2^25 degrees.
pub fn wgs(text: &[u8]) -> Option<(i32, i32)>
    ensures { result ≡ wgs text.now }
{
    match text {
        [a, b, c, d, e, f, g, h] => Some((signed32([*a, *b, *c, *d]), signed32([*e, *f, *g, *h]))),
        _ => None,
    }
}

/// 185: Vx and Vy in 0.25 m/s.
pub fn speed(text: &[u8]) -> Option<(i16, i16)>
    ensures { result ≡ speed text.now }
{
    match text {
        [a, b, c, d] => Some((signed16([*a, *b]), signed16([*c, *d]))),
        _ => None,
    }
}

/// 210: Ax and Ay in 0.25 m/s^2.
pub fn acceleration(text: &[u8]) -> Option<(i8, i8)>
    ensures { result ≡ acceleration text.now }
{
    match text {
        [x, y] => Some((x.cast_signed(), y.cast_signed())),
        _ => None,
    }
}

/// 136 in 25 ft, and 220 in 6.25 ft/min.
pub fn signed(text: &[u8]) -> Option<i16>
    ensures { result ≡ signed text.now }
{
    match text {
        [high, low] => Some(signed16([*high, *low])),
        _ => None,
    }
}

/// 135: whether QNH correction is applied, and the altitude in 25 ft.
pub fn barometric(text: &[u8]) -> Option<(bool, i16)>
    ensures { result ≡ barometric text.now }
{
    match text {
        [high, low] => {
            let word = be16([*high, *low]);
            Some((word / 32_768 == 1, signed15(word % 32_768)))
        }
        _ => None,
    }
}

/// A number of 15 bits as a signed one.
fn signed15(value: u16) -> i16
    requires { value < 2 ^ 15 }
    ensures { result ≡ twos_complement 15 value }
{
    if value < 16_384 {
        value as i16
    } else {
        (value as i32 - 32_768) as i16
    }
}

/// 060: the Mode 3/A code, 12 bits.
pub fn code(text: &[u8]) -> Option<u16>
    ensures { result ≡ code text.now }
{
    match text {
        [high, low] => Some(be16([*high, *low]) % 4096),
        _ => None,
    }
}

/// 080: bit 2 of the first octet (CNF), the track is tentative.
pub fn is_tentative(text: &[u8]) -> bool
    ensures { result ≡ is_tentative text.now }
{
    octet(text, 0) / 2 % 2 == 1
}

/// 080: bit 8 of the first extension (SIM), the track is simulated.
pub fn is_simulated(text: &[u8]) -> bool
    ensures { result ≡ is_simulated text.now }
{
    octet(text, 1) / 128 % 2 == 1
}

/// 080: bit 7 of the first extension (TSE), this is the last message for the track.
pub fn is_ended(text: &[u8]) -> bool
    ensures { result ≡ is_ended text.now }
{
    octet(text, 1) / 64 % 2 == 1
}

/// The octet at an offset, or 0 where there is none.
fn octet(text: &[u8], offset: usize) -> u8
    ensures { result ≡ slice_index text.now offset }
{
    match text.get(offset) {
        Some(octet) => *octet,
        None => 0,
    }
}
