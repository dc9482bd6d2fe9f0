//! Whole numbers as they stand in data fields: octets, the highest first, and two's complement.

ghost use Rattle.std.specs.Prelude.{◌≡◌, ◌<◌, ◌≤◌, ◌^◌, unsigned_abs};
ghost use Rattle.asterix_fields.specs.Numbers.{big_endian, octets, twos_complement};

/// The unsigned number of a field of two octets.
pub fn be16(bytes: [u8; 2]) -> u16
    ensures { result ≡ big_endian bytes }
{
    let [high, low] = bytes;
    high as u16 * 256 + low as u16
}

/// The unsigned number of a field of three octets.
pub fn be24(bytes: [u8; 3]) -> u32
    ensures value { result ≡ big_endian bytes }
    ensures below { result < 2 ^ 24 }
{
    let [high, middle, low] = bytes;
    high as u32 * 65_536 + middle as u32 * 256 + low as u32
}

/// The unsigned number of a field of four octets.
pub fn be32(bytes: [u8; 4]) -> u32
    ensures { result ≡ big_endian bytes }
{
    let [first, second, third, fourth] = bytes;
    first as u32 * 16_777_216 + second as u32 * 65_536 + third as u32 * 256 + fourth as u32
}

/// The signed number of a field of two octets.
pub fn signed16(bytes: [u8; 2]) -> i16
    ensures { result ≡ twos_complement 16 (big_endian bytes) }
{
    be16(bytes).cast_signed()
}

/// The signed number of a field of three octets.
pub fn signed24(bytes: [u8; 3]) -> i32
    ensures value { result ≡ twos_complement 24 (big_endian bytes) }
    ensures bound { unsigned_abs result ≤ 2 ^ 23 }
{
    let value = be24(bytes) as i32;
    if value < 8_388_608 {
        value
    } else {
        value - 16_777_216
    }
}

/// The signed number of a field of four octets.
pub fn signed32(bytes: [u8; 4]) -> i32
    ensures { result ≡ twos_complement 32 (big_endian bytes) }
{
    be32(bytes).cast_signed()
}

/// A number as a field of two octets.
pub fn put16(value: u16) -> [u8; 2]
    ensures { result ≡ octets 2 value }
{
    [(value / 256) as u8, (value % 256) as u8]
}

/// A number as a field of three octets.
pub fn put24(value: u32) -> [u8; 3]
    requires { value < 2 ^ 24 }
    ensures { result ≡ octets 3 value }
{
    [
        (value / 65_536) as u8,
        (value / 256 % 256) as u8,
        (value % 256) as u8,
    ]
}

/// A number as a field of four octets.
pub fn put32(value: u32) -> [u8; 4]
    ensures { result ≡ octets 4 value }
{
    [
        (value / 16_777_216) as u8,
        (value / 65_536 % 256) as u8,
        (value / 256 % 256) as u8,
        (value % 256) as u8,
    ]
}
