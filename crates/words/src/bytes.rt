//! Numbers in bytes, low byte first.
ghost use Rattle.std.specs.Prelude.{◌≡◌, ◌%◌, ◌^◌, length};
ghost use Rattle.words.specs.Bytes.{number_at, bytes_of};

/// Reads all these bytes as one number, low byte first, modulo 2^64.
pub fn number_in(bytes: &[u8]) -> u64
    ensures value { result ≡ number_at (length bytes.now) bytes.now 0 % 2 ^ 64 }
{
    bytes.iter().rev().fold(0, |number: u64, byte| {
        number.wrapping_mul(256).wrapping_add(u64::from(*byte))
    })
}

/// Fills a slice with the bytes of a number, low byte first.
pub fn write_number(bytes: &mut [u8], number: u64)
    ensures { bytes.new ≡ bytes_of (length bytes.old) number }
{
    let mut rest = number;
    for byte in bytes.iter_mut() {
        // The low byte: the bytes that follow hold the rest.
        *byte = (rest % 256) as u8;
        rest /= 256;
    }
}
