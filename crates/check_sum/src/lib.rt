// The check sum that the test programs print of a net: CRC-32, a bit after the other.
#![tactic(auto)]

ghost use Rattle.std.specs.Prelude.{◌≡◌};
ghost use Rattle.check_sum.specs.Crc.{bit_taken, byte_taken, crc_of};

// The polynomial's bits, the lowest power last.
const POLYNOMIAL: u32 = 3988292384;

fn take_bit(sum: u32) -> u32
    ensures { result ≡ bit_taken sum }
{
    let half = sum >> 1;
    if sum & 1 == 1 {
        half ^ POLYNOMIAL
    } else {
        half
    }
}

fn take_byte(sum: u32, b: u8) -> u32
    ensures { result ≡ byte_taken sum b }
{
    let mut next = sum ^ b as u32;
    for _ in 0..8u8 {
        next = take_bit(next);
    }
    next
}

pub fn crc(bytes: &[u8]) -> u32
    ensures { result ≡ crc_of bytes.now }
{
    let mut sum = u32::MAX;
    for b in bytes {
        sum = take_byte(sum, *b);
    }
    sum ^ u32::MAX
}

#[cfg(test)]
mod tests {
    use super::*;
    use std::test::Fail;

    // The check value that the algorithm's catalogues give.
    #[test]
    fn the_nine_digits(rt: HostRuntime) -> Result<(), Fail> {
        assert_eq!(rt; crc(b"123456789"), 0xcbf43926);
        assert_eq!(rt; crc(b""), 0);
        Ok(())
    }
}
