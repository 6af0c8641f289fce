//! Which bits are kept of elements of one byte.
ghost use Rattle.std.specs.Prelude.{◌≡◌, ◌+◌, ◌%◌, ◌^◌, ◌<◌, ◌≤◌};
ghost use Rattle.zarr_codecs_meaning.specs.Types.{extended, signed};

use zarr_codecs_types::Sign;

/// The bits that are kept of elements of one byte: so many, from the first one on. The sign says
/// what stands above them.
#[derive(Clone, Copy)]
pub(crate) struct KeptBits {
    pub first: usize,
    pub count: usize,
    pub sign: Sign,
    ghost some: { 0 < count },
    ghost inside: { first + count ≤ 8 },
}

impl KeptBits {
    ghost use Rattle.std.specs.Prelude.{◌≡◌, ◌+◌, ◌*◌, ◌/◌, ◌%◌, ◌^◌, ◌≤◌, IsTrue};
    ghost use Rattle.zarr_codecs_meaning.specs.Types.{extended};
    ghost use Rattle.zarr_codecs_types.specs.Views.{sign_of};
    ghost use Rattle.zarr_codecs_packbits.specs.Packing.{IsLowestBit};

    /// Whether the lowest bit alone is kept, of elements without a sign.
    pub(crate) fn is_lowest_bit(self) -> bool
        ensures { IsTrue result → IsLowestBit self }
    {
        self.first == 0 && self.count == 1 && matches!(self.sign, Sign::Unsigned)
    }

    /// How many numbers the kept bits write.
    pub(crate) fn scale(self) -> u64
        ensures value { result ≡ 2 ^ self.count }
        ensures small { result ≤ 256 }
    {
        power(self.count)
    }

    /// The number that the kept bits of a byte write.
    pub(crate) fn number_of(self, byte: u8) -> u64
        ensures { result ≡ byte / 2 ^ self.first % 2 ^ self.count }
    {
        (byte as u64 >> self.first) % self.scale()
    }

    /// The byte whose kept bits write a number: zeros below them, and above them zeros or copies of
    /// the last one.
    pub(crate) fn byte_of(self, number: u64) -> u8
        requires { number ≤ 256 }
        ensures { result ≡ extended (sign_of self.sign) (self.first + self.count) 1
            (number * 2 ^ self.first) % 256 }
    {
        let low = number * power(self.first);
        match self.sign {
            Sign::Unsigned => (low % 256) as u8,
            Sign::Signed => signed_byte(low, self.first + self.count),
        }
    }
}

/// The byte of a signed number of so many bits.
fn signed_byte(low: u64, bits: usize) -> u8
    requires small { low ≤ 65536 }
    requires some { 0 < bits }
    requires few { bits ≤ 8 }
    ensures { result ≡ extended signed bits 1 low % 256 }
{
    let half = power(bits - 1);
    if low < half {
        return (low % 256) as u8;
    }
    ((low + (256 - power(bits))) % 256) as u8
}

/// A power of 2.
fn power(n: usize) -> u64
    requires { n ≤ 8 }
    ensures value { result ≡ 2 ^ n }
    ensures small { result ≤ 256 }
{
    1 << n
}
