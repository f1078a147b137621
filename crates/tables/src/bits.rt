// Reading and packing numbers of up to 32 bits, the most significant bit first.
ghost use Rattle.std.specs.Prelude.{◌≡◌, ◌+◌, ◌*◌, ◌^◌, ◌<◌, ◌≤◌, length};
ghost use Rattle.tables.specs.Bits.{field, Taken};

use tasks::fault::FileFault;

// Some bytes, and the place of the next bit to take: a slice of what is left could not begin inside a byte.
#[derive(Drop)]
pub struct BitReader<'a> {
    pub bytes: &'a [u8],
    pub at: usize,
    ghost short: { length bytes.now ≤ 4096 },
    ghost inside: { at ≤ 8 * length bytes.now },
}

// The bit at a place, where bit 0 is the highest of the first byte.
fn bit(bytes: &[u8], at: usize) -> u32
    requires { at < 8 * length bytes.now }
    ensures { result ≡ field bytes.now at 1 }
{
    u32::from(bytes[at / 8] >> (7 - at % 8)) % 2
}

impl<'a> BitReader<'a> {
    // The number in the next `width` bits; a fault where fewer are left.
    pub fn take(&mut self, width: usize) -> Result<u32, FileFault>
        requires { width ≤ 32 }
        ensures taken { Taken self.old.bytes.now self.old.at width result self.new.at }
        ensures bytes { self.new.bytes ≡ self.old.bytes }
    {
        let end = self.at + width;
        if end > 8 * self.bytes.len() {
            return Err(FileFault::Length);
        }
        // a loop, whose invariant says what the bits so far make: a fold would need that as a contract of its closure
        let mut value = 0;
        for place in self.at..end {
            value = 2 * value + bit(self.bytes, place);
        }
        self.at = end;
        Ok(value)
    }
}

// Numbers packed one after another into one. The count of bits is no length of a buffer: it says how large the number may be.
#[derive(Drop)]
pub struct BitWriter {
    pub word: u128,
    pub bits: u32,
    ghost few: { bits ≤ 128 },
    ghost small: { word < 2 ^ bits },
}

impl BitWriter {
    // No Default: it cannot be derived beside a ghost field, and by hand it would be these lines in an impl of its own.
    pub fn new() -> BitWriter
        ensures word { result.word ≡ 0 }
        ensures bits { result.bits ≡ 0 }
    {
        BitWriter { word: 0, bits: 0 }
    }

    // The same with `value` in `width` more bits.
    pub fn put(self, width: u32, value: u32) -> BitWriter
        requires width { width ≤ 32 }
        requires value { value < 2 ^ width }
        requires room { self.bits + width ≤ 128 }
        ensures word { result.word ≡ self.word * 2 ^ width + value }
        ensures bits { result.bits ≡ self.bits + width }
    {
        BitWriter {
            word: self.word << width | u128::from(value),
            bits: self.bits + width,
        }
    }
}
