// The two header bytes of the packed table, both ways.
ghost use Rattle.std.specs.Prelude.{◌≡◌, ◌≤◌, length, Ok};
ghost use Rattle.tables.specs.Bits.{bytes_of, packed};
ghost use Rattle.tables.specs.Tables.{Split, header_fields, header_in};

use crate::bits::{BitReader, BitWriter};
use tasks::fault::FileFault;
use tasks::list::Codes;

// The fields as they stand in a file, all of them numbers: the format is judged first, then the spare bits, then the codes.
#[derive(Clone, Copy)]
pub struct Header {
    pub format: u32,
    pub test: u32,
    pub cost: u32,
    pub spare: u32,
    pub count: u32,
}

// Field after field, both ways: an array of widths would part each width from its field.
fn read_header(bytes: [u8; 2]) -> Result<Header, FileFault>
    ensures { result ≡ Ok (header_in bytes) }
{
    let mut bits = BitReader {
        bytes: &bytes,
        at: 0,
    };
    let format = bits.take(4)?;
    let test = bits.take(2)?;
    let cost = bits.take(2)?;
    let spare = bits.take(3)?;
    let count = bits.take(5)?;
    Ok(Header {
        format,
        test,
        cost,
        spare,
        count,
    })
}

// The header of a file, and the records after it.
pub fn split(file: &[u8]) -> Result<(Header, &[u8]), FileFault>
    ensures { Split file.now result }
{
    let [first, second, records @ ..] = file else {
        return Err(FileFault::Length);
    };
    Ok((read_header([*first, *second])?, records))
}

// The two bytes of the header of a table with `count` records.
pub fn header_bytes(codes: Codes, count: u8) -> [u8; 2]
    requires { count ≤ 16 }
    ensures { result ≡ bytes_of 2 (packed 0 (header_fields codes.test codes.cost count)) }
{
    let bits = BitWriter::new()
        .put(4, 1)
        .put(2, u32::from(codes.test))
        .put(2, u32::from(codes.cost))
        .put(3, 0)
        .put(5, u32::from(count));
    let word = bits.word.to_be_bytes();
    [word[14], word[15]]
}
