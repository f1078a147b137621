// The levels of an order, packed.
ghost use Rattle.std.specs.Prelude.{◌≡◌, ◌≤◌, map, length};
ghost use Rattle.tasks.specs.Buffers.{delivered};
ghost use Rattle.text.specs.Levels.{numbers};
ghost use Rattle.text.specs.Reports.{level_record, report_bytes};

use crate::buffer::deliver;
use crate::level::Level;
use arrayvec::ArrayVec;
use tasks::fault::Fault;

// The bytes of the most levels.
const REPORT_LEN: usize = 64;

// The four bytes of a level.
fn packed(level: &Level) -> [u8; 4]
    ensures { result ≡ level_record (numbers level.now) }
{
    let word = u64::from(level.id) * 0x0400_0000 + u64::from(level.response);
    let [.., first, second, third, fourth] = word.to_be_bytes();
    [first, second, third, fourth]
}

// Writes four bytes for each level, and returns their count.
pub fn report(levels: &[Level], out: &mut [u8]) -> Result<usize, Fault>
    requires { length levels.now ≤ 16 }
    ensures { (result, out.new) ≡ delivered (length (report_bytes (map numbers levels.now))) (report_bytes (map numbers levels.now)) out.old }
{
    let mut bytes = ArrayVec::<u8, REPORT_LEN>::new();
    for level in levels {
        bytes.try_extend_from_slice(&packed(level)).unwrap();
    }
    deliver(&bytes, 4 * levels.len(), out)
}
