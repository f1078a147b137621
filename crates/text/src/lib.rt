// Texts in a buffer that the caller lends, byte for byte.
#![tactic(auto)]

ghost use Rattle.std.specs.Prelude.{◌≡◌, ◌≤◌, map, length};
ghost use Rattle.tasks.specs.Buffers.{delivered};
ghost use Rattle.tasks.specs.Faults.{number_of, record_of};
ghost use Rattle.text.specs.Examples.{Examples};
ghost use Rattle.text.specs.Levels.{numbers};
ghost use Rattle.text.specs.Texts.{listing_text, refusal_line};

use arrayvec::ArrayString;
use buffer::deliver;
use lines::push_line;
use tasks::fault::Fault;

mod buffer;
mod level;
mod lines;
pub mod report;

pub use level::Level;

// The buffer that every listing fits.
pub const LISTING_LEN: usize = 512;

// The buffer that every refusal line fits.
pub const REFUSAL_LEN: usize = 32;

// Writes the line of a refusal, and returns its length.
pub fn refusal_line(fault: Fault, out: &mut [u8]) -> Result<usize, Fault>
    ensures fits { length (refusal_line (number_of fault) (record_of fault)) ≤ 32 }
    ensures written { (result, out.new) ≡ delivered 32 (refusal_line (number_of fault) (record_of fault)) out.old }
{
    let number = u64::from(fault.number());
    let record = u64::from(fault.record());
    let mut text = ArrayString::<REFUSAL_LEN>::new();
    push_line(&mut text, &[("refused ", number), (" record ", record)]);
    deliver(text.as_bytes(), REFUSAL_LEN, out)
}

// Writes a line for each level and the line of the cost, and returns their length. At most sixteen levels, in a slice: a list that carries its
// bound would ask more of callers.
pub fn listing(levels: &[Level], cost: (u64, u64), out: &mut [u8]) -> Result<usize, Fault>
    requires { length levels.now ≤ 16 }
    ensures fits { length (listing_text (map numbers levels.now) cost) ≤ 512 }
    ensures written { (result, out.new) ≡ delivered 512 (listing_text (map numbers levels.now) cost) out.old }
{
    let mut text = ArrayString::<LISTING_LEN>::new();
    for (number, level) in (1u64..).zip(levels) {
        let id = u64::from(level.id);
        let response = u64::from(level.response);
        push_line(&mut text, &[("", number), (" ", id), (" ", response)]);
    }
    push_line(&mut text, &[("cost ", cost.0), (" ", cost.1)]);
    deliver(text.as_bytes(), LISTING_LEN, out)
}

// The worked examples hold of the definitions.
pub fn examples_hold()
    ensures { Examples }
{}
