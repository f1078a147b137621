// One record of the packed table, both ways.
ghost use Rattle.std.specs.Prelude.{◌≡◌, ◌≢◌, length, MatchResult};
ghost use Rattle.tasks.specs.declared.fault.FileFault.TheVariants.{Spare};
ghost use Rattle.tables.specs.Bits.{field};
ghost use Rattle.tables.specs.Tables.{candidate, ReadAs, record_bytes};
ghost use Rattle.tasks.specs.Tasks.{plain};

use crate::bits::{BitReader, BitWriter};
use tasks::admission::Admission;
use tasks::fault::{Fault, FileFault, TaskFault};
use tasks::task::{Candidate, Task};

// The numbers of a record, or the fault of its spare bit where that is set. Field after field, both ways: an array of widths would part
// each width from its field.
fn read_fields(bytes: &[u8; 12], record: u8) -> Result<Candidate, FileFault>
    ensures { MatchResult result (λ c. (field bytes.now 7 1 ≡ 0) × (c ≡ candidate bytes.now)) (λ e. (field bytes.now 7 1 ≢ 0) × (e ≡ Spare «record»)) }
{
    let mut bits = BitReader { bytes, at: 0 };
    let id = bits.take(6)?;
    let tier = bits.take(1)?;
    let spare = bits.take(1)?;
    if spare != 0 {
        return Err(FileFault::Spare(record));
    }
    let weight = bits.take(16)?;
    let section = bits.take(12)?;
    let execution = bits.take(20)?;
    let deadline = bits.take(20)?;
    let period = bits.take(20)?;
    Ok(Candidate {
        id,
        tier,
        weight,
        section,
        execution,
        deadline,
        period,
    })
}

// The task in a record, or the first rule that the record breaks.
pub fn read_task<T: Admission>(test: &T, bytes: &[u8; 12], record: u8) -> Result<Task, Fault>
    ensures { ReadAs (T.admitted test.now) «record» bytes.now result }
{
    let candidate = read_fields(bytes, record)?;
    let task = candidate.check(record)?;
    if !test.admits(task.timing()) {
        return Err(Fault::Task(TaskFault::NotAdmitted(record)));
    }
    Ok(task)
}

// The twelve bytes of a task's record.
pub fn task_bytes(task: &Task) -> [u8; 12]
    ensures { result ≡ record_bytes (plain task.now) }
{
    let bits = BitWriter::new()
        .put(6, u32::from(task.id))
        .put(1, u32::from(task.tier))
        .put(1, 0)
        .put(16, u32::from(task.weight))
        .put(12, u32::from(task.section))
        .put(20, task.execution)
        .put(20, task.deadline)
        .put(20, task.period);
    let mut record = [0; 12];
    record.copy_from_slice(&bits.word.to_be_bytes()[4..16]);
    record
}
