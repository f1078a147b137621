// The packed table: decoding, encoding, and handing out one record.
ghost use Rattle.std.specs.Prelude.{◌≡◌, ◌≤◌, length, IfOk, Some, None, MatchResult};
ghost use Rattle.std.specs.Option.{option_map};
ghost use Rattle.tasks.specs.Buffers.{delivered};
ghost use Rattle.tables.specs.Examples.{Examples};
ghost use Rattle.tables.specs.Pairing.{Back, Pairs};
ghost use Rattle.tasks.specs.Lists.{plains, plainly, bytewise};
ghost use Rattle.tables.specs.Tables.{header_fault, rows, decoded, encoded, record_at, code_pair, codes_in};

use crate::header::{Header, header_bytes, split};
use crate::record::{read_task, task_bytes};
use tasks::admission::Admission;
use tasks::fault::{Fault, FileFault, PlanFault};
use tasks::list::{Codes, TaskList};

// The twelve bytes of the record n, counted from 1.
pub fn record(file: &[u8], n: usize) -> Result<&[u8], Fault>
    ensures { bytewise result ≡ record_at file.now n }
{
    let (header, records) = split(file)?;
    let count = header.count as usize;
    if records.len() != 12 * count {
        return Err(Fault::File(FileFault::Length));
    }
    if n == 0 || n > count {
        return Err(Fault::File(FileFault::NoRecord));
    }
    Ok(&records[12 * (n - 1)..12 * n])
}

// The codes that the header of a file names, where it has a header.
pub fn codes(file: &[u8]) -> Option<Codes>
    ensures { option_map code_pair result ≡ codes_in file.now }
{
    let (header, _) = split(file).ok()?;
    Some(Codes {
        test: header.test as u8,
        cost: header.cost as u8,
    })
}

// What a header is refused for by itself.
fn check_header(header: Header, codes: Codes) -> Result<(), Fault>
    ensures { MatchResult result (λ _. header_fault codes.test codes.cost header ≡ None) (λ e. header_fault codes.test codes.cost header ≡ Some e) }
{
    if header.format != 1 {
        return Err(Fault::File(FileFault::Format));
    }
    if header.spare != 0 {
        return Err(Fault::File(FileFault::Spare(0)));
    }
    if header.test != u32::from(codes.test) || header.cost != u32::from(codes.cost) {
        return Err(Fault::File(FileFault::Code));
    }
    if header.count > 16 {
        return Err(Fault::Plan(PlanFault::Full));
    }
    Ok(())
}

// The tasks of at most sixteen records.
fn read_tasks<T: Admission>(test: &T, records: &[[u8; 12]]) -> Result<TaskList, Fault>
    requires { length records.now ≤ 16 }
    ensures { plainly result ≡ rows (T.admitted test.now) records.now }
{
    let mut tasks = TaskList::new();
    let mut floor = 0;
    for (n, bytes) in (1..17).zip(records) {
        let task = read_task(test, bytes, n)?;
        if task.id < floor {
            return Err(Fault::Plan(PlanFault::Order(n)));
        }
        floor = task.id + 1;
        tasks.push(task)?;
    }
    Ok(tasks)
}

// The tasks of a table, for a plan with these codes.
pub fn decode<T: Admission>(test: &T, codes: Codes, file: &[u8]) -> Result<TaskList, Fault>
    ensures value { plainly result ≡ decoded (T.admitted test.now) codes.test codes.cost file.now }
    ensures table { IfOk result (λ l. encoded codes.test codes.cost (plains l) ≡ file.now) }
    ensures pairs { Pairs (T.admitted test.now) codes.test codes.cost }
{
    let (header, bytes) = split(file)?;
    check_header(header, codes)?;
    if bytes.len() != 12 * header.count as usize {
        return Err(Fault::File(FileFault::Length));
    }
    let (records, _) = bytes.as_chunks();
    read_tasks(test, records)
}

// Writes the table of the tasks into a buffer, and returns the count of bytes written.
pub fn encode(codes: Codes, list: &TaskList, out: &mut [u8]) -> Result<usize, Fault>
    ensures written { (result, out.new) ≡ delivered (length (encoded codes.test codes.cost (plains list.now))) (encoded codes.test codes.cost (plains list.now)) out.old }
    ensures back { Back codes.test codes.cost (plains list.now) }
{
    let tasks = list.as_slice();
    let size = 2 + 12 * tasks.len();
    // Refused here, and not as the texts are: those are made whole and then copied, while a table is written record by record.
    if out.len() < size {
        return Err(Fault::Plan(PlanFault::Buffer));
    }
    out[0..2].copy_from_slice(&header_bytes(codes, tasks.len() as u8));
    // Tried with a zip over `as_chunks_mut`: the goal `written` stays open, since that call says nothing of what the slice ends as.
    for (k, task) in tasks.iter().enumerate() {
        out[2 + 12 * k..14 + 12 * k].copy_from_slice(&task_bytes(task));
    }
    Ok(size)
}

// The worked examples hold of the definitions.
pub fn examples_stand()
    ensures { Examples }
{}
