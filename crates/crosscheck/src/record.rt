// One record of a file, by both planners.
use crate::reply::differ;
use second::reply::Reason;
use tables::table::record;

// The bytes of a record.
fn second_record(file: &[u8], number: usize) -> Result<&[u8], Reason> {
    let [_, packed_count, records @ ..] = file else {
        return Err(Reason::WrongLength);
    };
    let count = usize::from(*packed_count % 32);
    if records.len() != count * 12 {
        return Err(Reason::WrongLength);
    }
    records
        .chunks(12)
        .nth(number.wrapping_sub(1))
        .ok_or(Reason::NoRecord)
}

pub fn same_record(rt: &HostRuntime, file: &[u8], number: usize) -> anyhow::Result<()> {
    let first = record(file, number).map_err(|fault| u64::from(fault.number()));
    let second = second_record(file, number).map_err(u64::from);
    if first != second {
        differ(rt, "record", file, &(number, first), &second)?;
    }
    Ok(())
}
