// The sample table both ways, every refusal of a table by one, and tables cut short.
use crate::sample::*;
use std::test::Fail;
use tables::table::{decode, encode, record};
use tasks::fault::Fault;

// The number and the record of the fault that an answer is, if it is one.
fn refusal<A: Drop, E: Drop>(answer: Result<A, E>) -> Option<(u8, u8)>
where
    Fault: From<E>,
{
    answer
        .err()
        .map(Fault::from)
        .map(|fault| (fault.number(), fault.record()))
}

// The same of a table.
fn refused_table(file: &[u8]) -> Option<(u8, u8)> {
    refusal(decode(&AtMostPeriod, CODES, file))
}

// The sample with one byte replaced.
fn with_byte(at: usize, byte: u8) -> [u8; 38] {
    let mut file = SAMPLE;
    if at < 38 {
        file[at] = byte;
    }
    file
}

#[test]
fn the_sample_there_and_back(rt: HostRuntime) -> Result<(), Fail> {
    let mut out = [7u8; 40];
    let tasks = sample_tasks()?;
    assert_eq!(rt; encode(CODES, &tasks, &mut out)?, 38);
    assert!(rt; &out[0..38] == SAMPLE.as_slice());
    assert!(rt; out[38] == 7 && out[39] == 7);
    assert!(rt; &out[0..2] == b"\x10\x03".as_slice());
    assert!(rt; &out[2..14] == b"\x04\x00\x01\x00\x00\x00\x01\x00\x00\x40\x00\x04".as_slice());
    let back = decode(&AtMostPeriod, CODES, &out[0..38])?;
    let mut again = [0u8; 38];
    assert_eq!(rt; encode(CODES, &back, &mut again)?, 38);
    assert!(rt; &again == &SAMPLE);
    assert!(rt; record(&SAMPLE, 3)? == &SAMPLE[26..38]);
    Ok(())
}

#[test]
fn the_rules_of_a_task(rt: HostRuntime) {
    assert!(rt; candidate(1, 0, 4, 4).check(0).is_ok());
    assert_eq!(rt; refusal(candidate(1, 0, 5, 4).check(0)), Some((6, 0)));
    assert_eq!(rt; refusal(candidate(1, 3, 3, 4).check(0)), Some((7, 0)));
    assert!(rt; candidate(1, 2, 3, 4).check(0).is_ok());
    assert_eq!(rt; refusal(candidate(64, 0, 1, 4).check(0)), Some((5, 0)));
    assert_eq!(rt; refusal(candidate(1, 0, 0, 4).check(0)), Some((5, 0)));
    assert_eq!(rt;
        refusal(candidate(1, 0, 1, 1_048_576).check(0)),
        Some((5, 0))
    );
}

#[test]
fn refusals_of_the_header(rt: HostRuntime) {
    assert_eq!(rt; refused_table(&SAMPLE), None);
    assert_eq!(rt; refused_table(&[]), Some((1, 0)));
    assert_eq!(rt; refused_table(&with_byte(0, 0x20)), Some((2, 0)));
    assert_eq!(rt; refused_table(&with_byte(1, 0x23)), Some((3, 0)));
    assert_eq!(rt; refused_table(&with_byte(0, 0x14)), Some((4, 0)));
    assert_eq!(rt; refused_table(&with_byte(0, 0x11)), Some((4, 0)));
    assert_eq!(rt; refused_table(&with_byte(1, 17)), Some((10, 0)));
    assert_eq!(rt; refused_table(&with_byte(1, 4)), Some((1, 0)));
}

#[test]
fn refusals_of_a_record(rt: HostRuntime) {
    // a spare bit; no execution; an execution above the deadline, above the period; a section of the whole job
    assert_eq!(rt; refused_table(&with_byte(14, 0x09)), Some((3, 2)));
    assert_eq!(rt; refused_table(&with_byte(20, 0)), Some((5, 2)));
    assert_eq!(rt; refused_table(&with_byte(20, 7)), Some((6, 2)));
    assert_eq!(rt; refused_table(&with_byte(25, 1)), Some((6, 2)));
}

#[test]
fn refusals_of_section_admission_and_id(rt: HostRuntime) {
    assert_eq!(rt; refused_table(&with_byte(18, 0x20)), Some((7, 2)));
    assert_eq!(rt; refused_table(&with_byte(25, 5)), Some((8, 2)));
    assert_eq!(rt; refused_table(&with_byte(14, 0x04)), Some((9, 2)));
    assert_eq!(rt; refused_table(&with_byte(26, 0x08)), Some((9, 3)));
}

#[test]
fn a_buffer_too_small_is_left_alone(rt: HostRuntime) -> Result<(), Fail> {
    let tasks = sample_tasks()?;
    let mut out = [7u8; 37];
    match encode(CODES, &tasks, &mut out) {
        Ok(_) => Err(Fail::new("written past the buffer")),
        Err(fault) => {
            assert_eq!(rt; fault.number(), 18);
            assert!(rt; &out == &[7u8; 37]);
            Ok(())
        }
    }
}

#[test]
fn no_such_record(rt: HostRuntime) {
    assert_eq!(rt; refusal(record(&SAMPLE, 1)), None);
    assert_eq!(rt; refusal(record(&SAMPLE, 0)), Some((20, 0)));
    assert_eq!(rt; refusal(record(&SAMPLE, 4)), Some((20, 0)));
    assert_eq!(rt; refusal(record(&SAMPLE[0..37], 4)), Some((1, 0)));
}

// A table cut at any length is refused for its length, and so is one with a byte more.
#[test]
fn cut_at_every_length(rt: HostRuntime) {
    for len in 0..38 {
        assert_eq!(rt; refused_table(&SAMPLE[0..len]), Some((1, 0)));
    }
    let mut longer = [0u8; 39];
    longer[0..38].copy_from_slice(&SAMPLE);
    assert_eq!(rt; refused_table(&longer), Some((1, 0)));
}
