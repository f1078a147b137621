// Damaged tables: cut at every length, longer than they say, with each bit flipped, and with random bytes.
use crate::pair::Pair;
use crate::record::same_record;
use costs::cost::Cost;
use law::command::Command;
use response::test::ResponseTest;
use second::random::Random;
use second::reply::Reply;
use std::alloc::{AllocError, Global};

impl<T: ResponseTest + Drop, C: Cost + Drop> Pair<'_, T, C> {
    // Loads a file that may be no table.
    pub fn load(&mut self, file: &[u8]) -> anyhow::Result<()> {
        match self.obey(Command::Load(file), 0)? {
            Reply::Done => self.counts.taken = self.counts.taken.saturating_add(1),
            _ => self.counts.refused = self.counts.refused.saturating_add(1),
        }
        for number in [0, 1, 2, 7, 8, 18] {
            same_record(self.rt, file, number)?;
        }
        Ok(())
    }

    // Loads every damaged form of a table.
    pub fn damage(&mut self, file: &[u8]) -> anyhow::Result<()> {
        let heap = self.rt.alloc();
        for length in 0..file.len() {
            self.load(&file[..length])?;
        }
        for place in 0..file.len() {
            for power in 0..8u32 {
                self.load(&flipped(heap, file, place, 1 << power)?)?;
            }
        }
        let mut longer = Vec::from_slice(heap, file)?;
        for _ in 1..14u32 {
            longer.push(1)?;
            self.load(&longer)?;
        }
        for _ in 0..32u32 {
            let bad = scrambled(heap, file, &mut self.random)?;
            self.load(&bad)?;
        }
        Ok(())
    }
}

// This and `scrambled` copy the file themselves: the copy is one line, and the change as a closure would take more.
fn flipped(heap: Global, file: &[u8], place: usize, mask: u8) -> Result<Vec<u8>, AllocError> {
    let mut bad = Vec::from_slice(heap, file)?;
    if let Some(byte) = bad.get_mut(place) {
        *byte ^= mask;
    }
    Ok(bad)
}

// With some random bytes at random places, mostly behind the format and the codes.
pub fn scrambled(heap: Global, file: &[u8], random: &mut Random) -> Result<Vec<u8>, AllocError> {
    let mut bad = Vec::from_slice(heap, file)?;
    for _ in 0..random.between(1, 4) {
        let place = random.between(1, file.len() as u64) as usize;
        let drawn = (random.between(0, 255) & 0xff) as u8;
        if let Some(byte) = bad.get_mut(place) {
            *byte = drawn;
        }
    }
    Ok(bad)
}
