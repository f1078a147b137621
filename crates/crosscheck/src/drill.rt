// Random commands, many of them refused. Drawn numbers choose by a `match`, since its patterns show the odds, and each arm sets or makes
// another thing.
use crate::damage::scrambled;
use crate::pair::Pair;
use costs::cost::Cost;
use law::command::Command;
use response::test::ResponseTest;
use second::draw::{draw, draw_one};
use second::random::Random;
use second::table::{Row, Test, packed};
use tasks::task::Candidate;

// A start is given with so many tasks at most.
const MOST_TASKS: usize = 6;

// One field set to a number at the edge of its range or beyond.
fn spoiled(random: &mut Random, row: Row) -> Row {
    let edge = random.between(0, 1);
    match random.between(0, 7) {
        0 => Row {
            id: 63 + edge,
            ..row
        },
        1 => Row {
            tier: 1 + edge,
            ..row
        },
        2 => Row {
            weight: 65_535 + edge,
            ..row
        },
        3 => Row {
            section: 4_095 + edge,
            ..row
        },
        4 => Row {
            execution: 1_048_575 * edge,
            ..row
        },
        5 => Row {
            deadline: 1_048_575 + edge,
            ..row
        },
        6 => Row {
            period: 1_048_575 + edge,
            ..row
        },
        _ => Row {
            section: row.execution,
            ..row
        },
    }
}

fn drawn_candidate(random: &mut Random, test: Test) -> Candidate {
    let row = draw_one(random, test);
    if random.once_in(3) {
        spoiled(random, row).into()
    } else {
        row.into()
    }
}

fn drawn_count(random: &mut Random) -> u32 {
    match random.between(0, 5) {
        0 => 0,
        1 => 1_000_000,
        2 => 1_000_001,
        _ => random.between(1, 20) as u32,
    }
}

impl<T: ResponseTest + Drop, C: Cost + Drop> Pair<'_, T, C> {
    // Gives both so many random commands.
    pub fn drill(&mut self, commands: u64) -> anyhow::Result<()> {
        for _ in 0..commands {
            self.counts.commands = self.counts.commands.saturating_add(1);
            if self.random.once_in(12) {
                self.drill_load()?;
            } else {
                let size = self.random.between(0, 64) as usize;
                let command = self.drawn_command();
                let _ = self.obey(command, size)?;
            }
            if self.random.once_in(8) {
                let size = self.random.between(511, 512) as usize;
                self.list(size)?;
            }
        }
        Ok(())
    }

    // A command that holds no file. Many tasks are never started with.
    fn drawn_command(&mut self) -> Command<'static> {
        let few = self.second.rows.all().len() <= MOST_TASKS;
        let random = &mut self.random;
        match random.between(0, 10) {
            0..=3 => Command::Add(drawn_candidate(random, self.second.kind.test)),
            4 => Command::Drop((random.between(0, 64) & 0xff) as u8),
            5 | 6 if few => Command::Start,
            7 | 8 => Command::Advance(drawn_count(random)),
            9 => Command::Report,
            _ => Command::Stop,
        }
    }

    fn drill_load(&mut self) -> anyhow::Result<()> {
        let heap = self.rt.alloc();
        let kind = self.second.kind;
        let count = self.random.between(0, 5);
        let rows = draw(&mut self.random, kind.test, count);
        let mut file = packed(heap, kind, rows.all())?;
        if self.random.once_in(2) {
            file = scrambled(heap, &file, &mut self.random)?;
        }
        let _ = self.obey(Command::Load(&file), 3)?;
        Ok(())
    }
}
