// Both planners side by side.
use crate::counts::Counts;
use crate::reply::{differ, of_answer, of_outcome};
use costs::cost::Cost;
use law::command::Command;
use plan::plan::Plan;
use response::test::ResponseTest;
use second::random::Random;
use second::reply::Reply;
use second::shadow::Shadow;
use second::table::packed;
use second::times::Times;
use std::alloc::{AllocError, Global};
use std::fmt::Debug;
use text::refusal_line;

// What stands in a buffer before it is lent, to see what stays.
pub const UNTOUCHED: u8 = 0xA5;

// How long the line of a refusal is at most. A number of this crate's own, since the first planner's constant is part of what is compared.
const LINE_LEN: usize = 32;

// What is seen after a command: the answer, the line of a refusal in 32 bytes, the lent buffer, the table of the held tasks in a buffer
// of 200 bytes, and the vertex bound.
#[derive(PartialEq, Debug, Drop)]
struct Sight {
    reply: Reply,
    line: Vec<u8>,
    buffer: Vec<u8>,
    table: Vec<u8>,
    bound: u64,
}

// A buffer of some size that begins with these bytes.
pub fn begun_with(heap: Global, bytes: &[u8], size: usize) -> Result<Vec<u8>, AllocError> {
    let mut buffer = Vec::from_slice(heap, bytes)?;
    buffer.resize(bytes.len().max(size), UNTOUCHED)?;
    Ok(buffer)
}

// The name of a command, and its number, if it has one; by hand, since its derived Debug would print all of a file, which is printed
// beside it.
fn named(command: Command) -> (&'static str, u64) {
    match command {
        Command::Load(file) => ("load", file.len() as u64),
        Command::Add(candidate) => ("add", u64::from(candidate.id)),
        Command::Drop(id) => ("drop", u64::from(id)),
        Command::Start => ("start", 0),
        Command::Advance(count) => ("advance", u64::from(count)),
        Command::Stop => ("stop", 0),
        Command::Report => ("report", 0),
    }
}

// Both planners, the random numbers that tables and commands are drawn from, and what was compared so far.
#[derive(Drop)]
pub struct Pair<'a, T: ResponseTest + Drop, C: Cost + Drop> {
    pub rt: &'a HostRuntime,
    pub first: Plan<T, C>,
    pub second: Shadow,
    pub random: Random,
    pub counts: Counts,
}

impl<T: ResponseTest + Drop, C: Cost + Drop> Pair<'_, T, C> {
    // The planners write answers, refusals and tables in different ways, so each has a function: a trait over both would hold the same lines.
    fn first_sight(&mut self, command: Command, size: usize) -> Result<Sight, AllocError> {
        let heap = self.rt.alloc();
        let mut buffer = vec![in heap; UNTOUCHED; size]?;
        let answer = self.first.apply(command, &mut buffer);
        let mut line = vec![in heap; UNTOUCHED; LINE_LEN]?;
        if let Err(fault) = answer {
            let _ = refusal_line(fault, &mut line);
        }
        let mut table = vec![in heap; UNTOUCHED; 200]?;
        let _ = self.first.write(&mut table);
        Ok(Sight {
            reply: of_outcome(answer),
            line,
            buffer,
            table,
            bound: self.first.vertex_bound(),
        })
    }

    fn second_sight(&mut self, command: Command, size: usize) -> Result<Sight, AllocError> {
        let heap = self.rt.alloc();
        let mut buffer = vec![in heap; UNTOUCHED; size]?;
        let mut line = String::new(heap);
        let reply = match self.second.obey(command, &mut buffer) {
            Ok(reply) => reply,
            Err(failure) => {
                let refusal = failure.refusal()?;
                writeln!(line, "{refusal}")?;
                refusal.into()
            }
        };
        Ok(Sight {
            reply,
            line: begun_with(heap, line.as_bytes(), LINE_LEN)?,
            buffer,
            table: begun_with(heap, &self.table()?, 200)?,
            bound: self.second.vertex_bound(),
        })
    }

    // The table of the tasks that both should hold.
    pub fn table(&self) -> Result<Vec<u8>, AllocError> {
        packed(self.rt.alloc(), self.second.kind, self.second.rows.all())
    }

    // Prints a difference over the table that both should hold.
    pub fn differ<A: Debug, B: Debug>(
        &self,
        what: &str,
        first: &A,
        second: &B,
    ) -> anyhow::Result<()> {
        differ(self.rt, what, &self.table()?, first, second)
    }

    // Gives both one command, with a buffer of some size, and compares what is seen. Returns the answer. Command and size are handed on twice
    // from here: a struct of both would be made for that alone.
    pub fn obey(&mut self, command: Command, size: usize) -> anyhow::Result<Reply> {
        let first = self.first_sight(command, size)?;
        let second = self.second_sight(command, size)?;
        if first != second {
            let (name, number) = named(command);
            // two calls: one call would build the table also where it is not printed
            match command {
                Command::Load(file) => differ(self.rt, name, file, &(number, first), &second)?,
                _ => self.differ(name, &(number, first), &second)?,
            }
        }
        Ok(second.reply)
    }

    // Asks both for the time of a task below a set of ids.
    pub fn ask(&self, times: &Times, id: u8, above: u64) -> anyhow::Result<()> {
        let first = of_answer(self.first.ask(id, above));
        let second = self
            .second
            .answer(times, u64::from(id), above)
            .map_or_else(Reply::from, Reply::Answered);
        if first != second {
            self.differ("a question", &(id, above, first), &second)?;
        }
        Ok(())
    }
}
