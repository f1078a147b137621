// The second planner as a plan: its tasks, how far its walk is, and what it answers to each command.
ghost use Rattle.std.specs.Prelude.{◌≡◌};
ghost use Rattle.second.specs.Lists.{levels};

use crate::every_order::Problem;
use crate::reply::{Failure, Reason, Refusal, Reply};
use crate::table::{Kind, Row, Rows, read};
use crate::times::{Times, bit, has, time};
use crate::walk::{Walk, walk_tree};
use law::command::Command;
use std::alloc::Global;

#[derive(Clone, Copy)]
pub struct Shadow {
    heap: Global,
    pub kind: Kind,
    pub rows: Rows,
    // how many vertices of a walk that was begun are left
    left: Option<u64>,
    // what the last walk found; it stays when the walk is given up
    found: Walk,
}

impl Shadow {
    pub fn new(heap: Global, kind: Kind) -> Shadow {
        Shadow {
            heap,
            kind,
            rows: Rows::new(),
            left: None,
            found: Walk::none(),
        }
    }

    // By a match: a command is data of the caller, and the check sees that none is missing.
    pub fn obey(&mut self, command: Command, out: &mut [u8]) -> Result<Reply, Failure> {
        match command {
            Command::Load(file) => Ok(self.load(file)?),
            Command::Add(candidate) => Ok(self.add(candidate.into())?),
            Command::Drop(id) => Ok(self.give_up(u64::from(id))?),
            Command::Start => self.start(),
            Command::Advance(count) => Ok(self.advance(u64::from(count))?),
            Command::Stop => Ok(self.stop()?),
            Command::Report => Ok(self.report(out)?),
        }
    }

    pub fn is_under_way(&self) -> bool {
        self.left.is_some_and(|left| left > 0)
    }

    // The order that the last walk found, also once the walk is given up; none before a walk.
    pub fn order(&self) -> &[usize]
        ensures { result.now ≡ levels self.now.found.best }
    {
        self.found.best.all()
    }

    // What the walk found, once it is finished.
    fn finished(&self) -> Result<&Walk, Reason> {
        match self.left {
            None => Err(Reason::NotBegun),
            Some(left) if left > 0 => Err(Reason::NotFinished),
            Some(_) => Ok(&self.found),
        }
    }

    // Refuses other tasks, or another walk, while one is under way.
    fn at_rest(&self) -> Result<(), Reason> {
        if self.is_under_way() {
            Err(Reason::UnderWay)
        } else {
            Ok(())
        }
    }

    // The place of the task of an id.
    fn find(&self, id: u64) -> Result<usize, Reason> {
        self.rows.find(id).ok_or(Reason::UnknownId)
    }

    // Other tasks; a walk is given up.
    fn hold(&mut self, rows: Rows) -> Reply {
        self.rows = rows;
        self.left = None;
        Reply::Done
    }

    fn load(&mut self, file: &[u8]) -> Result<Reply, Refusal> {
        self.at_rest()?;
        let rows = read(self.kind, file)?;
        Ok(self.hold(rows))
    }

    fn add(&mut self, row: Row) -> Result<Reply, Reason> {
        self.at_rest()?;
        row.check(self.kind.test)?;
        if self.find(row.id).is_ok() {
            return Err(Reason::IdTaken);
        }
        if self.rows.all().len() == 16 {
            return Err(Reason::TooManyTasks);
        }
        let rows = self.rows.with(row);
        Ok(self.hold(rows))
    }

    fn give_up(&mut self, id: u64) -> Result<Reply, Reason> {
        self.at_rest()?;
        let _ = self.find(id)?;
        let rows = self.rows.without(id);
        Ok(self.hold(rows))
    }

    fn start(&mut self) -> Result<Reply, Failure> {
        self.at_rest()?;
        let rows = self.rows.all();
        if rows.is_empty() {
            return Err(Reason::NoTasks.into());
        }
        let times = Times::new(self.heap, self.kind.test, rows)?;
        let problem = Problem {
            kind: self.kind,
            rows,
            times: &times,
        };
        let found = walk_tree(&problem).ok_or(Reason::AlwaysLate)?;
        self.left = Some(found.vertices);
        self.found = found;
        Ok(Reply::Started)
    }

    fn advance(&mut self, most: u64) -> Result<Reply, Reason> {
        let left = self.left.ok_or(Reason::NotBegun)?;
        if most > 1_000_000 {
            return Err(Reason::TooManySteps);
        }
        let count = left.min(most);
        self.left = Some(left - count);
        Ok(Reply::Advanced {
            count,
            finished: count == left,
        })
    }

    fn stop(&mut self) -> Result<Reply, Reason> {
        self.left.take().ok_or(Reason::NotBegun)?;
        Ok(Reply::Done)
    }

    // The task of a level, and its time below the tasks of a set. The tasks of a found order are held and in time, so neither default is ever
    // shown.
    fn level(&self, task: usize, above: u64) -> (u64, u64) {
        let rows = self.rows.all();
        let id = rows.get(task).copied().unwrap_or_default().id;
        let response = time(self.kind.test, rows, task, above).unwrap_or(0);
        (id, response)
    }

    // A level of a report is one number: the id, and 26 bits that the time ends.
    fn report(&self, out: &mut [u8]) -> Result<Reply, Reason> {
        let found = self.finished()?;
        let order = found.best.all();
        let size = order.len().saturating_mul(4);
        if out.len() < size {
            return Err(Reason::BufferTooSmall);
        }
        // the set above grows with the loop, here and wherever an order is gone through: an iterator that hands it out would need a type of its own
        let mut above = 0;
        for (task, place) in order.iter().zip(out.chunks_exact_mut(4)) {
            let (id, response) = self.level(*task, above);
            let number = id.wrapping_mul(1 << 26).wrapping_add(response);
            place.copy_from_slice(&number.to_be_bytes()[4..]);
            above |= bit(*task);
        }
        Ok(Reply::Reported {
            bytes: size as u64,
            first: found.price.first,
            second: found.price.second,
        })
    }

    // The lines of a listing, for a buffer of some size.
    pub fn listing(&self, size: usize) -> Result<String, Failure> {
        let found = self.finished()?;
        if size < 512 {
            return Err(Reason::BufferTooSmall.into());
        }
        let mut text = String::new(self.heap);
        let mut above = 0;
        for (level, task) in (1u64..).zip(found.best.all()) {
            let (id, response) = self.level(*task, above);
            writeln!(text, "{level} {id} {response}")?;
            above |= bit(*task);
        }
        let first = found.price.first;
        let second = found.price.second;
        writeln!(text, "cost {first} {second}")?;
        Ok(text)
    }

    // The vertices of the whole tree, counted from the lowest level up.
    pub fn vertex_bound(&self) -> u64 {
        (1..)
            .zip(self.rows.all())
            .fold(0, |below: u64, (tasks, _)| {
                below.saturating_add(1).saturating_mul(tasks)
            })
    }

    // The time of a task with a set of ids above it; none where it is late.
    pub fn answer(&self, times: &Times, id: u64, above: u64) -> Result<Option<u64>, Refusal> {
        let task = self.find(id)?;
        if has(above, id as usize) {
            return Err(Reason::AboveItself.into());
        }
        let mut places = 0;
        for other in 0..64u64 {
            if has(above, other as usize) {
                places |= bit(self.find(other)?);
            }
        }
        Ok(times.get(task, places))
    }
}
