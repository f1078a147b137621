// One table by both planners: every question, every vertex, and that no order is cheaper than the one that is reported.
use crate::pair::Pair;
use costs::cost::Cost;
use law::command::Command;
use response::test::ResponseTest;
use second::every_order::{Price, Problem, try_all};
use second::reply::Reply;
use second::table::Row;
use second::times::{Times, bit, has};

// More advances than seven tasks take, even one vertex at a time.
const MOST_TURNS: u64 = 20_000;

fn ids_of(rows: &[Row], places: u64) -> u64 {
    rows.iter()
        .enumerate()
        .filter(|(place, _)| has(places, *place))
        .fold(0, |ids, (_, row)| ids | bit(row.id as usize))
}

// As the second planner narrows numbers for a candidate, to another width: one function for both would take the largest from its caller.
fn short_id(id: u64) -> u8 {
    u8::try_from(id).unwrap_or(u8::MAX)
}

impl<T: ResponseTest + Drop, C: Cost + Drop> Pair<'_, T, C> {
    // Every task below every set of others, and for each set two questions that are mostly refused.
    fn ask_all(&mut self, problem: &Problem) -> anyhow::Result<()> {
        for places in 0..bit(problem.rows.len()) {
            let above = ids_of(problem.rows, places);
            for row in problem.rows {
                self.ask(problem.times, short_id(row.id), above)?;
                self.counts.questions = self.counts.questions.saturating_add(1);
            }
            let other = self.random.between(0, 70);
            self.ask(problem.times, short_id(other), above)?;
            if let Some(row) = problem.rows.first() {
                let more = above | bit(self.random.between(0, 63) as usize);
                self.ask(problem.times, short_id(row.id), more)?;
            }
        }
        Ok(())
    }

    // Starts, advances by some count until the plan is finished and once more, and reports.
    fn run_through(&mut self, stride: u32) -> anyhow::Result<Reply> {
        let started = self.obey(Command::Start, 64)?;
        if started != Reply::Started {
            return Ok(started);
        }
        for _ in 0..MOST_TURNS {
            if !self.second.is_under_way() {
                break;
            }
            if let Reply::Advanced { count, .. } = self.obey(Command::Advance(stride), 0)? {
                self.counts.vertices = self.counts.vertices.saturating_add(count);
            }
        }
        let _ = self.obey(Command::Advance(stride), 0)?;
        self.list(600)?;
        self.obey(Command::Report, 64)
    }

    // All that is compared of the table that both hold.
    pub fn compare(&mut self, rows: &[Row]) -> anyhow::Result<()> {
        let kind = self.second.kind;
        let times = Times::new(self.rt.alloc(), kind.test, rows)?;
        let problem = Problem {
            kind,
            rows,
            times: &times,
        };
        self.ask_all(&problem)?;
        let stride = self.random.between(1, 300) as u32;
        let reported = price_of(self.run_through(stride)?);
        let least = if rows.is_empty() {
            None
        } else {
            try_all(&problem)
        };
        if reported != least {
            return self.differ("the least cost", &reported, &least);
        }
        if reported.is_some() {
            self.counts.ordered = self.counts.ordered.saturating_add(1);
            self.play(&problem)?;
        }
        Ok(())
    }
}

// The cost that was reported, if an order was; a function here, since only this comparison reads a cost off a reply.
fn price_of(reply: Reply) -> Option<Price> {
    match reply {
        Reply::Reported { first, second, .. } => Some(Price { first, second }),
        _ => None,
    }
}
