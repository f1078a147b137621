// How a ranking grows.
ghost use Rattle.std.specs.Prelude.{◌≡◌, ◌<◌, false, length};
ghost use Rattle.tasks.specs.Sets.{holds};
ghost use Rattle.orders.specs.Search.{nothing_placed, below};
ghost use Rattle.search.specs.Ranks.{ranked, ranks};

use super::Ranking;
use tasks::set::TaskSet;

impl Ranking {
    // No Default: it cannot be derived beside a ghost field, and by hand it would be these lines in an impl of its own.
    pub fn none() -> Ranking
        ensures { ranked result ≡ nothing_placed }
    {
        Ranking {
            placed: TaskSet::EMPTY,
            order: [0; 16],
            times: [0; 16],
        }
    }

    // The level of the last task: the number of ones in the word of the placed tasks.
    pub fn level(&self) -> usize
        ensures { result ≡ length (ranks self.now) }
    {
        self.placed.len() as usize
    }

    // One task more, at the next level.
    pub(crate) fn with(&self, task: u8, time: u32) -> Ranking
        requires low { task < 16 }
        requires free { holds self.now.placed.word task ≡ false }
        ensures { ranked result ≡ below (ranked self.now) task time }
    {
        let mut order = self.order;
        let mut times = self.times;
        let position = usize::from(task);
        order[self.level()] = task;
        times[position] = time;
        Ranking {
            placed: self.placed.with(position),
            order,
            times,
        }
    }
}
