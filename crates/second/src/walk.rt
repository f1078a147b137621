// The second planner's branch and bound. It keeps one path and no stack: the vertices are met in the order of their paths, so the next one is
// below the path, or beside it, or beside one of its ancestors.
ghost use Rattle.std.specs.Prelude.{◌≡◌, []};
ghost use Rattle.second.specs.Lists.{levels};

use crate::every_order::{Path, Price, Problem};
use crate::times::{bit, every, has};

// The best order, its price, and how many vertices were met.
#[derive(Clone, Copy)]
pub struct Walk {
    pub best: Path,
    pub price: Price,
    pub vertices: u64,
}

// No walk over seven tasks meets as many.
const MOST_VERTICES: u64 = 1_000_000;

// Of the tasks of a set the cheapest below all others of the set; the first of equals.
fn lowest(problem: &Problem, unplaced: u64) -> Option<usize> {
    (0..problem.rows.len())
        .filter(|task| has(unplaced, *task))
        .filter_map(|task| Some((problem.price(task, unplaced & !bit(task))?, task)))
        .min()
        .map(|(_, task)| task)
}

// The first order, from the lowest level up; none where no order passes.
fn first_order(problem: &Problem) -> Option<Path> {
    let count = problem.rows.len();
    let mut upward = Path::new();
    let mut unplaced = every(count);
    for _ in 0..count {
        let task = lowest(problem, unplaced)?;
        upward.push(task);
        unplaced &= !bit(task);
    }
    let mut order = Path::new();
    for task in upward.all().iter().rev() {
        order.push(*task);
    }
    Some(order)
}

// The price of a path and of every other task right below it; none where one is late.
fn bound(problem: &Problem, path: &[usize], price: Price) -> Option<Price> {
    let placed = path.iter().fold(0, |set, task| set | bit(*task));
    let mut total = price;
    for task in (0..problem.rows.len()).filter(|task| !has(placed, *task)) {
        total = total + problem.price(task, placed)?;
    }
    Some(total)
}

impl Walk {
    // Before any walk.
    pub fn none() -> Walk
        ensures { (levels result.best ≡ []) × (result.price ≡ record { first = 0; second = 0 }) × (result.vertices ≡ 0) }
    {
        Walk {
            best: Path::new(),
            price: Price::zero(),
            vertices: 0,
        }
    }

    // Looks at the vertex of a path, and says whether the vertices below it are to be met.
    fn meet(&mut self, problem: &Problem, path: &Path) -> bool {
        self.vertices = self.vertices.saturating_add(1);
        let tasks = path.all();
        let Some(price) = problem.path_price(tasks) else {
            return false;
        };
        if tasks.len() < problem.rows.len() {
            return bound(problem, tasks, price).is_some_and(|bound| bound < self.price);
        }
        if price < self.price {
            self.best = *path;
            self.price = price;
        }
        false
    }
}

// The least task from `from` on that is not on the path.
fn beside(path: &[usize], count: usize, from: usize) -> Option<usize> {
    (from..count).find(|task| !path.contains(task))
}

// Cuts a path back to where the next path goes on, and gives the next path's last task; none where there is no next path.
fn next_task(path: &mut Path, count: usize, below: bool) -> Option<usize> {
    if below && let Some(task) = beside(path.all(), count, 0) {
        return Some(task);
    }
    for _ in 0..path.all().len() {
        let last = path.pop()?;
        if let Some(task) = beside(path.all(), count, last.saturating_add(1)) {
            return Some(task);
        }
    }
    None
}

// The walk over the tasks of a table; none where no order passes, or there is no task.
pub fn walk_tree(problem: &Problem) -> Option<Walk> {
    if problem.rows.is_empty() {
        return None;
    }
    let best = first_order(problem)?;
    let price = problem.path_price(best.all())?;
    let mut found = Walk {
        best,
        price,
        vertices: 0,
    };
    let mut path = Path::new();
    let mut below = true;
    for _ in 0..MOST_VERTICES {
        let Some(task) = next_task(&mut path, problem.rows.len(), below) else {
            break;
        };
        path.push(task);
        below = found.meet(problem, &path);
    }
    Some(found)
}
