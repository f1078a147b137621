// Making and reading a list of tasks.
ghost use Rattle.std.specs.Prelude.{◌≡◌, ◌+◌, ◌<◌, ◌≤◌, [], ◌∷◌, ◌++◌, length, Ok, Err};
ghost use Rattle.tasks.specs.Lists.{items};
ghost use Rattle.tasks.specs.Tasks.{plain, blank};
ghost use Rattle.tasks.specs.declared.fault.PlanFault.TheVariants.{Full};

use crate::fault::PlanFault;
use crate::list::TaskList;
use crate::task::Task;

// What stands in a list where there is no task: no list shows it. By hand, since no Default is derived for a struct with ghost fields.
impl Default for Task {
    ghost is_default = { λ t. plain t ≡ blank };

    fn default() -> Task {
        Task {
            id: 0,
            tier: 0,
            weight: 0,
            section: 0,
            execution: 1,
            deadline: 1,
            period: 1,
        }
    }
}

impl TaskList {
    // No Default: it cannot be derived beside a ghost field, and by hand it would be these lines in an impl of its own.
    pub fn new() -> TaskList
        ensures items { items result ≡ [] }
        ensures len { result.len ≡ 0 }
    {
        TaskList {
            tasks: [Task::default(); 16],
            len: 0,
        }
    }

    pub fn as_slice(&self) -> &[Task]
        ensures items { result.now ≡ items self.now }
        ensures len { length result.now ≡ self.now.len }
        ensures few { length result.now ≤ 16 }
    {
        &self.tasks[0..self.len]
    }

    // One task more at the end; the same list where sixteen are held.
    pub fn push(&mut self, task: Task) -> Result<(), PlanFault>
        ensures items { length (items self.old) < 16 → (result ≡ Ok tt) × (items self.new ≡ items self.old ++ task ∷ []) × (self.new.len ≡ self.old.len + 1) }
        ensures full { length (items self.old) ≡ 16 → (result ≡ Err Full) × (self.new ≡ self.old) }
    {
        let at = self.len;
        if at >= 16 {
            return Err(PlanFault::Full);
        }
        self.tasks[at] = task;
        self.len = at + 1;
        Ok(())
    }
}
