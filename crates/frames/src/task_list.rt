// The tasks that a reader has read: an array with a count.
ghost use Rattle.std.specs.Prelude.{◌≡◌, ◌-◌, ◌≤◌, length, drop, replicate};
ghost use Rattle.frames.specs.Blank.{blank};

use tasks::{MAX_TASKS, Task};

// The first places hold the tasks; those behind them are blank.
#[derive(Clone, Copy)]
pub(crate) struct TaskList {
    places: [Task; MAX_TASKS],
    count: usize,
    ghost behind: { (count ≤ 16) × (length places ≡ 16) × (drop count places ≡ replicate (16 - count) blank) },
}

impl TaskList {
    ghost use Rattle.std.specs.Prelude.{◌≡◌, ◌<◌, [], ◌∷◌, ◌++◌, length};
    ghost use Rattle.frames.specs.Told.{listed};

    pub(crate) fn new() -> TaskList
        ensures { listed result ≡ [] }
    {
        TaskList {
            places: [Task::default(); MAX_TASKS],
            count: 0,
        }
    }

    pub(crate) fn len(&self) -> usize
        ensures { result ≡ length (listed self.now) }
    {
        self.count
    }

    pub(crate) fn as_slice(&self) -> &[Task]
        ensures { result.now ≡ listed self.now }
    {
        &self.places[..self.count]
    }

    pub(crate) fn push(&mut self, task: Task)
        requires { length (listed self.old) < 16 }
        ensures { listed self.new ≡ listed self.old ++ task ∷ [] }
    {
        self.places[self.count] = task;
        self.count += 1;
    }
}
