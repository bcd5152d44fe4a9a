// The walk's grid, filled once for a search: all that the walk reads of a list but its work; and how it is read.
//
// `OnGrid` is asked where it is needed and is no invariant of the type: `rate`, `bars_idle` and `floor` read any grid.
//
// A set is one number of crate `sets`. For the plain engine rule A's set is empty and no cores are marked as twins.
// Tasks and cores count from 0 here. A core is a plain number below 4, since it counts loops and is an index.
// Entries, rates and twins have one index each, as the walk's definitions count, and no rows within rows.
// Beside the grid stands `left`, the work left of each job at its counter, job * 16 + task; its last place, 16384, is the
// counter of a task in a slot where it is closed, and is always 0. It is a fixed array, since there is no heap.
#![tactic(auto)]

ghost use Rattle.std.specs.Prelude.{◌≡◌, ◌+◌, ◌≤◌, ◌<◌};
ghost use Rattle.grid.specs.Grid.{counter_on, rate_on, sets_on, bars_idle, twin_rank_on, floor_on, settled_on, first_due_on, due_on, starves as starves_of, tasks_on, OnGrid};

use tasks::Work;

#[derive(Drop)]
pub struct Grid {
    // For slot t and task v, at t * 16 + v: twice the counter of the task's job there, and 1 more in its highest-numbered slot.
    // One number of 16 bits and no struct, which would take twice the room on the stack.
    pub entries: [u16; 16384],
    // For each slot the first task whose job has its highest-numbered slot there; the task count if there is none, so that the
    // range of tasks from there on is empty.
    pub ends: [u16; 1024],
    // Of task v on core c, at v * 4 + c.
    pub rates: [u16; 64],
    // Rule A's set: the tasks whose positive rates are equal, on core 0 alone.
    pub even: u64,
    // The sets of the tasks whose rate on a core is positive.
    pub rated: u64,
    // Rule B's marks, at c * 4 + j: cores c and j are twins; read for j < c.
    pub twins: [bool; 16],
    pub tasks: u16,
    pub cores: u16,
    pub slots: u16,
}

impl Grid {
    // The counter of the work left of a task's job in a slot.
    pub fn counter(&self, slot: usize, task: usize) -> usize
        requires { OnGrid self.now slot × (task < tasks_on self.now) }
        ensures { (result ≡ counter_on self.now slot task) × (result ≤ 16384) }
    {
        usize::from(self.entries[slot * 16 + task]) / 2
    }

    // The rate of a task on a core.
    pub fn rate(&self, task: usize, core: usize) -> u16
        requires { (task < 16) × (core < 4) }
        ensures { result ≡ rate_on self.now task core }
    {
        self.rates[task * 4 + core]
    }

    // The sets of the tasks that may stand in a slot, where nothing stands yet.
    #[tactic(auto, using(crate::proofs::ReadLaws::left_none_yet, crate::proofs::ReadLaws::left_more, crate::proofs::ReadLaws::left_room, crate::proofs::ReadLaws::left_fits, crate::proofs::ReadLaws::sets_are))]
    pub fn enter(&self, left: &[u16; 16385], slot: usize) -> u64
        requires { OnGrid self.now slot }
        ensures { result ≡ sets_on self.now left.now slot }
    {
        let mut set: u64 = 0;
        for task in (0..usize::from(self.tasks)).rev() {
            let work = Work(left[self.counter(slot, task)]);
            set = sets::pushed(set, u64::from(work.0 != 0));
        }
        sets::common(sets::on_cores(set), self.rated)
    }

    // Whether rule A bars idle on a core: a task of the core's set is in rule A's set.
    #[tactic(auto, unfolding(crate::specs::Grid::bars_idle))]
    pub fn bars_idle(&self, sets: u64, core: usize) -> bool
        requires { core < 4 }
        ensures { result ≡ bars_idle self.now sets core }
    {
        sets::common(sets::of_core(sets, core), self.even) != 0
    }

    // The rank of the value on core j of a slot, if that is an earlier twin of a core; else 0. Idle ranks last.
    #[tactic(auto, using(crate::proofs::ReadLaws::twin_none, crate::proofs::ReadLaws::twin_idle, crate::proofs::ReadLaws::twin_task))]
    fn twin_rank(&self, table: &[u8; 4096], first: usize, core: usize, j: usize) -> usize
        requires { (core < 4) × (j < core) × (first + core ≤ 4096) }
        ensures { (result ≡ twin_rank_on self.now table.now first core j) × (result ≤ 65536) }
    {
        if !self.twins[core * 4 + j] {
            return 0;
        }
        match table[first + j] {
            0 => usize::from(self.tasks) + 1,
            task => usize::from(task),
        }
    }

    // The rank below which rule B bars a value: the highest on an earlier twin.
    #[tactic(auto, using(crate::proofs::ReadLaws::most_none, crate::proofs::ReadLaws::most_next), unfolding(crate::specs::Grid::floor_on))]
    pub fn floor(&self, table: &[u8; 4096], first: usize, core: usize) -> usize
        requires { (core < 4) × (first + core ≤ 4096) }
        ensures { result ≡ floor_on self.now table.now first core }
    {
        let mut most: usize = 0;
        // The bound says nothing new: with it the compiler knows that there are three turns at most.
        for j in 0..core.min(3) {
            most = most.max(self.twin_rank(table, first, core, j));
        }
        most
    }

    // Whether a task's job has no work left, if this is its highest-numbered slot.
    #[tactic(auto, using(crate::proofs::ReadLaws::settled_later, crate::proofs::ReadLaws::settled_end))]
    fn settled(&self, left: &[u16; 16385], slot: usize, task: usize) -> bool
        requires { OnGrid self.now slot × (task < tasks_on self.now) }
        ensures { result ≡ settled_on self.now left.now slot task }
    {
        let entry = self.entries[slot * 16 + task];
        if entry % 2 == 0 {
            return true;
        }
        let work = Work(left[self.counter(slot, task)]);
        work.0 == 0
    }

    // The counter of the first job that is due: that has its highest-numbered slot here and work left.
    #[tactic(auto, using(crate::proofs::ReadLaws::due_later, crate::proofs::ReadLaws::due_here, crate::proofs::ReadLaws::due_over), unfolding(crate::specs::Grid::first_due_on))]
    pub fn first_due(&self, left: &[u16; 16385], slot: usize) -> Option<usize>
        requires { OnGrid self.now slot }
        ensures { result ≡ first_due_on self.now left.now slot }
    {
        for task in usize::from(self.ends[slot])..usize::from(self.tasks) {
            if !self.settled(left, slot, task) {
                return Some(self.counter(slot, task));
            }
        }
        None
    }

    // The same on the slot's last core; on the others none is due.
    #[tactic(auto, using(crate::proofs::ReadLaws::due_yet, crate::proofs::ReadLaws::due_last))]
    pub fn due(&self, left: &[u16; 16385], slot: usize, core: usize) -> Option<usize>
        requires { OnGrid self.now slot × (core < 4) }
        ensures { result ≡ due_on self.now left.now slot core }
    {
        if core + 1 < usize::from(self.cores) {
            return None;
        }
        self.first_due(left, slot)
    }
}

// Whether a job is due, and it is not that of this counter.
#[tactic(auto, unfolding(crate::specs::Grid::starves))]
pub fn starves(due: Option<usize>, counter: usize) -> bool
    ensures { result ≡ starves_of due counter }
{
    due.is_some_and(|job| job != counter)
}
