// The walk from core to core, and from the last core to the next slot, over a grid that is filled once.
//
// `sets` has the tasks that may still stand in the slot, for each core: worked out once a slot.
// The tries are counted up to the largest number in place of the limit.
#![tactic(auto)]

ghost use Rattle.std.specs.Prelude.{◌≡◌, ◌+◌, ◌-◌, ◌≤◌, ◌<◌, set};
ghost use Rattle.grid.specs.Grid.{sets_on, cores_on, OnGrid};
ghost use Rattle.walk.specs.Machine.{Stands, SameLoans, Ran, RanAfter};
ghost use Rattle.laws.specs.Lists.{nth};

use grid::{Grid, starves};
use tasks::{Slots, Work, work_in};

// The tries are counted up to here.
pub const FULL: u32 = u32::MAX;

// How a walk ends. No failure is among the three, so there is no Result and no `?`; and by the machine code a Result of the tries
// goes through memory. The verdicts and their numbers are the search's (`Outcome` of `search`).
#[derive(Clone, Copy, PartialEq, Eq)]
pub enum End {
    Found,
    NoneFound,
    Stopped,
}

// An end and the tries.
#[derive(Clone, Copy)]
pub struct Walked {
    pub end: End,
    pub tries: u32,
}

// Takes what a core of this rate does in a slot off a counter of work left, and gives what it was.
fn put(left: &mut [u16; 16385], counter: usize, rate: u16) -> Work
    requires { counter ≤ 16384 }
    ensures { (result.0 ≡ nth left.old counter) × (left.new ≡ set left.old counter (nth left.old counter - rate)) }
{
    let had = Work(left[counter]);
    let done = work_in(rate, Slots(1));
    left[counter] = had.0.saturating_sub(done.0);
    had
}

// A walk under way: the grid, the table, the work left of each job at its counter, and the tries.
#[derive(Drop)]
struct Walker<'a> {
    grid: &'a Grid,
    table: &'a mut [u8; 4096],
    left: &'a mut [u16; 16385],
    tries: u32,
}

impl Walker<'_> {
    // Tries each value in the cell of a core, in order: the tasks that may stand there, and then idle. On the slot's last core a
    // value that is not of the first job due leaves that one starved: it is counted without a call.
    #[cycle(cell_finish_slot)]
    fn cell(&mut self, slot: usize, core: usize, sets: u64) -> End
        requires { Stands self.old.grid.now slot core sets }
        ensures same { SameLoans self.old self.new }
        ensures ran { Ran self.old.grid.now slot core sets self.old.table.now self.old.left.now self.old.tries
            result self.new.table.now self.new.left.now self.new.tries }
    {
        let grid = self.grid;
        let first = slot * usize::from(grid.cores);
        let floor = grid.floor(self.table, first, core);
        let due = grid.due(self.left, slot, core);
        let mut rest = sets::from_rank(sets::of_core(sets, core), floor);
        while rest != 0 {
            let task = sets::lowest(rest);
            rest = sets::without(rest, task);
            if self.tries == FULL {
                return End::Stopped;
            }
            self.tries += 1;
            self.table[first + core] = (task + 1) as u8;
            let counter = grid.counter(slot, task);
            if starves(due, counter) {
                continue;
            }
            let had = put(self.left, counter, grid.rate(task, core));
            let end = self.finish_slot(slot, core, sets::without(sets, task));
            match end {
                End::NoneFound => self.left[counter] = had.0,
                End::Found | End::Stopped => return end,
            }
        }
        if grid.bars_idle(sets, core) {
            return End::NoneFound;
        }
        if self.tries == FULL {
            return End::Stopped;
        }
        self.tries += 1;
        self.table[first + core] = 0;
        if due.is_some() {
            return End::NoneFound;
        }
        self.finish_slot(slot, core, sets)
    }

    // After the cell of a core: the next core; after the last, where no job is starved, the next slot; after the last slot the table is found.
    #[cycle(cell_finish_slot)]
    fn finish_slot(&mut self, slot: usize, core: usize, sets: u64) -> End
        requires { Stands self.old.grid.now slot core sets }
        ensures same { SameLoans self.old self.new }
        ensures ran { RanAfter self.old.grid.now slot core sets self.old.table.now self.old.left.now self.old.tries
            result self.new.table.now self.new.left.now self.new.tries }
    {
        if core + 1 < usize::from(self.grid.cores) {
            return self.cell(slot, core + 1, sets);
        }
        if self.grid.first_due(self.left, slot).is_some() {
            return End::NoneFound;
        }
        if slot + 1 < usize::from(self.grid.slots) {
            return self.next_slot(slot);
        }
        End::Found
    }

    // The next slot, from its first core on. Out of line, so that `finish_slot` saves no registers where it stays in the slot.
    #[inline(never)]
    #[cycle(cell_finish_slot)]
    fn next_slot(&mut self, slot: usize) -> End
        requires { OnGrid self.old.grid.now (slot + 1) × (0 < cores_on self.old.grid.now) }
        ensures same { SameLoans self.old self.new }
        ensures ran { Ran self.old.grid.now (slot + 1) 0 (sets_on self.old.grid.now self.old.left.now (slot + 1)) self.old.table.now self.old.left.now self.old.tries
            result self.new.table.now self.new.left.now self.new.tries }
    {
        let sets = self.grid.enter(self.left, slot + 1);
        self.cell(slot + 1, 0, sets)
    }
}

// The walk from the first cell.
pub fn walk(table: &mut [u8; 4096], grid: &Grid, left: &mut [u16; 16385], tries: u32) -> Walked
    requires { OnGrid grid.now 0 × (0 < cores_on grid.now) }
    ensures { Ran grid.now 0 0 (sets_on grid.now left.old 0) table.old left.old tries result.end table.new left.new result.tries }
{
    let sets = grid.enter(left, 0);
    let mut walker = Walker {
        grid,
        table,
        left,
        tries,
    };
    let end = walker.cell(0, 0, sets);
    Walked {
        end,
        tries: walker.tries,
    }
}
