// The walk's grid of a sound list: the entries, the marks of the slots in which jobs end, the rates, and what rules A and B test.
#![tactic(auto)]

ghost use Rattle.std.specs.Prelude.{◌≡◌, ℕ, suc, ◌≤◌, ◌<◌, length};
ghost use Rattle.laws.specs.Lists.{filled};
ghost use Rattle.tasks.specs.Task.{task};
ghost use Rattle.windows.specs.Answer.{Fit};
ghost use Rattle.grid.specs.GridFor.{is_quick as quick_engine};
ghost use Rattle.fill.specs.Grid.{entry_for, entry_at, entries_of, end_mark, rates_of, even_pair, even_row, quick_bit, evens_of, rated_bit, rated_row, rated_of, cores_twin, twins_of, grid_of};

use grid::Grid;
use tasks::{Rates, Slots, Task};

// Twice the counter of a task in a slot where it is closed. A counter like the others and no Option,
// which would take twice the room: the walk reads it untested.
const CLOSED: u16 = 32768;

// The grid's entry for task v in a slot: twice the counter of its job, and 1 more where nothing of the job is to come. (The counter
// is that of `counter_of` of `faults`, which is an index.)
#[tactic(auto, using(crate::proofs::FillLaws::few_jobs, crate::proofs::FillLaws::entry_end, crate::proofs::FillLaws::entry_early, crate::proofs::FillLaws::entry_closed))]
fn entry(len: Slots, t: Task, v: u16, slot: Slots) -> u16
    requires { Fit len.0 t × (v < 16) × (slot.0 < len.0) }
    ensures { result ≡ entry_for len.0 t (suc v) slot.0 }
{
    let here = windows::open_in(len, t, slot);
    if here.opens {
        let counter = here.job * 16 + v;
        if here.coming.0 == 0 {
            2 * counter + 1
        } else {
            2 * counter
        }
    } else {
        CLOSED
    }
}

// The entry at place v of a slot: that of the task there, 0 where the list has none. That a list has at most 16 tasks is asked of
// the slice, here and below, as `fill_grid` asks it.
#[tactic(auto, using(crate::proofs::FillLaws::entry_there, crate::proofs::FillLaws::entry_behind))]
fn entry_at(tasks: &[Task], len: Slots, slot: u16, v: u16) -> u16
    requires { (length tasks.now ≤ 16) × ((k : ℕ) → k < length tasks.now → Fit len.0 (task tasks.now (suc k))) × (slot < len.0) × (v < 16) }
    ensures { result ≡ entry_at tasks.now len.0 slot v }
{
    match tasks.get(usize::from(v)) {
        Some(task) => entry(len, *task, v, Slots(slot)),
        None => 0,
    }
}

// The entries, slot by slot, sixteen places each.
#[tactic(auto, using(crate::proofs::FillLaws::rows_none, crate::proofs::FillLaws::rows_next, laws::proofs::ListLaws::filled_none, laws::proofs::ListLaws::filled_next))]
fn fill_entries(entries: &mut [u16; 16384], tasks: &[Task], len: Slots)
    requires { (length tasks.now ≤ 16) × (len.0 ≤ 1024) × ((k : ℕ) → k < length tasks.now → Fit len.0 (task tasks.now (suc k))) }
    ensures { entries.new ≡ entries_of tasks.now len.0 entries.old }
{
    for slot in 0..len.0 {
        for v in 0..16 {
            entries[usize::from(slot * 16 + v)] = entry_at(tasks, len, slot, v);
        }
    }
}

// The first task whose job has its highest-numbered slot in this slot, by its entry; n if there is none.
#[tactic(auto, using(crate::proofs::FillLaws::first_ends, crate::proofs::FillLaws::none_ends))]
fn end_mark(entries: &[u16; 16384], n: usize, slot: usize) -> u16
    requires { (n ≤ 16) × (slot < 1024) }
    ensures { result ≡ end_mark entries.now n slot }
{
    for v in 0..n {
        if entries[slot * 16 + v] % 2 != 0 {
            return v as u16;
        }
    }
    n as u16
}

// The marks of the slots in which jobs end, by the entries.
#[tactic(auto, using(laws::proofs::ListLaws::filled_none, crate::proofs::FillLaws::next_stored))]
fn fill_ends(ends: &mut [u16; 1024], entries: &[u16; 16384], n: usize, len: Slots)
    requires { (n ≤ 16) × (len.0 ≤ 1024) }
    ensures { ends.new ≡ filled ends.old 0 len.0 (end_mark entries.now n) }
{
    for slot in 0..usize::from(len.0) {
        ends[slot] = end_mark(entries, n, slot);
    }
}

// The rates, task by task.
#[tactic(auto, using(crate::proofs::FillLaws::rows_none, crate::proofs::FillLaws::rows_next, laws::proofs::ListLaws::filled_none, laws::proofs::ListLaws::filled_next))]
fn rates(tasks: &[Task]) -> [u16; 64]
    requires { length tasks.now ≤ 16 }
    ensures { result ≡ rates_of tasks.now }
{
    let mut rates = [0; 64];
    for (v, task) in tasks.iter().enumerate() {
        for core in 0..4 {
            rates[v * 4 + core] = u16::from(task.rates.on(core));
        }
    }
    rates
}

// Whether two rates are equal, where both are positive.
#[tactic(auto, unfolding(crate::specs::Grid::even_pair))]
fn even_pair(x: u8, y: u8) -> bool
    ensures { result ≡ even_pair x y }
{
    x == 0 || y == 0 || x == y
}

// Whether all positive rates of a task are equal.
#[tactic(auto, using(laws::proofs::TestLaws::all_false, laws::proofs::TestLaws::all_true), unfolding(crate::specs::Grid::even_row))]
fn even_row(rates: Rates) -> bool
    ensures { result ≡ even_row rates }
{
    for a in 0..4 {
        for b in 0..4 {
            if !even_pair(rates.on(a), rates.on(b)) {
                return false;
            }
        }
    }
    true
}

// Rules A and B are those of the quick engine. An engine is its number here, 0 the plain one and every other the quick one, since
// `fill_grid` promises a grid for each.
fn is_quick(engine: u8) -> bool
    ensures { result ≡ quick_engine engine }
{
    engine != 0
}

// 1 if a test that the quick engine alone makes passes.
#[tactic(auto, unfolding(crate::specs::Grid::quick_bit, laws::specs::Sum::gate))]
fn quick_bit(engine: u8, test: bool) -> u64
    ensures { (result ≡ quick_bit engine test) × (result < 16) }
{
    u64::from(is_quick(engine) && test)
}

// 1 if a rate is positive.
#[tactic(auto, unfolding(crate::specs::Grid::rated_bit, laws::specs::Sum::gate))]
fn rated_bit(rate: u8) -> u64
    ensures { (result ≡ rated_bit rate) × (result ≤ 1) }
{
    u64::from(0 < rate)
}

// The cores, as bits, on which a task's rate is positive.
#[tactic(auto, using(crate::proofs::RateLaws::rated_told))]
fn rated_row(rates: Rates) -> u64
    ensures { (result ≡ rated_row rates) × (result < 16) }
{
    rated_bit(rates.on(0))
        + 2 * rated_bit(rates.on(1))
        + 4 * rated_bit(rates.on(2))
        + 8 * rated_bit(rates.on(3))
}

// Rule A's set, for the quick engine the tasks whose positive rates are all equal, on core 0 alone; and the sets of the tasks
// whose rate on a core is positive.
#[tactic(auto, using(crate::proofs::RateLaws::none_passed, crate::proofs::RateLaws::all_passed))]
fn task_sets(tasks: &[Task], engine: u8) -> (u64, u64)
    requires { length tasks.now ≤ 16 }
    ensures { (result.0 ≡ evens_of engine tasks.now) × (result.1 ≡ rated_of tasks.now) }
{
    let mut even: u64 = 0;
    let mut rated: u64 = 0;
    for task in tasks.iter().rev() {
        even = sets::pushed(even, quick_bit(engine, even_row(task.rates)));
        rated = sets::pushed(rated, rated_row(task.rates));
    }
    (even, rated)
}

// Whether two cores have equal rates for every task.
fn cores_twin(tasks: &[Task], a: usize, b: usize) -> bool
    requires { (a < 4) × (b < 4) }
    ensures { result ≡ cores_twin tasks.now a b }
{
    tasks
        .iter()
        .all(|task| task.rates.on(a) == task.rates.on(b))
}

// Rule B's marks, for the quick engine: at c * 4 + j, whether cores c and j are twins.
fn twins(tasks: &[Task], engine: u8) -> [bool; 16]
    ensures { result ≡ twins_of engine tasks.now }
{
    std::array::from_fn(|x| is_quick(engine) && cores_twin(tasks, x % 4, x / 4))
}

// The whole grid, in the one that is lent: handed out by value it would take the stack of two.
#[tactic(auto, unfolding(crate::specs::Grid::grid_of))]
pub fn fill_grid(grid: &mut Grid, tasks: &[Task], m: u8, engine: u8, len: Slots)
    requires { (length tasks.now ≤ 16) × (len.0 ≤ 1024) × ((k : ℕ) → k < length tasks.now → Fit len.0 (task tasks.now (suc k))) }
    ensures { grid.new ≡ grid_of tasks.now m engine len.0 grid.old }
{
    fill_entries(&mut grid.entries, tasks, len);
    fill_ends(&mut grid.ends, &grid.entries, tasks.len(), len);
    grid.rates = rates(tasks);
    (grid.even, grid.rated) = task_sets(tasks, engine);
    grid.twins = twins(tasks, engine);
    grid.tasks = tasks.len() as u16;
    grid.cores = u16::from(m);
    grid.slots = len.0;
}
