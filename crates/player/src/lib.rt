// The player: its record, a start and a step.
#![tactic(auto)]

ghost use Rattle.std.specs.Prelude.{◌≡◌, ◌≤◌, length};
ghost use Rattle.laws.specs.Lists.{nth};
ghost use Rattle.checker.specs.Checks.{Checkable};
ghost use Rattle.clock.specs.Clock.{answered_as};
ghost use Rattle.player.specs.Player.{stepped, after_step, padded, offset_at, record_of, started, after_start};

use clock::{Numbers, Shown};
use tasks::{Refusal, Slots, Task};

// The player's record. The fields stand so that C lays them out without gaps.
#[repr(C)]
#[derive(Clone, Copy)]
pub struct Player {
    pub last: u32,
    pub h: u16,
    pub position: u16,
    pub age: u16,
    pub offsets: [u16; 16],
    pub m: u8,
    pub n: u8,
    pub table: [u8; 4096],
}

// A step: the record is advanced where it stands.
pub fn step(p: &mut Player, tick: u32) -> Result<Shown, Refusal>
    ensures { (answered_as result ≡ stepped p.old tick) × (p.new ≡ after_step p.old tick) }
{
    let numbers = Numbers {
        last: p.last,
        h: Slots(p.h),
        position: Slots(p.position),
        age: Slots(p.age),
        m: p.m,
        n: p.n,
    };
    let next = numbers.next(tick)?;
    let mut cells = [0; 4];
    cells.copy_from_slice(&p.table[next.at..next.at + 4]);
    p.last = next.last;
    p.position = next.position.0;
    p.age = next.age.0;
    Ok(next.show(p.m, p.n, p.offsets, cells))
}

// The offsets of a list; unused ones are 0.
fn offsets_of(tasks: &[Task]) -> [u16; 16]
    requires { length tasks.now ≤ 16 }
    ensures { result ≡ padded 16 (length tasks.now) (offset_at tasks.now) }
{
    let mut offsets = [0; 16];
    for (k, task) in tasks.iter().enumerate() {
        offsets[k] = task.offset.0;
    }
    offsets
}

// The first cells of a table; unused ones are 0.
fn cells_of(table: &[u8], count: usize) -> [u8; 4096]
    requires { (count ≤ 4096) × (count ≤ length table.now) }
    ensures { result ≡ padded 4096 count (nth table.now) }
{
    let mut cells = [0; 4096];
    cells[..count].copy_from_slice(&table[..count]);
    cells
}

// The record that a start makes for a sound list, whose table has h slots.
fn record_of(tasks: &[Task], h: Slots, m: u8, table: &[u8], tick: u32) -> Player
    requires { Checkable tasks.now m h.0 table.now }
    ensures { result ≡ record_of m tasks.now table.now tick }
{
    Player {
        last: tick,
        h: h.0,
        position: 0,
        age: 0,
        offsets: offsets_of(tasks),
        m,
        n: tasks.len() as u8,
        table: cells_of(table, usize::from(h.0) * usize::from(m)),
    }
}

// A start: refusals 1 to 8, 10 and 11, in that order; it answers as a step does, for slot 0.
pub fn start(
    p: &mut Player,
    tasks: &[Task],
    m: u8,
    table: &[u8],
    tick: u32,
) -> Result<Shown, Refusal>
    ensures { (answered_as result ≡ started m tasks.now table.now tick) × (p.new ≡ after_start m tasks.now table.now tick p.old) }
{
    let h = tasks::test_list(tasks, m)?;
    let fault = checker::check_table(tasks, m, table)?;
    if fault.is_some() {
        return Err(Refusal::Table);
    }
    *p = record_of(tasks, h, m, table, tick);
    step(p, tick)
}
