// Tasks: their numbers and ranges, the refusals, and the length of the table.
#![tactic(auto)]

ghost use Rattle.std.specs.Prelude.{◌≡◌, ◌*◌, ◌≤◌, ◌<◌};
ghost use Rattle.laws.specs.Lists.{nth};
ghost use Rattle.tasks.specs.Task.{work_in};
ghost use Rattle.tasks.specs.Refusal.{rates_fit, task_refusal, list_refusal, Periods, length_of, tested};
ghost use Rattle.tasks.specs.Told.{refusal_of, tested_as};

// A number of slots of time.
#[repr(C)]
#[derive(Clone, Copy, Default, PartialEq, Eq, PartialOrd, Ord)]
pub struct Slots(pub u16);

// Units of work.
#[repr(C)]
#[derive(Clone, Copy, Default, PartialEq, Eq, PartialOrd, Ord)]
pub struct Work(pub u16);

// A task's rates, one a core.
#[repr(C)]
#[derive(Clone, Copy, Default)]
pub struct Rates(pub [u8; 4]);

#[repr(C)]
#[derive(Clone, Copy, Default)]
pub struct Task {
    pub offset: Slots,
    pub work: Work,
    pub deadline: Slots,
    pub period: Slots,
    pub rates: Rates,
}

pub const MAX_TASKS: usize = 16;

pub const MAX_CORES: u8 = 4;

pub const MAX_SLOTS: u16 = 1024;

pub const MAX_OFFSET: u16 = 1023;

pub const MAX_WORK: u16 = 4096;

pub const MAX_RATE: u8 = 15;

// Why a call is refused, by its number: a list, an engine, a table or its buffer, a record or a tick (RULES 5.4 to 5.6), and a
// text (RULES 8.5 to 8.10).
#[derive(Clone, Copy, PartialEq, Eq)]
pub enum Refusal {
    Count = 1,
    Cores = 2,
    Period = 3,
    Deadline = 4,
    Work = 5,
    Offset = 6,
    Rate = 7,
    Length = 8,
    Engine = 9,
    Buffer = 10,
    Table = 11,
    Spoilt = 12,
    Past = 15,
    Text = 20,
    Line = 21,
    Kind = 22,
    FrameLength = 23,
    Place = 24,
}

impl From<Refusal> for u8 {
    ghost use Rattle.tasks.specs.Told.{number_of};
    ghost use Rattle.std.specs.Prelude.{◌≡◌};

    ghost from_gives = { λ refusal number. number ≡ number_of refusal };

    fn from(refusal: Refusal) -> u8 {
        refusal as u8
    }
}

impl Rates {
    // The rate on a core.
    pub fn on(self, core: usize) -> u8
        requires { core < 4 }
        ensures { result ≡ nth self.0 core }
    {
        self.0[core]
    }
}

// What a core of this rate does in so many slots.
pub fn work_in(rate: u16, slots: Slots) -> Work
    requires { rate * slots.0 ≤ 65535 }
    ensures { result ≡ work_in rate slots }
{
    Work(rate * slots.0)
}

// Whether each rate is in range, and 0 beyond the last core.
fn rates_fit(rates: Rates, m: u8) -> bool
    ensures { result ≡ rates_fit m rates }
{
    for core in 0..MAX_CORES {
        let most = if core < m { MAX_RATE } else { 0 };
        if most < rates.on(usize::from(core)) {
            return false;
        }
    }
    true
}

// Refusals 3 to 7 of a task on m cores.
#[tactic(auto, unfolding(crate::specs::Refusal::task_refusal, crate::specs::Refusal::unless, crate::specs::Refusal::within))]
pub fn test_task(t: Task, m: u8) -> Result<(), Refusal>
    ensures { refusal_of result ≡ task_refusal m t }
{
    if !(1..=MAX_SLOTS).contains(&t.period.0) {
        return Err(Refusal::Period);
    }
    if !(1..=t.period.0).contains(&t.deadline.0) {
        return Err(Refusal::Deadline);
    }
    if !(1..=MAX_WORK).contains(&t.work.0) {
        return Err(Refusal::Work);
    }
    if MAX_OFFSET < t.offset.0 {
        return Err(Refusal::Offset);
    }
    if !rates_fit(t.rates, m) {
        return Err(Refusal::Rate);
    }
    Ok(())
}

// Refusals 3 to 7, task by task in number order.
fn test_tasks(tasks: &[Task], m: u8) -> Result<(), Refusal>
    ensures { refusal_of result ≡ list_refusal m tasks.now }
{
    for task in tasks {
        test_task(*task, m)?;
    }
    Ok(())
}

// The least common multiple of the periods; none as soon as it is too long for a table.
fn table_length(tasks: &[Task]) -> Option<Slots>
    requires { Periods tasks.now }
    ensures { result ≡ length_of tasks.now }
{
    let mut h: u16 = 1;
    for t in tasks {
        let l = laws::lcm(u32::from(h), u32::from(t.period.0));
        if u64::from(MAX_SLOTS) < l {
            return None;
        }
        h = l as u16;
    }
    Some(Slots(h))
}

// The length of the table of a sound list; or its refusal, 1 to 8, in the order of RULES 5.7.
#[tactic(auto, unfolding(crate::specs::Refusal::tested, crate::specs::Refusal::refusal, crate::specs::Refusal::unless, crate::specs::Refusal::within))]
pub fn test_list(tasks: &[Task], m: u8) -> Result<Slots, Refusal>
    ensures { tested_as result ≡ tested m tasks.now }
{
    if !(1..=MAX_TASKS).contains(&tasks.len()) {
        return Err(Refusal::Count);
    }
    if !(1..=MAX_CORES).contains(&m) {
        return Err(Refusal::Cores);
    }
    test_tasks(tasks, m)?;
    table_length(tasks).ok_or(Refusal::Length)
}
