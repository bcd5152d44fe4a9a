// Frames: the reader of a problem's text.
#![tactic(auto)]

ghost use Rattle.std.specs.Prelude.{◌≡◌, List, ℕ, ◌≤◌, ◌<◌, ◌==◌, length};
ghost use Rattle.lines.specs.Frame.{two, four};
ghost use Rattle.lines.specs.Lines.{lines};
ghost use Rattle.lines.specs.Told.{code_of, IsFrame};
ghost use Rattle.frames.specs.Read.{Reading, start, may_follow, right_number, in_place, task_of, taken_frame, read_lines, read_problem};
ghost use Rattle.frames.specs.Told.{listed, read_as, HasRead, code_before, WasFrame};

mod task_list;

use lines::{Frame, Kind};
use task_list::TaskList;
use tasks::{MAX_TASKS, Rates, Refusal, Slots, Task, Work};

// A file over this is refused.
const MAX_TEXT: usize = 1024;

// The engine where 04 is left out (RULES 8.4), by its number, as an 04 has it.
const ENGINE_LEFT_OUT: u8 = 1;

// The limit where 04 is left out.
const LIMIT_LEFT_OUT: u32 = 1000000;

// What a text holds: the cores, the tasks, the engine and the limit of a problem.
#[derive(Clone, Copy)]
pub struct Problem {
    pub m: u8,
    tasks: TaskList,
    pub engine: u8,
    pub limit: u32,
}

// The number of two bytes that stands at a place of a frame.
fn number_at(bytes: [u8; 10], at: usize) -> u16
    requires { at ≤ 8 }
    ensures { result ≡ two bytes at }
{
    u16::from_be_bytes([bytes[at], bytes[at + 1]])
}

// The limit of an 04.
fn limit_of(bytes: [u8; 10]) -> u32
    ensures { result ≡ four bytes 2 }
{
    u32::from_be_bytes([bytes[2], bytes[3], bytes[4], bytes[5]])
}

// The task of an 02 and an 03.
fn task_of(numbers: [u8; 10], rates: [u8; 10]) -> Task
    ensures { result ≡ task_of numbers rates }
{
    Task {
        offset: Slots(number_at(numbers, 2)),
        work: Work(number_at(numbers, 4)),
        deadline: Slots(number_at(numbers, 6)),
        period: Slots(number_at(numbers, 8)),
        rates: Rates([rates[2], rates[3], rates[4], rates[5]]),
    }
}

// Whether a frame of a kind may stand behind the last one.
#[tactic(auto, unfolding(crate::specs::Read::may_follow))]
fn may_follow(last: Option<Frame>, kind: Kind) -> bool
    ensures { result ≡ may_follow (code_before last) (code_of kind) }
{
    let Some(last) = last else {
        return kind == Kind::Cores;
    };
    match last.kind {
        Kind::Cores | Kind::Rates => matches!(kind, Kind::Task | Kind::Limit | Kind::End),
        Kind::Task => kind == Kind::Rates,
        Kind::Limit => kind == Kind::End,
        Kind::Verdict | Kind::Slot | Kind::End => false,
    }
}

// Whether a frame has the number of the next task, if it has a task's number.
fn right_number(count: usize, kind: Kind, number: u8) -> bool
    ensures { result ≡ right_number count (code_of kind) number }
{
    match kind {
        Kind::Task | Kind::Rates => count < MAX_TASKS && usize::from(number) == count + 1,
        _ => true,
    }
}

// Whether a frame stands in its place behind the last one, where so many tasks have been read.
fn in_place(last: Option<Frame>, count: usize, frame: Frame) -> bool
    ensures { (f : List ℕ) → IsFrame frame f → result ≡ in_place (code_before last) count f }
{
    may_follow(last, frame.kind) && right_number(count, frame.kind, frame.bytes[1])
}

// Whether the last frame is an 07.
fn is_end(last: Option<Frame>) -> bool
    ensures { result ≡ (code_before last == 7) }
{
    last.is_some_and(|frame| frame.kind == Kind::End)
}

impl Problem {
    // What holds before the first frame.
    fn new() -> Problem
        ensures { HasRead result start }
    {
        Problem {
            m: 0,
            tasks: TaskList::new(),
            engine: ENGINE_LEFT_OUT,
            limit: LIMIT_LEFT_OUT,
        }
    }

    // The tasks.
    pub fn tasks(&self) -> &[Task]
        ensures { result.now ≡ listed self.now.tasks }
    {
        self.tasks.as_slice()
    }

    // What one more frame says behind the last one: an 03 with the 02 before it makes a task.
    fn take_frame(&mut self, last: Option<Frame>, frame: Frame)
        requires { frame.kind ≡ Kind.Rates → (code_before last ≡ 2) × (length (listed self.old.tasks) < 16) }
        ensures { (s : Reading) → HasRead self.old s → WasFrame last s.last → (f : List ℕ) → IsFrame frame f → HasRead self.new (taken_frame s f) }
    {
        match frame.kind {
            Kind::Cores => self.m = frame.bytes[1],
            Kind::Rates => {
                if let Some(numbers) = last {
                    self.tasks.push(task_of(numbers.bytes, frame.bytes));
                }
            }
            Kind::Limit => {
                self.engine = frame.bytes[1];
                self.limit = limit_of(frame.bytes);
            }
            _ => {}
        }
    }
}

// The problem, line by line; or refusals 21 to 24.
fn read_lines(text: &[u8]) -> Result<Problem, Refusal>
    ensures { read_as result ≡ read_lines start (lines text.now) }
{
    let mut problem = Problem::new();
    let mut last = None;
    for line in text.split_inclusive(|c| *c == b'\n') {
        let frame = lines::read_line(line)?;
        if !in_place(last, problem.tasks.len(), frame) {
            return Err(Refusal::Place);
        }
        problem.take_frame(last, frame);
        last = Some(frame);
    }
    if !is_end(last) {
        return Err(Refusal::Place);
    }
    Ok(problem)
}

// The problem that a text holds; or its refusal, 20 to 24.
#[tactic(auto, unfolding(crate::specs::Read::read_within, tasks::specs::Refusal::unless))]
pub fn read_problem(text: &[u8]) -> Result<Problem, Refusal>
    ensures { read_as result ≡ read_problem text.now }
{
    if MAX_TEXT < text.len() {
        return Err(Refusal::Text);
    }
    read_lines(text)
}
