// The functions behind the calls of C and Rust: each public one is called by the one of its name in `exports_c`. Numbers, records
// as C lays them out, and slices: what is told is packed into one number, as the header takes it apart.
#![tactic(auto)]

ghost use Rattle.std.specs.Prelude.{◌≡◌, ◌≤◌, [], length, leb};
ghost use Rattle.table.specs.Fault.{check as check_of};
ghost use Rattle.rules.specs.Search.{search as search_of};
ghost use Rattle.search.specs.Told.{searched_as};
ghost use Rattle.answer.specs.Write.{Written};
ghost use Rattle.checker.specs.Told.{checked_as};
ghost use Rattle.clock.specs.Clock.{answered_as};
ghost use Rattle.player.specs.Player.{stepped, after_step, started, after_start};
ghost use Rattle.planner.specs.Answer.{answer_to};
ghost use Rattle.exports.specs.Packed.{narrowed, with_verdict, SearchNumber, search_number, packed_as, check_number, ShownNumber};

use checker::Fault;
use clock::Shown;
use player::Player;
use search::Answer;
use tasks::{Refusal, Task};

// A number as a byte; what no byte holds is 255, which is refused as the number is.
#[tactic(auto, unfolding(crate::specs::Packed::narrowed))]
fn narrow(x: u32) -> u8
    ensures { result ≡ narrowed x }
{
    u8::try_from(x).unwrap_or(255)
}

// A verdict and a number, as one: verdict * 2^32 + number.
fn with_verdict(verdict: u8, number: u32) -> u64
    ensures { result ≡ with_verdict verdict number }
{
    u64::from(verdict) * 4294967296 + u64::from(number)
}

// Tells what a search answers: its verdict and tries, or its refusal and 0.
fn tell_search(answer: Result<Answer, Refusal>) -> u64
    ensures { result ≡ search_number (searched_as answer []) }
{
    match answer {
        Ok(answer) => with_verdict(u8::from(answer.outcome), answer.tries),
        Err(refusal) => with_verdict(u8::from(refusal), 0),
    }
}

// The search of the lent tasks: verdict * 2^32 + tries.
pub fn xiphomera_search(
    tasks: &[Task],
    cores: u32,
    engine: u32,
    limit: u32,
    table: &mut [u8],
) -> u64
    ensures { SearchNumber result table.new (search_of cores tasks.now engine limit table.old) }
{
    let m = narrow(cores);
    let e = narrow(engine);
    tell_search(search::search(tasks, m, e, limit, table))
}

// Three numbers of a class, as one.
fn packed(class: u64, a: u16, b: u16, c: u8) -> u64
    requires { class ≤ 3 }
    ensures { result ≡ packed_as class a b c }
{
    class * 281474976710656 + u64::from(a) * 4294967296 + u64::from(b) * 65536 + u64::from(c)
}

// Tells what the checker answers: class * 2^48 + a * 2^32 + b * 2^16 + c.
// Class 0 is valid; 1 a faulty cell: slot, core, kind; 2 a faulty job: task, job, kind; 3 a refusal: 0, 0, its number.
#[tactic(auto, unfolding(crate::specs::Packed::check_number))]
fn tell_check(answer: Result<Option<Fault>, Refusal>) -> u64
    ensures { result ≡ check_number (checked_as answer) }
{
    match answer {
        Ok(None) => 0,
        Ok(Some(Fault::Cell { slot, core, kind })) => {
            packed(1, slot, u16::from(core), u8::from(kind))
        }
        Ok(Some(Fault::Job { task, job, kind })) => {
            packed(2, u16::from(task), job, u8::from(kind))
        }
        Err(refusal) => packed(3, 0, 0, u8::from(refusal)),
    }
}

// The check of a table for the lent tasks: class * 2^48 + a * 2^32 + b * 2^16 + c.
pub fn xiphomera_check(tasks: &[Task], cores: u32, table: &[u8]) -> u64
    ensures { result ≡ check_number (check_of cores tasks.now table.now) }
{
    let m = narrow(cores);
    tell_check(checker::check_table(tasks, m, table))
}

// From the text of a problem to the text of its answer; gives the bytes written, 0 if `out` is too short for the longest answer.
pub fn xiphomera_plan_text(text: &[u8], out: &mut [u8]) -> usize
    ensures { Written (leb 15376 (length out.old)) (answer_to text.now) out.old result out.new }
{
    planner::plan_text(text, out).unwrap_or(0)
}

// Tells what a start or a step answers: 0 and the slots missed, or its refusal and 0; and the four cells, 0 of a refusal.
fn tell(answer: Result<Shown, Refusal>, cells: &mut [u8; 4]) -> u64
    ensures { ShownNumber result cells.new (answered_as answer) }
{
    match answer {
        Ok(shown) => {
            // by way of a value of its own: stored from the field, the proof does not close
            let four = shown.cells;
            *cells = four;
            with_verdict(0, shown.missed)
        }
        Err(refusal) => {
            *cells = [0; 4];
            with_verdict(u8::from(refusal), 0)
        }
    }
}

// A start for the lent tasks on the record where it stands: verdict * 2^32 + missed, and four cells, one a core.
pub fn xiphomera_start(
    player: &mut Player,
    tasks: &[Task],
    cores: u32,
    table: &[u8],
    tick: u32,
    cells: &mut [u8; 4],
) -> u64
    ensures { ShownNumber result cells.new (started cores tasks.now table.now tick) × (player.new ≡ after_start cores tasks.now table.now tick player.old) }
{
    let m = narrow(cores);
    tell(player::start(player, tasks, m, table, tick), cells)
}

// A step of the player's record where it stands: verdict * 2^32 + missed, and four cells, one a core.
pub fn xiphomera_step(player: &mut Player, tick: u32, cells: &mut [u8; 4]) -> u64
    ensures { ShownNumber result cells.new (stepped player.old tick) × (player.new ≡ after_step player.old tick) }
{
    tell(player::step(player, tick), cells)
}
