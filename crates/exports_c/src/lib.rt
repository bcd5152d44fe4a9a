// The functions that C and Rust link, as `include/xiphomera.h` has them: each is the one of its name in `exports`.
// A crate is a static library, which C links, or a library, which `demands` cites: so the five stand twice.
#![tactic(auto)]

ghost use Rattle.std.specs.Prelude.{◌≡◌, length, leb};
ghost use Rattle.table.specs.Fault.{check as check_of};
ghost use Rattle.rules.specs.Search.{search as search_of};
ghost use Rattle.answer.specs.Write.{Written};
ghost use Rattle.player.specs.Player.{stepped, after_step, started, after_start};
ghost use Rattle.planner.specs.Answer.{answer_to};
ghost use Rattle.exports.specs.Packed.{SearchNumber, check_number, ShownNumber};

use player::Player;
use tasks::Task;

// The search of the lent tasks: verdict * 2^32 + tries.
#[unsafe(no_mangle)]
pub extern "C" fn xiphomera_search(
    tasks: &[Task],
    cores: u32,
    engine: u32,
    limit: u32,
    table: &mut [u8],
) -> u64
    ensures { SearchNumber result table.new (search_of cores tasks.now engine limit table.old) }
{
    exports::xiphomera_search(tasks, cores, engine, limit, table)
}

// The check of a table for the lent tasks: class * 2^48 + a * 2^32 + b * 2^16 + c.
#[unsafe(no_mangle)]
pub extern "C" fn xiphomera_check(tasks: &[Task], cores: u32, table: &[u8]) -> u64
    ensures { result ≡ check_number (check_of cores tasks.now table.now) }
{
    exports::xiphomera_check(tasks, cores, table)
}

// From the text of a problem to the text of its answer; gives the bytes written, 0 if `out` is too short for the longest answer.
#[unsafe(no_mangle)]
pub extern "C" fn xiphomera_plan_text(text: &[u8], out: &mut [u8]) -> usize
    ensures { Written (leb 15376 (length out.old)) (answer_to text.now) out.old result out.new }
{
    exports::xiphomera_plan_text(text, out)
}

// A start for the lent tasks on the record where it stands: verdict * 2^32 + missed, and four cells, one a core.
#[unsafe(no_mangle)]
pub extern "C" fn xiphomera_start(
    player: &mut Player,
    tasks: &[Task],
    cores: u32,
    table: &[u8],
    tick: u32,
    cells: &mut [u8; 4],
) -> u64
    ensures { ShownNumber result cells.new (started cores tasks.now table.now tick) × (player.new ≡ after_start cores tasks.now table.now tick player.old) }
{
    exports::xiphomera_start(player, tasks, cores, table, tick, cells)
}

// A step of the player's record where it stands: verdict * 2^32 + missed, and four cells, one a core.
#[unsafe(no_mangle)]
pub extern "C" fn xiphomera_step(player: &mut Player, tick: u32, cells: &mut [u8; 4]) -> u64
    ensures { ShownNumber result cells.new (stepped player.old tick) × (player.new ≡ after_step player.old tick) }
{
    exports::xiphomera_step(player, tick, cells)
}
