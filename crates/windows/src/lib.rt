// Windows: in which slots a task is open, for which job, and how many of the job's slots are still to come.
#![tactic(auto)]

ghost use Rattle.std.specs.Prelude.{◌≡◌, ◌≤◌, ◌<◌};
ghost use Rattle.tasks.specs.Window.{place as place_of};
ghost use Rattle.windows.specs.Answer.{Fit, in_slot};

use tasks::{Slots, Task};

// A task in a slot: whether it is open; the number of its job, in a closed slot too; and how many of the job's slots have a
// higher number in the table, 0 in a closed slot. Three facts, and no Option: RULES 2.3 and 2.7 tell the last two of a closed
// slot as well (`open_in_job` and `open_in_closed` in proofs/Calls.antt).
#[derive(Clone, Copy)]
pub struct InSlot {
    pub opens: bool,
    pub job: u16,
    pub coming: Slots,
}

// The place of a slot after the offset, round the table: (slot - offset) mod len.
fn place(len: Slots, offset: Slots, slot: Slots) -> Slots
    requires { (0 < len.0) × (len.0 ≤ 1024) × (slot.0 < len.0) }
    ensures { result.0 ≡ place_of len.0 offset.0 slot.0 }
{
    Slots((slot.0 + (len.0 - offset.0 % len.0)) % len.0)
}

// The open test: what is told of a task in a slot.
pub fn open_in(len: Slots, t: Task, slot: Slots) -> InSlot
    requires { Fit len.0 t × (slot.0 < len.0) }
    ensures { result ≡ in_slot len.0 t slot.0 }
{
    let p = place(len, t.offset, slot);
    let job = p.0 / t.period.0;
    let in_period = p.0 - job * t.period.0;
    if t.deadline.0 <= in_period {
        return InSlot {
            opens: false,
            job,
            coming: Slots(0),
        };
    }
    // Right below this slot the window has so many: back to its first, or, where it came round the end, to slot 0. Its others
    // have higher numbers, as far as the table goes.
    let below = in_period.min(slot.0);
    let others = t.deadline.0 - 1 - below;
    let above = len.0 - 1 - slot.0;
    InSlot {
        opens: true,
        job,
        coming: Slots(others.min(above)),
    }
}
