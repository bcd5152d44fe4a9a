// Sets of tasks, one for each of four cores, as the bits of one number: task v, from 0, on core c is bit 4 * v + c.
// A number and no collection: the walk keeps it in a register, and rules A and B meet two of them in one step.
#![tactic(auto)]

ghost use Rattle.std.specs.Prelude.{◌≡◌, ◌*◌, ◌^◌, ◌<◌};
ghost use Rattle.sets.specs.Sets.{of_core, lowest as lowest_of, without as without_of, pushed as pushed_of, common as common_of, on_cores, from_rank};

// The set of a core, as the set of core 0, alone.
#[tactic(auto, unfolding(crate::specs::Sets::of_core))]
pub fn of_core(sets: u64, core: usize) -> u64
    requires { core < 4 }
    ensures { result ≡ of_core sets core }
{
    (sets >> core) & 0x1111111111111111
}

// The lowest task of a set of core 0.
#[tactic(auto, unfolding(crate::specs::Sets::lowest))]
pub fn lowest(set: u64) -> usize
    ensures { result ≡ lowest_of set }
{
    set.trailing_zeros() as usize / 4
}

// The sets without a task.
pub fn without(sets: u64, task: usize) -> u64
    requires { task < 16 }
    ensures { result ≡ without_of sets task }
{
    sets ^ (sets & (15 << (4 * task)))
}

// The sets with each task one number higher, and the cores of a new task 0.
#[tactic(auto, unfolding(crate::specs::Sets::pushed))]
pub fn pushed(sets: u64, cores: u64) -> u64
    requires { (sets < 2 ^ 60) × (cores < 16) }
    ensures { result ≡ pushed_of sets cores }
{
    (sets << 4) + cores
}

// The tasks that are in both, core by core.
#[tactic(auto, unfolding(crate::specs::Sets::common))]
pub fn common(a: u64, b: u64) -> u64
    ensures { result ≡ common_of a b }
{
    a & b
}

// The sets with each task of a set of core 0, alone, on all four cores.
#[tactic(auto, unfolding(crate::specs::Sets::on_cores))]
pub fn on_cores(set: u64) -> u64
    requires { 15 * set < 2 ^ 64 }
    ensures { result ≡ on_cores set }
{
    15 * set
}

// The tasks of a set from a rank on; the rank of a task is one more than its number here.
#[tactic(auto, using(crate::proofs::SetLaws::from_first, crate::proofs::SetLaws::from_last, crate::proofs::SetLaws::from_between))]
pub fn from_rank(set: u64, rank: usize) -> u64
    ensures { result ≡ from_rank set rank }
{
    if rank <= 1 {
        return set;
    }
    if 16 < rank {
        return 0;
    }
    let bits = 4 * (rank - 1);
    (set >> bits) << bits
}
