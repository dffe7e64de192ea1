// The cubes of 0 to 1,000, and the least k with k³·J0 ≥ 10⁹·J, found among them.
#![tactic(auto)]

ghost use Rattle.std.specs.Prelude.{◌≡◌, ◌⊎◌, ◌*◌, ◌^◌, ◌≤◌, ◌<◌};
ghost use Rattle.cubes.specs.Cube.{cube, IsCubes};
ghost use Rattle.cubes.specs.Root.{Least, least_root};

mod entries; // entries.rt: the table

// The table, for a caller of another crate.
pub fn table() -> &'static [u64; 1001]
    ensures { IsCubes result.now }
{
    &entries::CUBES
}

// The cube of k, from the table.
fn cube_of(k: usize) -> u64
    requires { k ≤ 1000 }
    ensures { result ≡ cube k }
{
    entries::CUBES[k]
}

// What a turn of a search adds to its low end: the step where k³·base is below what is needed, else 0.
fn step_added(k: usize, step: usize, base: u64, need: u64) -> usize
    requires place { k ≤ 1000 }
    requires base { base < 2 ^ 32 }
    ensures { ((cube k * base < need) × (result ≡ step)) ⊎ ((need ≤ cube k * base) × (result ≡ 0)) }
{
    if cube_of(k) * base < need {
        return step;
    }
    0
}

// The least k with k³·j0 ≥ 10⁹·j, by halving: no number below `low` is enough, and `low + length` is. Each search takes ten
// turns, with the lengths 1000, 511, 255, .., 1, so that each step but the first is a power of two: those are added without a
// branch. A caller has it in line: as a call it would cost every storey of a block (docs/BENCHMARK.md).
// By hand: the library's `partition_point` branches on the numbers in each turn, at 51 ns a search in place of 15.
#[inline(always)]
pub fn least_root(j: u32, j0: u32) -> u32
    requires { j ≤ j0 }
    ensures value { result ≡ least_root j j0 }
    ensures least { Least j j0 result }
{
    let need = 1_000_000_000 * u64::from(j);
    let base = u64::from(j0);
    let mut low: usize = 0;
    let mut length: usize = 1000;
    let mut rest: usize = 511;
    while 0 < length {
        let step = length - rest;
        low += step_added(low + step - 1, step, base, need);
        length = rest;
        rest = rest / 2;
    }
    low as u32
}
