// Wall base (B.4) and storeys (B.5, B.6). The values that the storeys need of their base, a, W and MR, are computed once, at the
// base, and kept.
#![tactic(auto)]

ghost use Rattle.std.specs.Prelude.{◌≡◌, ◌*◌, ◌^◌, ◌≤◌, ◌<◌};
ghost use Rattle.coefficient.specs.Coefficient.{fraction, ProductFits};
ghost use Rattle.cubes.specs.Root.{least_root};
ghost use Rattle.walls.specs.Base.{design_moment, base_row_from, WallBaseRange};
ghost use Rattle.walls.specs.Storey.{design_shear, storey_row_from, StoreyRange};
ghost use Rattle.walls.specs.Running.{wall_of, WallRange};

use claims::Row;
use coefficient::Quotient;

// Operands of a wall base: length, thickness, MR, ME, VE, VR.
#[derive(Clone, Copy)]
pub struct WallBase {
    pub length: u32,
    pub thickness: u32,
    pub resistance: u32,
    pub moment: u32,
    pub shear: u32,
    pub strength: u32,
}

// Operands of a storey: ME, VE, J, J0, VR, MS.
#[derive(Clone, Copy)]
pub struct Storey {
    pub moment: u32,
    pub shear: u32,
    pub inertia: u32,
    pub base_inertia: u32,
    pub strength: u32,
    pub resistance: u32,
}

// The running values of the latest wall: W, MR; whether q governs a, for the base's own row; a. The last two are no `Limited`: only the
// base's row asks for the flag, and each use of a would name one field more.
// `WallRange` is no ghost field: `wall_of` of specs/ makes the running values of any base, in range or not.
#[derive(Clone, Copy)]
pub struct Wall {
    pub shear: u64,
    pub resistance: u32,
    pub governs: bool,
    pub coefficient: Quotient,
}

// The running values from q (hundredths) and the base.
pub fn wall_of(behaviour: u32, base: WallBase) -> Wall
    requires { WallBaseRange behaviour base }
    ensures { result ≡ wall_of behaviour base }
{
    let limited = coefficient::coefficient(130, base.resistance, base.moment, behaviour);
    let a = limited.value;
    let shear = coefficient::product_up(a, base.shear);
    Wall {
        coefficient: a,
        shear,
        resistance: base.resistance,
        governs: limited.governs,
    }
}

// Larger of a·x up and k·y/3000 up: a design shear of VE and W, and a design moment of ME and MR before it is kept to MR.
#[tactic(auto, using(exact::proofs::Rounding::ceil_is))]
fn larger_demand(a: Quotient, k: u64, x: u32, y: u64) -> u64
    requires product { ProductFits a x }
    requires third { k * y < 2 ^ 64 }
    ensures { result ≡ design_shear (fraction a) k x y }
{
    coefficient::product_up(a, x).max((k * y).div_ceil(3000))
}

// Larger of a·ME up and k·MR/3000 up, at most MR.
fn design_moment(a: Quotient, k: u64, moment: u32, resistance: u64) -> u64
    requires product { ProductFits a moment }
    requires third { k * resistance < 2 ^ 64 }
    ensures { result ≡ design_moment (fraction a) k moment resistance }
{
    let uncapped = larger_demand(a, k, moment, resistance);
    uncapped.min(resistance)
}

// The row of the base that the running values are of.
pub fn base_row(wall: Wall, base: WallBase) -> Row
    requires wall { WallRange wall }
    requires moment { base.moment ≤ 100000000 }
    ensures { result ≡ base_row_from (fraction wall.coefficient) wall.shear wall.governs base }
{
    let a = wall.coefficient;
    let v = wall.shear;
    let strength = u64::from(base.strength);
    let resistance = u64::from(base.resistance);
    let m = design_moment(a, 1000, base.moment, resistance);
    let short = u64::from(base.length) <= 4 * u64::from(base.thickness);
    let verdict = claims::verdict_of(1, strength < v, 128, short);
    claims::packed(v, strength, m, resistance, u64::from(wall.governs), verdict)
}

// The row of a storey of the wall with these running values and its k.
pub fn storey_row_at(wall: Wall, storey: Storey, k: u32) -> Row
    requires wall { WallRange wall }
    requires storey { StoreyRange storey }
    requires root { k ≡ least_root storey.inertia storey.base_inertia }
    ensures { result ≡ storey_row_from (fraction wall.coefficient) wall.shear wall.resistance storey }
{
    let a = wall.coefficient;
    let root = u64::from(k);
    let strength = u64::from(storey.strength);
    let resistance = u64::from(storey.resistance);
    let v = larger_demand(a, root, storey.shear, wall.shear);
    let m = design_moment(a, root, storey.moment, u64::from(wall.resistance));
    let verdict = claims::verdict_of(1, strength < v, 2, resistance < m);
    claims::packed(v, strength, m, resistance, root, verdict)
}

// The row of a storey of the wall with these running values.
pub fn storey_row(wall: Wall, storey: Storey) -> Row
    requires wall { WallRange wall }
    requires storey { StoreyRange storey }
    ensures { result ≡ storey_row_from (fraction wall.coefficient) wall.shear wall.resistance storey }
{
    let k = cubes::least_root(storey.inertia, storey.base_inertia);
    storey_row_at(wall, storey, k)
}
