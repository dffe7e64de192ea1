// Rows of a column, a beam, a member without hinges and a detail: 01, "Members" and "Rows and verdict bits".
// Every operand is in the range of 01, and every number on the way fits 64 bits.
#![tactic(auto)]

ghost use Rattle.std.specs.Prelude.{◌≡◌, ◌||◌, ◌&&◌, ◌+◌, ◌*◌, ◌≤◌, min, eqb, pos, neg_ℤ};
ghost use Rattle.std.specs.Int.Signed.{lt_z};
ghost use Rattle.exact.specs.Fraction.{ratio, lt_f, smaller};
ghost use Rattle.exact.specs.SignedFraction.{whole_s, signed, ◌+S◌, ◌-S◌, up_s, down_s};
ghost use Rattle.claims.specs.Verdict.{flag};
ghost use Rattle.coefficient.specs.Coefficient.{fraction, CoefficientRange};
ghost use Rattle.members.specs.Column.{column_row, ColumnRange};
ghost use Rattle.members.specs.Beam.{beam_row, BeamRange};
ghost use Rattle.members.specs.Hingeless.{joint_coefficient, end_moment, rounded_shear, hingeless_row, HingelessRange};
ghost use Rattle.members.specs.Detail.{detail_row, DetailRange};
ghost use Rattle.members.specs.Steps.{ShearRange, ShearFits};

use actions::Sign;
use claims::Row;
use coefficient::{Limited, Quotient, Settings};

// R1, R2 of the plus and of the minus direction, VE the seismic shear, VR the shear strength. The range of this struct and of each below is
// no ghost field: one contract asks for it, or two.
#[derive(Clone, Copy)]
pub struct Column {
    pub length: u32,
    pub plus1: u32,
    pub plus2: u32,
    pub minus1: u32,
    pub minus2: u32,
    pub shear: u32,
    pub strength: u32,
}

// As a column, with V0, the shear of the non-seismic loads. The four resistances are no struct of their own: they are operands, one by one,
// as C's callers of `write` give them.
#[derive(Clone, Copy)]
pub struct Beam {
    pub length: u32,
    pub plus1: u32,
    pub plus2: u32,
    pub minus1: u32,
    pub minus2: u32,
    pub nonseismic: i32,
    pub shear: u32,
    pub strength: u32,
}

// RB, RC, EB: sums of beam resistances, of column resistances, of seismic beam moments.
#[derive(Clone, Copy)]
pub struct Joint {
    pub beams: u32,
    pub columns: u32,
    pub seismic: u32,
}

// ME1, ME2 the seismic end moments, V0 the shear of the non-seismic loads, VR the shear strength.
#[derive(Clone, Copy)]
pub struct Hingeless {
    pub length: u32,
    pub moment1: u32,
    pub moment2: u32,
    pub nonseismic: i32,
    pub strength: u32,
}

// xu and xy, the neutral axis depths at failure and at yield (thousandths), mu the ductility factor (hundredths).
#[derive(Clone, Copy)]
pub struct Detail {
    pub place: u32,
    pub ultimate: u32,
    pub yielded: u32,
    pub ductility: u32,
    pub lap: u32,
}

// The place of a detail at the wall base, where a lap is a fault.
const WALL_BASE: u32 = 2;

// The smaller of factor·S/length, the shear with hinges at both ends, and q·VE/divisor, the cap; and whether the cap governs.
fn capacity_shear(
    factor: u64,
    sum: u64,
    length: u32,
    behaviour: u32,
    shear: u32,
    divisor: u64,
) -> Limited
    requires { ShearRange factor sum length behaviour shear divisor }
    ensures range { ShearFits result.value }
    ensures value { fraction result.value ≡ smaller (ratio (factor * sum) length) (ratio (behaviour * shear) divisor) }
    ensures governs { result.governs ≡ lt_f (ratio (behaviour * shear) divisor) (ratio (factor * sum) length) }
{
    coefficient::smaller(
        Quotient {
            num: factor * sum,
            den: u64::from(length),
        },
        Quotient {
            num: u64::from(behaviour) * u64::from(shear),
            den: divisor,
        },
    )
}

// Bit 1 where upper or minus lower exceeds VR.
fn shears_verdict(upper: i64, lower: i64, strength: u32) -> i64
    ensures { result ≡ pos (flag 1 (lt_z (pos strength) upper || lt_z (pos strength) (neg_ℤ lower))) }
{
    i64::from(claims::either_exceeds(upper, lower, strength))
}

// B.1: one shear, up, for the larger sum of both directions.
pub fn column_row(behaviour: u32, c: Column) -> Row
    requires { ColumnRange behaviour c }
    ensures { result ≡ column_row behaviour c }
{
    let plus = u64::from(c.plus1) + u64::from(c.plus2);
    let minus = u64::from(c.minus1) + u64::from(c.minus2);
    let sum = plus.max(minus);
    let shear = capacity_shear(1400, sum, c.length, behaviour, c.shear, 100);
    let demand = shear.value.num.div_ceil(shear.value.den);
    let strength = u64::from(c.strength);
    Row {
        word2: claims::word(demand),
        word3: i64::from(c.strength),
        word4: 0,
        word5: 0,
        word6: i64::from(shear.governs),
        verdict: i64::from(strength < demand),
    }
}

// B.2: upper and lower shear, each with the sum of its own direction.
pub fn beam_row(behaviour: u32, b: Beam) -> Row
    requires { BeamRange behaviour b }
    ensures { result ≡ beam_row behaviour b }
{
    let plus = u64::from(b.plus1) + u64::from(b.plus2);
    let minus = u64::from(b.minus1) + u64::from(b.minus2);
    let added = capacity_shear(1200, plus, b.length, behaviour, b.shear, 120);
    let taken = capacity_shear(1200, minus, b.length, behaviour, b.shear, 120);
    // V0 + D and V0 − D: D for a, 1 for E
    let upper = actions::action(added.value, b.nonseismic, 1, Sign::Plus).up();
    let lower = actions::action(taken.value, b.nonseismic, 1, Sign::Minus).down();
    Row {
        word2: upper,
        word3: lower,
        word4: i64::from(b.strength),
        word5: i64::from(added.governs),
        word6: i64::from(taken.governs),
        verdict: shears_verdict(upper, lower, b.strength),
    }
}

// a of a joint.
pub fn joint_coefficient(settings: Settings, j: Joint) -> Quotient
    requires { CoefficientRange settings.joints (min j.beams j.columns) j.seismic settings.behaviour }
    ensures { fraction result ≡ joint_coefficient settings j }
{
    let resistance = j.beams.min(j.columns);
    coefficient::coefficient(settings.joints, resistance, j.seismic, settings.behaviour).value
}

// m = a·ME, up; a is that of the end's joint.
fn end_moment(settings: Settings, j: Joint, moment: u32) -> u64
    requires range { CoefficientRange settings.joints (min j.beams j.columns) j.seismic settings.behaviour }
    requires moment { moment ≤ 100000000 }
    ensures value { result ≡ end_moment settings j moment }
    ensures bound { result ≤ 400000000 }
{
    coefficient::product_up(joint_coefficient(settings, j), moment)
}

// D = 1000·(m1 + m2)/length, up.
#[tactic(auto, using(crate::proofs::Steps::shear_at_most, exact::proofs::Rounding::ceil_is))]
fn hingeless_shear(settings: Settings, j1: Joint, j2: Joint, m: Hingeless) -> u64
    requires { HingelessRange settings j1 j2 m }
    ensures value { result ≡ rounded_shear settings j1 j2 m }
    ensures bound { result ≤ 1600000000 }
{
    let end1 = end_moment(settings, j1, m.moment1);
    let end2 = end_moment(settings, j2, m.moment2);
    (1000 * (end1 + end2)).div_ceil(u64::from(m.length))
}

// B.3: upper and lower shear from the moments at both ends.
pub fn hingeless_row(settings: Settings, j1: Joint, j2: Joint, m: Hingeless) -> Row
    requires { HingelessRange settings j1 j2 m }
    ensures { result ≡ hingeless_row settings j1 j2 m }
{
    let shear = claims::word(hingeless_shear(settings, j1, j2, m));
    let nonseismic = i64::from(m.nonseismic);
    let upper = nonseismic + shear;
    let lower = nonseismic - shear;
    Row {
        word2: upper,
        word3: lower,
        word4: i64::from(m.strength),
        word5: 0,
        word6: 0,
        verdict: shears_verdict(upper, lower, m.strength),
    }
}

// xu·mu against 175·(1000 − xy), and the lap.
pub fn detail_row(d: Detail) -> Row
    requires { DetailRange d }
    ensures { result ≡ detail_row d }
{
    let demand = d.ultimate * d.ductility;
    let limit = 175 * (1000 - d.yielded);
    let lap = d.place == WALL_BASE && d.lap == 1;
    Row {
        word2: i64::from(demand),
        word3: i64::from(limit),
        word4: 0,
        word5: 0,
        word6: 0,
        verdict: claims::word(claims::verdict_of(32, limit < demand, 64, lap)),
    }
}
