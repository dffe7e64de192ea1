// A footing's row for one of the two directions: N, the eccentricities, H against the sliding resistance.
// 01, "Soil and footing" and "Rows and verdict bits". What demand 3 claims of the row is in specs/Claimed.antt.
#![tactic(auto)]

ghost use Rattle.std.specs.Prelude.{◌≡◌, ◌&&◌, ◌*◌, ◌≤◌, ◌<◌, ltb, nat_abs};
ghost use Rattle.exact.specs.Fraction.{up_f};
ghost use Rattle.exact.specs.SignedFraction.{size, down_s};
ghost use Rattle.coefficient.specs.Coefficient.{fraction};
ghost use Rattle.actions.specs.Action.{action};
ghost use Rattle.footing.specs.Flags.{counted_thrust};
ghost use Rattle.footing.specs.Actions.{footing_coefficient, normal, moment_b, moment_l};
ghost use Rattle.footing.specs.Rows.{FootingRange, footing_row, heavy_row, light_row, eccentricity, effective_area, base_resistance, sliding_resistance, exception, outside as outside_of, eccentric as eccentric_of};

use actions::Sign;
use claims::Row;
use coefficient::{Quotient, Settings};
use exact::Sum;
use soil::Soil;

// From this N on, in newtons, the row has eccentricities and a sliding resistance.
const LEAST_NORMAL: i64 = 20_000;

// 01's B, L; MR, ME of the element above; normal force, moment along B, moment along L and horizontal force, each non-seismic
// (v) and seismic (e); U; P; bit 0 of the flags: uncertainties minimised, bit 1: strict tolerances, bit 2: full contact, so that P counts.
// v and e of each action are two operands, as `write` is handed them.
#[derive(Clone, Copy)]
pub struct Footing {
    pub breadth: u32,
    pub length: u32,
    pub resistance: u32,
    pub moment: u32,
    pub nv: i32,
    pub ne: i32,
    pub xv: i32,
    pub xe: i32,
    pub yv: i32,
    pub ye: i32,
    pub hv: i32,
    pub he: i32,
    pub uplift: u32,
    pub passive: u32,
    pub flags: u32,
}

// A footing on its soil, with a, with g = gf, of the element above: one for both rows.
#[derive(Clone, Copy)]
pub struct FootingOnSoil {
    pub settings: Settings,
    pub footing: Footing,
    pub soil: Soil,
    pub sensitive: bool,
    pub coefficient: Quotient,
    pub ghost range: { FootingRange settings footing },
    pub ghost is: { fraction coefficient ≡ footing_coefficient settings footing },
}

// The resultant on the base: N, and its eccentricities ex and ey.
#[derive(Clone, Copy)]
struct Resultant {
    normal: u64,
    along_breadth: u64,
    along_length: u64,
    ghost normal_fits: { normal ≤ 500000000 },
    ghost breadth_fits: { along_breadth ≤ 500000000000 },
    ghost length_fits: { along_length ≤ 500000000000 },
}

impl FootingOnSoil {
    pub fn new(settings: Settings, footing: Footing, soil: Soil, sensitive: bool) -> Self
        requires { FootingRange settings footing }
        ensures settings { result.settings ≡ settings }
        ensures footing { result.footing ≡ footing }
        ensures soil { result.soil ≡ soil }
        ensures sensitive { result.sensitive ≡ sensitive }
    {
        let a = coefficient::coefficient(
            settings.foundations,
            footing.resistance,
            footing.moment,
            settings.behaviour,
        );
        FootingOnSoil {
            settings,
            footing,
            soil,
            sensitive,
            coefficient: a.value,
        }
    }

    // The row of the direction with this sign.
    pub fn row(&self, sign: Sign) -> Row
        ensures { result ≡ footing_row self.now.settings self.now.footing self.now.soil self.now.sensitive sign }
    {
        let f = self.footing;
        let n = self.normal_force(sign);
        let h = self.action(f.hv, f.he, sign).size_up();
        if LEAST_NORMAL <= n {
            self.heavy_row(self.resultant(sign, n as u64), h)
        } else {
            light_row(n, h)
        }
    }

    // ---- the actions V ± a·E

    fn action(&self, v: i32, e: i32, sign: Sign) -> Sum
        requires steady { nat_abs v ≤ 100000000 }
        requires seismic { nat_abs e ≤ 100000000 }
        ensures value { result ≡ action sign (footing_coefficient self.now.settings self.now.footing) v e }
        ensures size { up_f (size result) ≤ 500000000 }
        ensures down { nat_abs (down_s result) ≤ 500000000 }
    {
        actions::action(self.coefficient, v, e, sign)
    }

    // N, down.
    fn normal_force(&self, sign: Sign) -> i64
        ensures value { result ≡ down_s (normal self.now.settings self.now.footing sign) }
        ensures bound { nat_abs result ≤ 500000000 }
    {
        self.action(self.footing.nv, self.footing.ne, sign).down()
    }

    // The resultant with this N.
    fn resultant(&self, sign: Sign, n: u64) -> Resultant
        requires positive { 0 < n }
        requires bound { n ≤ 500000000 }
        ensures normal { result.normal ≡ n }
        ensures along_breadth { result.along_breadth ≡ eccentricity (up_f (size (moment_b self.now.settings self.now.footing sign))) n }
        ensures along_length { result.along_length ≡ eccentricity (up_f (size (moment_l self.now.settings self.now.footing sign))) n }
    {
        let f = self.footing;
        Resultant {
            normal: n,
            along_breadth: eccentricity_up(self.action(f.xv, f.xe, sign).size_up(), n),
            along_length: eccentricity_up(self.action(f.yv, f.ye, sign).size_up(), n),
        }
    }

    // ---- the sliding resistance

    // A: both sides less twice their eccentricities.
    #[tactic(auto, using(crate::proofs::Sliding::area_le))]
    fn effective_area(&self, force: Resultant) -> u64
        ensures value { result ≡ effective_area self.now.footing force.along_breadth force.along_length }
        ensures bound { result ≤ 400000000 }
    {
        let breadth = u64::from(self.footing.breadth).saturating_sub(2 * force.along_breadth);
        let length = u64::from(self.footing.length).saturating_sub(2 * force.along_length);
        breadth * length
    }

    // The resistance of the base, by the kind of soil.
    #[tactic(auto, using(crate::proofs::Sliding::granular_le), unfolding(crate::specs::Rows::base_resistance, exact::specs::Quotient::down))]
    fn base_resistance(&self, force: Resultant) -> u64
        ensures bound { result ≤ 1000000000 }
        ensures value { result ≡ base_resistance self.now.soil (effective_area self.now.footing force.along_breadth force.along_length) force.normal self.now.footing.uplift }
    {
        match self.soil {
            Soil::Granular(x) => {
                let net = force.normal.saturating_sub(u64::from(self.footing.uplift));
                net * u64::from(soil::tangent(x)) / 10_000
            }
            Soil::Cohesive(x) => {
                let s = u64::from(soil::cohesion(x));
                (self.effective_area(force) * s / 1_000_000).min(2 * force.normal / 5)
            }
        }
    }

    // R: the base, and two fifths of the passive thrust that counts.
    #[tactic(auto, unfolding(exact::specs::Quotient::down))]
    fn sliding_resistance(&self, force: Resultant) -> u64
        ensures value { result ≡ sliding_resistance self.now.footing self.now.soil force.along_breadth force.along_length force.normal }
        ensures bound { result ≤ 1200000000 }
    {
        self.base_resistance(force) + 2 * u64::from(counted_thrust(self.footing)) / 5
    }

    // ---- bit 4

    // n·ex exceeds B, or n·ey exceeds L.
    fn outside(&self, n: u64, force: Resultant) -> bool
        requires { n ≤ 4 }
        ensures { result ≡ outside_of n self.now.footing force.along_breadth force.along_length }
    {
        u64::from(self.footing.breadth) < n * force.along_breadth
            || u64::from(self.footing.length) < n * force.along_length
    }

    // 2ex is below B, and 2ey below L.
    fn inside_halves(&self, force: Resultant) -> bool
        ensures { result ≡ (ltb (2 * force.along_breadth) self.now.footing.breadth && ltb (2 * force.along_length) self.now.footing.length) }
    {
        2 * force.along_breadth < u64::from(self.footing.breadth)
            && 2 * force.along_length < u64::from(self.footing.length)
    }

    // Flags (bits 0 and 1 both set), q and a meet the exception.
    fn excepted(&self) -> bool
        ensures { result ≡ exception self.now.settings.behaviour self.now.footing (footing_coefficient self.now.settings self.now.footing) }
    {
        let a = self.coefficient;
        let behaviour = u64::from(self.settings.behaviour);
        self.footing.flags % 4 == 3 && 100 < behaviour && a.num * 100 < behaviour * a.den
    }

    // The resultant lies too far out.
    fn eccentric(&self, force: Resultant) -> bool
        ensures { result ≡ eccentric_of self.now.settings.behaviour self.now.footing (footing_coefficient self.now.settings self.now.footing) self.now.sensitive force.along_breadth force.along_length }
    {
        if self.sensitive {
            return self.outside(4, force);
        }
        self.outside(3, force) && !(self.excepted() && self.inside_halves(force))
    }

    // ---- the row

    // The row with N at least 20,000.
    fn heavy_row(&self, force: Resultant, h: u64) -> Row
        requires { h ≤ 500000000 }
        ensures { result ≡ heavy_row self.now.settings self.now.footing self.now.soil self.now.sensitive force.normal force.along_breadth force.along_length h }
    {
        let r = self.sliding_resistance(force);
        let verdict = claims::verdict_of(4, self.eccentric(force), 8, h > r);
        claims::packed(
            force.normal,
            force.along_breadth,
            force.along_length,
            h,
            r,
            verdict,
        )
    }
}

// 1000 times a moment over N, up.
#[tactic(auto, using(exact::proofs::Rounding::ceil_is, exact::proofs::Rounding::up_le_self))]
fn eccentricity_up(moment: u64, n: u64) -> u64
    requires moment { moment ≤ 500000000 }
    requires positive { 0 < n }
    ensures value { result ≡ eccentricity moment n }
    ensures bound { result ≤ 500000000000 }
{
    (1000 * moment).div_ceil(n)
}

// P where bit 2 of the flags declares the contact, else 0.
fn counted_thrust(f: Footing) -> u32
    ensures value { result ≡ counted_thrust f }
    ensures bound { result ≤ f.passive }
{
    if f.flags / 4 % 2 == 1 { f.passive } else { 0 }
}

// The row with N below 20,000.
fn light_row(n: i64, h: u64) -> Row
    requires { h ≤ 500000000 }
    ensures { result ≡ light_row n h }
{
    Row {
        word2: n,
        word3: 0,
        word4: 0,
        word5: claims::word(h),
        word6: 0,
        verdict: 16,
    }
}
