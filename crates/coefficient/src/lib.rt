// The capacity coefficient, 01, "Capacity coefficient": a = g·R/(100·E), at most q/100; E = 0 gives q/100. It stays an exact
// fraction, a pair of whole numbers. The smaller-of function serves it, the column and the beam, and tells whether the cap governs
// (02, No. 5).
#![tactic(auto)]

ghost use Rattle.std.specs.Prelude.{◌≡◌, ◌*◌, ◌<◌};
ghost use Rattle.exact.specs.Fraction.{whole, ◌*F◌, up_f, lt_f, smaller as smaller_of};
ghost use Rattle.coefficient.specs.Coefficient.{fraction, coefficient_of, cap_governs, Comparable, CoefficientRange, ProductFits};

// Hundredths: q, the behaviour factor; gj and gf, the overstrengths of joints and of foundations. Their ranges are no ghost field: a
// command holds settings before they are tested.
#[derive(Clone, Copy)]
pub struct Settings {
    pub behaviour: u32,
    pub joints: u32,
    pub foundations: u32,
}

// num / den, never reduced, never rounded. That den is not 0 is no ghost field: it would ask more of the callers of `smaller`.
#[derive(Clone, Copy)]
pub struct Quotient {
    pub num: u64,
    pub den: u64,
}

// A term limited by its cap: the smaller of both, and whether the cap governs. Rows have both, so this is no case of an Option.
#[derive(Clone, Copy)]
pub struct Limited {
    pub value: Quotient,
    pub governs: bool,
}

// The smaller of a term and its cap, the term where they are equal; the cap governs where it is strictly the smaller.
#[tactic(auto, using(crate::proofs::Governs::comparing))]
pub fn smaller(term: Quotient, cap: Quotient) -> Limited
    requires { Comparable term cap }
    ensures value { fraction result.value ≡ smaller_of (fraction term) (fraction cap) }
    ensures governs { result.governs ≡ lt_f (fraction cap) (fraction term) }
{
    if term.num * cap.den <= cap.num * term.den {
        Limited {
            value: term,
            governs: false,
        }
    } else {
        Limited {
            value: cap,
            governs: true,
        }
    }
}

// g (hundredths), R, E, and q (hundredths), which caps it; E = 0 counts as governed by q.
#[tactic(auto, using(crate::proofs::Governs::by_seismic))]
pub fn coefficient(overstrength: u32, resistance: u32, seismic: u32, behaviour: u32) -> Limited
    requires { CoefficientRange overstrength resistance seismic behaviour }
    ensures value { fraction result.value ≡ coefficient_of overstrength resistance seismic behaviour }
    ensures governs { result.governs ≡ cap_governs overstrength resistance seismic behaviour }
{
    let cap = Quotient {
        num: u64::from(behaviour),
        den: 100,
    };
    if seismic == 0 {
        return Limited {
            value: cap,
            governs: true,
        };
    }
    smaller(
        Quotient {
            num: u64::from(overstrength) * u64::from(resistance),
            den: 100 * u64::from(seismic),
        },
        cap,
    )
}

// a·x, up. `ProductFits` is a fact of the fraction and the factor together, so it is no ghost field of either.
#[tactic(auto, using(exact::proofs::Rounding::ceil_is))]
pub fn product_up(a: Quotient, x: u32) -> u64
    requires { ProductFits a x }
    ensures { result ≡ up_f (fraction a *F whole x) }
{
    (a.num * u64::from(x)).div_ceil(a.den)
}
