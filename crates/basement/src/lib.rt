// Rows of a basement member: 02, No. 9. Every operand is in the range of 01, and every number on the way fits 64 bits.
#![tactic(auto)]

ghost use Rattle.std.specs.Prelude.{◌≡◌, ◌≤◌, pos};
ghost use Rattle.coefficient.specs.Coefficient.{fraction};
ghost use Rattle.actions.specs.Ranges.{ActionRange};
ghost use Rattle.basement.specs.Basement.{basement_row, basement_shear_row, basement_moment_row};

use actions::Sign;
use claims::Row;
use coefficient::Quotient;

// VV, VE, MV, ME, the shear and the moment, each non-seismic and seismic; VR, MR, the strengths. Place 0: the nearest possible hinge is
// at a joint; 1: it is in the latest wall.
#[derive(Clone, Copy)]
pub struct Basement {
    // As it is given, before it is tested: the operand of a command, kept at 32 bits as a detail's place is.
    pub place: u32,
    pub nonseismic_shear: i32,
    pub seismic_shear: u32,
    pub nonseismic_moment: i32,
    pub seismic_moment: u32,
    pub shear_strength: u32,
    pub moment_strength: u32,
}

// B.2 [4]: a value of a basement member, V ± a·E, against its strength: upper and lower, and the bit where one of them exceeds it.
fn basement_row(bit: u64, a: Quotient, steady: i32, seismic: u32, strength: u32) -> Row
    requires bit { bit ≤ 2 }
    requires range { ActionRange a steady (pos seismic) }
    ensures { result ≡ basement_row bit (fraction a) steady seismic strength }
{
    let upper = actions::action(a, steady, seismic as i32, Sign::Plus).up();
    let lower = actions::action(a, steady, seismic as i32, Sign::Minus).down();
    let exceeded = claims::either_exceeds(upper, lower, strength);
    Row {
        word2: upper,
        word3: lower,
        word4: i64::from(strength),
        word5: 0,
        word6: 0,
        verdict: claims::word(claims::flagged(bit, exceeded)),
    }
}

impl Basement {
    // The shear against VR, with a of the nearest possible hinge: bit 1.
    pub fn shear_row(self, a: Quotient) -> Row
        requires { ActionRange a self.nonseismic_shear (pos self.seismic_shear) }
        ensures { result ≡ basement_shear_row (fraction a) self }
    {
        let (steady, seismic) = (self.nonseismic_shear, self.seismic_shear);
        basement_row(1, a, steady, seismic, self.shear_strength)
    }

    // The moment against MR: bit 2.
    pub fn moment_row(self, a: Quotient) -> Row
        requires { ActionRange a self.nonseismic_moment (pos self.seismic_moment) }
        ensures { result ≡ basement_moment_row (fraction a) self }
    {
        let (steady, seismic) = (self.nonseismic_moment, self.seismic_moment);
        basement_row(2, a, steady, seismic, self.moment_strength)
    }
}
