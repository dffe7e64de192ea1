// An action V ± a·E, a non-seismic value plus or minus the coefficient times a seismic one, unrounded: `exact::Sum` rounds it. A footing, a
// basement member and a beam (`members`) take theirs from here.
#![tactic(auto)]

ghost use Rattle.std.specs.Prelude.{◌≡◌, pos, ◌*ℤ◌};
ghost use Rattle.coefficient.specs.Coefficient.{fraction};
ghost use Rattle.actions.specs.Action.{action};
ghost use Rattle.actions.specs.Ranges.{turned, PartFits, ActionFits};

use coefficient::Quotient;
use exact::Sum;

// The sign of a direction.
#[derive(Clone, Copy)]
pub enum Sign {
    Plus,
    Minus,
}

// ± a·E over the denominator of a.
#[tactic(auto, using(crate::proofs::Sums::part_fits, crate::proofs::Sums::negated_fits))]
fn seismic_part(a: Quotient, e: i32, sign: Sign) -> i64
    requires { PartFits a e }
    ensures { result ≡ turned sign (pos a.num *ℤ e) }
{
    let part = (a.num as i64) * i64::from(e);
    match sign {
        Sign::Plus => part,
        Sign::Minus => -part,
    }
}

// V ± a·E.
#[tactic(auto, using(crate::proofs::Sums::sum_fits, crate::proofs::Sums::action_is))]
pub fn action(a: Quotient, v: i32, e: i32, sign: Sign) -> Sum
    requires { ActionFits a v e }
    ensures { result ≡ action sign (fraction a) v e }
{
    Sum::new(i64::from(v), seismic_part(a, e, sign), a.den)
}
