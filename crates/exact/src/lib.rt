// Quotients and sums whole + num/den rounded down (floor) and up (ceiling), right below zero and at the ends of i64.
// 01, "The form each place needs": "signed quotients with floor and ceiling, right below zero and at the ends".
#![tactic(auto)]

ghost use Rattle.std.specs.Prelude.{◌≡◌, ◌^◌, ◌<◌, pos, nat_abs, ◌<ℤ◌};
ghost use Rattle.std.proofs.Math.IntN.{sub_ℕ};
ghost use Rattle.exact.specs.Quotient.{down_ℤ, up_ℤ};
ghost use Rattle.exact.specs.Fraction.{up_f};
ghost use Rattle.exact.specs.SignedFraction.{SignedFraction, whole_s, ratio_s, ◌+S◌, up_s, down_s, size};
ghost use Rattle.exact.specs.Sums.{SumFits};

use std::marker::Model;

// n / d, down: for a positive divisor the library's quotient.
pub fn floor_div(n: i64, d: i64) -> i64
    requires { pos 0 <ℤ d }
    ensures { result ≡ down_ℤ n (nat_abs d) }
{
    n.div_euclid(d)
}

// n / d, up, which the library has for unsigned numbers alone. `/` rounds towards zero: that is up where n is not above 0. No step
// overflows at the ends of i64.
#[tactic(auto, using(crate::proofs::Quotients::ceil_low, crate::proofs::Quotients::ceil_high))]
pub fn ceil_div(n: i64, d: i64) -> i64
    requires { pos 0 <ℤ d }
    ensures { result ≡ up_ℤ n (nat_abs d) }
{
    if n <= 0 { n / d } else { 1 + (n - 1) / d }
}

// whole + num / den, worked out as (whole·den + num) / den, which fits an i64.
#[derive(Drop)]
pub struct Sum {
    whole: i64,
    num: i64,
    den: u64,
}

impl Model for Sum {
    ghost Value = { SignedFraction };

    ghost view = { λ s. whole_s s.whole +S ratio_s s.num s.den };

    ghost invariant = { λ s. SumFits s.whole s.num s.den };
}

impl Sum {
    // whole + num / den.
    pub fn new(whole: i64, num: i64, den: u64) -> Self
        requires { SumFits whole num den }
        ensures { result ≡ whole_s whole +S ratio_s num den }
    {
        Sum { whole, num, den }
    }

    // whole·den + num, the numerator over den.
    fn total(&self) -> i64
        ensures { result ≡ sub_ℕ self.now.plus self.now.minus }
    {
        self.whole * (self.den as i64) + self.num
    }

    // The sum, up.
    pub fn up(self) -> i64
        ensures { result ≡ up_s self }
    {
        ceil_div(self.total(), self.den as i64)
    }

    // The sum, down.
    pub fn down(self) -> i64
        ensures { result ≡ down_s self }
    {
        floor_div(self.total(), self.den as i64)
    }

    // The size of the sum without its sign, up; it fits an i64.
    #[tactic(auto, using(crate::proofs::Rounding::ceil_is, crate::proofs::Integers::size_of_difference))]
    pub fn size_up(self) -> u64
        ensures up { result ≡ up_f (size self) }
        ensures bound { result < 2 ^ 63 }
    {
        self.total().unsigned_abs().div_ceil(self.den)
    }
}
