// The soil under a footing, and take-down of its value: the laboratory's binary32 compared with its
// limits and taken by its bits to a whole number (01, "Soil and footing").
#![tactic(auto)]

ghost use Rattle.std.specs.Prelude.{ℕ, ◌≤◌, false, ◌≡◌, T};
ghost use Rattle.std.specs.Float.{binary32};
ghost use Rattle.std.specs.Float.Ieee.{of_bits};
ghost use Rattle.std.specs.Float.Ieee.Exact.{HasValue};
ghost use Rattle.soil.specs.Value.{allowed, cut};
ghost use Rattle.soil.specs.Answers.{answer_of};
ghost use Rattle.soil.specs.Taken.{taken, take_down, tangent_of, cohesion_of};
ghost use Rattle.soil.specs.Reading.{soil_allowed, soil_of};

// The values of a kind: from 0 to `limit`, taken down times `factor`.
#[derive(Clone, Copy)]
struct Scale {
    limit: f32,
    factor: u32,
}

// Tangents, taken down to ten-thousandths.
const TANGENT: Scale = Scale {
    limit: 2.0,
    factor: 10_000,
};

// Strengths in kPa, taken down to Pa.
const STRENGTH: Scale = Scale {
    limit: 1000.0,
    factor: 1_000,
};

// A granular soil holds the tangent of its friction angle, a cohesive one its undrained strength in
// kPa.
#[derive(Clone, Copy)]
pub enum Soil {
    Granular(f32),
    Cohesive(f32),
}

// The value of a bit pattern, at most 1000.0, times `factor`, taken down. The value is digits times
// 2 to the power of field - 150; in a field below 87 it is below 2 to the power of -40.
fn whole(bits: u32, factor: u32) -> u32
    requires value { T (allowed 1000 (of_bits binary32 bits)) }
    requires factor { factor ≤ 10000 }
    ensures { result ≡ cut factor (of_bits binary32 bits) }
{
    let field = bits >> 23;
    if field < 87 {
        return 0;
    }
    let digits = bits % 0x80_0000 + 0x80_0000;
    let product = u64::from(digits) * u64::from(factor);
    (product >> (150 - field)) as u32
}

impl Scale {
    // Take-down of `value`. A NaN is not at most the limit; `top` is the limit as a whole number. `answer_of` gives 01's number, offset and
    // value of each case.
    fn take(self, value: f32) -> Option<u32>
        requires limit { T (allowed 1000 self.limit) }
        requires factor { self.factor ≤ 10000 }
        ensures { (top : ℕ) → HasValue self.limit false top 1 → answer_of result ≡ taken top self.factor value }
    {
        if value <= self.limit {
            let bits = f32::to_bits(value);
            if bits < 0x8000_0000 {
                return Some(whole(bits, self.factor));
            }
        }
        None
    }
}

// Take-down of one soil value. The kind is the number that a caller in C gives; an enum for it would add a match of its own.
#[tactic(auto, using(crate::proofs::Laws::by_kind), unfolding(crate::specs::Answers::answer_of))]
pub fn take_down(kind: u8, value: f32) -> Option<u32>
    ensures { answer_of result ≡ take_down kind value }
{
    match kind {
        0 => TANGENT.take(value),
        1 => STRENGTH.take(value),
        _ => None,
    }
}

// t of a granular soil, 0 where the tangent is out of range: no job gets so far, it is refused with 5.
#[tactic(auto, using(crate::proofs::Laws::value_or_0, crate::proofs::Laws::tangent_le, crate::proofs::Patterns::limits), unfolding(crate::specs::Taken::tangent_of, crate::specs::Taken::take_down))]
pub fn tangent(value: f32) -> u32
    ensures value { result ≡ tangent_of value }
    ensures bound { result ≤ 20000 }
{
    TANGENT.take(value).unwrap_or(0)
}

// s of a cohesive soil in Pa, 0 where the strength is out of range: likewise.
#[tactic(auto, using(crate::proofs::Laws::value_or_0, crate::proofs::Laws::cohesion_le, crate::proofs::Patterns::limits), unfolding(crate::specs::Taken::cohesion_of, crate::specs::Taken::take_down))]
pub fn cohesion(value: f32) -> u32
    ensures value { result ≡ cohesion_of value }
    ensures bound { result ≤ 1000000 }
{
    STRENGTH.take(value).unwrap_or(0)
}

// The soil of a kind and the 32 bits of its value, where both are in range. From 0x7f80_0000 on the bits
// are an infinity's or a NaN's, or have the sign bit set. The kind is the number as it stands in a file or as a
// caller of `write` gives it.
#[tactic(auto, using(crate::proofs::Laws::reading))]
pub fn from_bits(kind: u8, bits: u32) -> Option<Soil>
    ensures { result ≡ soil_of kind bits }
{
    if bits >= 0x7f80_0000 {
        return None;
    }
    let value = f32::from_bits(bits);
    match kind {
        0 if value <= TANGENT.limit => Some(Soil::Granular(value)),
        1 if value <= STRENGTH.limit => Some(Soil::Cohesive(value)),
        _ => None,
    }
}

// Whether a kind, a number as above, and the 32 bits of a value are those of a soil.
#[tactic(auto, using(crate::proofs::Laws::some_soil))]
pub fn in_range(kind: u8, bits: u32) -> bool
    ensures { result ≡ soil_allowed kind bits }
{
    from_bits(kind, bits).is_some()
}
