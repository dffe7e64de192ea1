// The quantities of a job, each a type of its own with its greatest value and its range checks, and the ranges of the factors.
// 01, "Quantities" and "Job commands"; form: "associated constants and range checks of the force, moment and length types".
#![tactic(auto)]

ghost use Rattle.std.specs.Prelude.{◌≡◌, ℕ};
ghost use Rattle.quantity.specs.Range.{within, within_signed};
ghost use Rattle.quantity.specs.Quantities.{force_limit, moment_limit, member_length, wall_length, side, behaviour, overstrength};

// A quantity from 0, or where it has a sign from minus the greatest, to its greatest value.
pub trait Quantity {
    const GREATEST: u32;

    ghost GREATEST: { ℕ };

    final fn in_range(value: u32) -> bool
        ensures { result ≡ within (record { least = 0; greatest = GREATEST }) value }
    {
        between(value, 0, Self::GREATEST)
    }

    final fn signed_in_range(value: i32) -> bool
        ensures { result ≡ within_signed GREATEST value }
    {
        signed_between(value, Self::GREATEST)
    }
}

// Newtons.
#[derive(Drop)]
pub struct Force(pub u32);

// Newton metres.
#[derive(Drop)]
pub struct Moment(pub u32);

// Millimetres.
#[derive(Drop)]
pub struct Length(pub u32);

// Both ends included. The ends are two numbers, as a constant cannot be made by the call that makes a range.
#[tactic(auto, unfolding(crate::specs::Range::within))]
pub fn between(value: u32, least: u32, greatest: u32) -> bool
    ensures { result ≡ within (record { least = least; greatest = greatest }) value }
{
    (least..=greatest).contains(&value)
}

// From minus the greatest value to the greatest.
#[tactic(auto, unfolding(crate::specs::Range::within_signed))]
pub fn signed_between(value: i32, greatest: u32) -> bool
    ensures { result ≡ within_signed greatest value }
{
    value.unsigned_abs() <= greatest
}

impl Quantity for Force {
    const GREATEST: u32 = 100_000_000; // newtons

    ghost GREATEST = { force_limit };
}

impl Quantity for Moment {
    const GREATEST: u32 = 100_000_000; // newton metres

    ghost GREATEST = { moment_limit };
}

impl Length {
    pub const GREATEST: u32 = 100_000; // millimetres

    // Each range below is one call of `between` with two constants; a type for each would be longer.
    pub const LEAST_OF_MEMBER: u32 = 500;

    pub const LEAST_OF_WALL: u32 = 100;

    pub const GREATEST_OF_WALL: u32 = 10_000;

    pub const LEAST_SIDE: u32 = 500;

    pub const GREATEST_SIDE: u32 = 20_000;

    // The length of a column, a beam or a member without hinges.
    pub fn member_in_range(millimetres: u32) -> bool
        ensures { result ≡ within member_length millimetres }
    {
        between(millimetres, Length::LEAST_OF_MEMBER, Length::GREATEST)
    }

    // The length or the thickness of a wall.
    pub fn wall_in_range(millimetres: u32) -> bool
        ensures { result ≡ within wall_length millimetres }
    {
        between(millimetres, Length::LEAST_OF_WALL, Length::GREATEST_OF_WALL)
    }

    // A side of a footing.
    pub fn side_in_range(millimetres: u32) -> bool
        ensures { result ≡ within side millimetres }
    {
        between(millimetres, Length::LEAST_SIDE, Length::GREATEST_SIDE)
    }
}

// Factors, in hundredths.
#[derive(Drop)]
pub struct Factor(pub u16);

impl Factor {
    pub const LEAST: u32 = 100;

    pub const GREATEST_BEHAVIOUR: u32 = 400;

    pub const GREATEST_OVERSTRENGTH: u32 = 200;

    // q, the behaviour factor.
    pub fn behaviour_in_range(hundredths: u32) -> bool
        ensures { result ≡ within behaviour hundredths }
    {
        between(hundredths, Factor::LEAST, Factor::GREATEST_BEHAVIOUR)
    }

    // gj and gf, the overstrengths of joints and of foundations.
    pub fn overstrength_in_range(hundredths: u32) -> bool
        ensures { result ≡ within overstrength hundredths }
    {
        between(hundredths, Factor::LEAST, Factor::GREATEST_OVERSTRENGTH)
    }
}
