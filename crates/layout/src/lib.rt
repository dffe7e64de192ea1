// The layout of a job's commands: the forms of operands with their widths and ranges, the kinds of commands with the operands of each
// in order, and the numbers of a file. 01, "Job commands"; 02, No. 9 and No. 10.
#![tactic(auto)]

ghost use Rattle.std.specs.Prelude.{◌≡◌, ◌+◌, ◌≤◌, ◌<◌, length, get_or, take, drop, MatchResult, Some, None};
ghost use Rattle.layout.specs.Number.{number as number_of, signed32};
ghost use Rattle.layout.specs.Forms.{width, form_in_range};
ghost use Rattle.layout.specs.Layouts.{kind_of, byte_of_kind, forms_of, operands_width};

use quantity::{Factor, Force, Length, Moment, Quantity};

// The forms of operands.
#[derive(Clone, Copy)]
pub enum Form {
    Id,
    Behaviour,
    Overstrength,
    MemberLength,
    Moment,
    Force,
    SignedMoment,
    SignedForce,
    WallLength,
    Inertia,
    SoilKind,
    SoilValue,
    YesNo,
    Side,
    FootingFlags,
    Place,
    Depth,
    Ductility,
    HingePlace,
}

// The ranges that are no quantity's.
pub const LEAST_INERTIA: u32 = 1;

pub const GREATEST_INERTIA: u32 = 0xffff_ffff;

pub const GREATEST_KIND: u32 = 1;

pub const YES: u32 = 1;

pub const GREATEST_FLAGS: u32 = 7;

pub const GREATEST_PLACE: u32 = 2;

pub const GREATEST_DEPTH: u32 = 1000;

pub const LEAST_DUCTILITY: u32 = 1000;

pub const GREATEST_DUCTILITY: u32 = 2000;

pub const GREATEST_HINGE_PLACE: u32 = 1;

impl Form {
    // The bytes of an operand.
    #[tactic(auto, unfolding(crate::specs::Forms::width))]
    pub fn width(self) -> usize
        ensures { result ≡ width self }
    {
        match self {
            Form::Id => 1,
            Form::Behaviour => 2,
            Form::Overstrength => 2,
            Form::MemberLength => 4,
            Form::Moment => 4,
            Form::Force => 4,
            Form::SignedMoment => 4,
            Form::SignedForce => 4,
            Form::WallLength => 4,
            Form::Inertia => 4,
            Form::SoilKind => 1,
            Form::SoilValue => 4,
            Form::YesNo => 1,
            Form::Side => 4,
            Form::FootingFlags => 1,
            Form::Place => 1,
            Form::Depth => 2,
            Form::Ductility => 2,
            Form::HingePlace => 1,
        }
    }

    // Whether an operand, as it stands in the file, is in the range of its form.
    #[tactic(auto, unfolding(crate::specs::Forms::form_in_range))]
    pub fn in_range(self, value: u32) -> bool
        ensures { result ≡ form_in_range self value }
    {
        match self {
            Form::Id => true,
            Form::Behaviour => Factor::behaviour_in_range(value),
            Form::Overstrength => Factor::overstrength_in_range(value),
            Form::MemberLength => Length::member_in_range(value),
            Form::Moment => Moment::in_range(value),
            Form::Force => Force::in_range(value),
            Form::SignedMoment => Moment::signed_in_range(value.cast_signed()),
            Form::SignedForce => Force::signed_in_range(value.cast_signed()),
            Form::WallLength => Length::wall_in_range(value),
            Form::Inertia => quantity::between(value, LEAST_INERTIA, GREATEST_INERTIA),
            Form::SoilKind => quantity::between(value, 0, GREATEST_KIND),
            Form::SoilValue => true,
            Form::YesNo => quantity::between(value, 0, YES),
            Form::Side => Length::side_in_range(value),
            Form::FootingFlags => quantity::between(value, 0, GREATEST_FLAGS),
            Form::Place => quantity::between(value, 0, GREATEST_PLACE),
            Form::Depth => quantity::between(value, 0, GREATEST_DEPTH),
            Form::Ductility => quantity::between(value, LEAST_DUCTILITY, GREATEST_DUCTILITY),
            Form::HingePlace => quantity::between(value, 0, GREATEST_HINGE_PLACE),
        }
    }
}

// The kinds of commands, each numbered as its byte. A block is one, though its count and sets (`blocks`) have no fixed width: with no gap in the
// numbers a byte is its kind as it stands.
#[derive(Clone, Copy)]
pub enum Kind {
    Finish,
    Settings,
    Joint,
    Column,
    Beam,
    Hingeless,
    WallBase,
    Storey,
    Soil,
    Footing,
    Detail,
    Block,
    Basement,
    Building,
}

// A byte that no command begins with.
#[derive(Clone, Copy, Debug, PartialEq, Eq)]
pub struct UnknownByte;

// The kind of a command's byte; any other byte has none.
impl TryFrom<u8> for Kind {
    type Error = UnknownByte;

    ghost try_from_gives = { λ byte r. MatchResult r (λ kind. kind_of byte ≡ Some kind) (λ _. kind_of byte ≡ None) };

    #[tactic(auto, unfolding(crate::specs::Layouts::kind_of))]
    fn try_from(byte: u8) -> Result<Kind, UnknownByte> {
        match byte {
            0 => Ok(Kind::Finish),
            1 => Ok(Kind::Settings),
            2 => Ok(Kind::Joint),
            3 => Ok(Kind::Column),
            4 => Ok(Kind::Beam),
            5 => Ok(Kind::Hingeless),
            6 => Ok(Kind::WallBase),
            7 => Ok(Kind::Storey),
            8 => Ok(Kind::Soil),
            9 => Ok(Kind::Footing),
            10 => Ok(Kind::Detail),
            11 => Ok(Kind::Block),
            12 => Ok(Kind::Basement),
            13 => Ok(Kind::Building),
            _ => Err(UnknownByte),
        }
    }
}

// The byte of a kind.
impl From<Kind> for u8 {
    ghost from_gives = { λ kind byte. byte ≡ byte_of_kind kind };

    fn from(kind: Kind) -> u8 {
        kind as u8
    }
}

// The bytes of the operands of each kind, in the order of the kinds; those of a block have no fixed width. A static stands once in the
// program, and a width is one load from it; a match becomes jumps in the walk, where its byte is compared with that of a block.
static WIDTHS: [usize; 14] = [0, 6, 13, 28, 32, 22, 24, 24, 6, 57, 8, 0, 26, 0];

impl Kind {
    // The bytes of its operands, where they have a fixed width. A table: as the sum over `forms`, which is proved as well, `run` takes 1.4 to
    // 1.8 times the instructions.
    #[tactic(auto, using(crate::proofs::Widths::bytes_few, crate::proofs::Widths::is_widths))]
    pub fn width(self) -> usize
        ensures { result ≡ operands_width (byte_of_kind self) }
    {
        WIDTHS[usize::from(u8::from(self))]
    }

    // The forms of its operands, in order.
    #[tactic(auto, unfolding(crate::specs::Layouts::forms_of, crate::specs::Layouts::forms_in))]
    pub fn forms(self) -> &'static [Form]
        ensures { result.now ≡ forms_of (byte_of_kind self) }
    {
        match self {
            Kind::Finish | Kind::Block | Kind::Building => &[],
            // q, gj, gf
            Kind::Settings => &[Form::Behaviour, Form::Overstrength, Form::Overstrength],
            // id; RB, RC, EB
            Kind::Joint => &[Form::Id, Form::Moment, Form::Moment, Form::Moment],
            // length; R1, R2 plus, R1, R2 minus; VE; VR
            Kind::Column => &[
                Form::MemberLength,
                Form::Moment,
                Form::Moment,
                Form::Moment,
                Form::Moment,
                Form::Force,
                Form::Force,
            ],
            // length; R1, R2 plus, R1, R2 minus; V0; VE; VR
            Kind::Beam => &[
                Form::MemberLength,
                Form::Moment,
                Form::Moment,
                Form::Moment,
                Form::Moment,
                Form::SignedForce,
                Form::Force,
                Form::Force,
            ],
            // length; two joint ids; ME1, ME2; V0; VR
            Kind::Hingeless => &[
                Form::MemberLength,
                Form::Id,
                Form::Id,
                Form::Moment,
                Form::Moment,
                Form::SignedForce,
                Form::Force,
            ],
            // length, thickness; MR, ME, VE, VR
            Kind::WallBase => &[
                Form::WallLength,
                Form::WallLength,
                Form::Moment,
                Form::Moment,
                Form::Force,
                Form::Force,
            ],
            // ME, VE, J, J0, VR, MS
            Kind::Storey => &[
                Form::Moment,
                Form::Force,
                Form::Inertia,
                Form::Inertia,
                Form::Force,
                Form::Moment,
            ],
            // kind; value; sensitive
            Kind::Soil => &[Form::SoilKind, Form::SoilValue, Form::YesNo],
            // B, L; MR, ME; NV, NE, XV, XE, YV, YE, HV, HE; U, P; flags
            Kind::Footing => &[
                Form::Side,
                Form::Side,
                Form::Moment,
                Form::Moment,
                Form::SignedForce,
                Form::SignedForce,
                Form::SignedMoment,
                Form::SignedMoment,
                Form::SignedMoment,
                Form::SignedMoment,
                Form::SignedForce,
                Form::SignedForce,
                Form::Force,
                Form::Force,
                Form::FootingFlags,
            ],
            // place; xu, xy; mu; lap
            Kind::Detail => &[
                Form::Place,
                Form::Depth,
                Form::Depth,
                Form::Ductility,
                Form::YesNo,
            ],
            // place, id; VV, VE; MV, ME; VR, MR
            Kind::Basement => &[
                Form::HingePlace,
                Form::Id,
                Form::SignedForce,
                Form::Force,
                Form::SignedMoment,
                Form::Moment,
                Form::Force,
                Form::Moment,
            ],
        }
    }
}

// ---- the numbers of a file

// The big-endian number of bytes whose count is known where it is called: read in one step.
pub fn unsigned(bytes: &[u8]) -> u32
    requires { length bytes.now ≤ 4 }
    ensures { result ≡ number_of bytes.now }
{
    let mut word = [0; 4];
    word[4 - bytes.len()..].copy_from_slice(bytes);
    u32::from_be_bytes(word)
}

// The same of a count that is not known before: byte by byte, as a copy of so many bytes would be a call of memcpy, which the
// archive for C does without.
pub fn unsigned_of_any(bytes: &[u8]) -> u32
    requires { length bytes.now ≤ 4 }
    ensures { result ≡ number_of bytes.now }
{
    let mut value = 0;
    for byte in bytes {
        value = value * 256 + u32::from(*byte);
    }
    value
}

// The i32 of 4 bytes.
pub fn signed(bytes: &[u8]) -> i32
    requires { length bytes.now ≡ 4 }
    ensures { result ≡ signed32 (number_of bytes.now) }
{
    unsigned(bytes).cast_signed()
}
