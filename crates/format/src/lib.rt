// The commands of a job: one value with its operands, read from their bytes; the range test of its values; the operand at fault.
// 01, "Job commands"; 02, No. 9 and No. 10.
// The check opens at each goal what says where operands stand, how wide they are and what their ranges are.
#![tactic(auto, unfolding(crate::specs::Commands::command_of, crate::specs::Commands::in_range, crate::specs::Commands::all_in_range, crate::specs::Commands::related, layout::specs::Operands::operand, layout::specs::Operands::offset_of, layout::specs::Layouts::operands_width, layout::specs::Layouts::width_of_all, layout::specs::Layouts::forms_of, layout::specs::Layouts::forms_in, layout::specs::Forms::width, layout::specs::Forms::form_in_range))]

ghost use Rattle.std.specs.Prelude.{◌≡◌, true, ◌+◌, ◌≤◌, length};
ghost use Rattle.soil.specs.Reading.{soil_allowed};
ghost use Rattle.layout.specs.declared.Kind.{Kind};
ghost use Rattle.layout.specs.declared.Kind.TheVariants as kind;
ghost use Rattle.layout.specs.Layouts.{known, byte_of_kind, operands_width};
ghost use Rattle.format.specs.Commands.{Command, byte_of, settings, joint, column, beam, hingeless, wall_base, storey, soil, footing, detail, basement, in_range, relation_operand, relation_names, operand_at_fault, storey_of};
ghost use Rattle.format.specs.Reading.{command_in};

use basement::Basement;
use coefficient::Settings;
use footing::Footing;
use layout::{Form, Kind};
use members::{Beam, Column, Detail, Hingeless, Joint};
use quantity::{Factor, Force, Length, Moment, Quantity};
use walls::{Storey, WallBase};

// A soil as it is given: kind 0 granular, 1 cohesive; the 32 bits of the value; sensitive 0 or 1. Kept at 32 bits each, as a detail's
// place and a footing's flags are: a narrower type would ask more of a caller of `write`, who may give any value.
#[derive(Clone, Copy)]
pub struct SoilGiven {
    pub kind: u32,
    pub value: u32,
    pub sensitive: u32,
}

// A command with its operands; a joint under its id, a member without hinges between two joints, by their ids, a basement member by the id
// of its joint.
#[derive(Clone, Copy)]
pub enum Command {
    Finish,
    Settings(Settings),
    Joint(u8, Joint),
    Column(Column),
    Beam(Beam),
    Hingeless(u8, u8, Hingeless),
    WallBase(WallBase),
    Storey(Storey),
    Soil(SoilGiven),
    Footing(Footing),
    Detail(Detail),
    Basement(u8, Basement),
    Building,
}

// ---- the values of each command

// Each kind reads its operands at offsets written out: with a loop over its forms `run` took 2.3 to 5.8 times the time of plain Rust.

// Whether a soil's kind and value are those of a soil; a kind above 255 is none.
fn soil_related(kind: u32, bits: u32) -> bool
    ensures { result ≡ soil_allowed kind bits }
{
    match u8::try_from(kind) {
        Ok(kind) => soil::in_range(kind, bits),
        Err(_) => false,
    }
}

// The values of one kind of command.
pub trait Operands: Copy {
    // The command of these values.
    ghost command: { Self → Command };

    ghost KIND: { Kind };

    const KIND: Kind;

    // Read from the bytes behind the command's own.
    fn read(operands: &[u8]) -> Self
        requires { length operands.now ≡ operands_width (byte_of_kind KIND) }
        ensures { command result ≡ command_in KIND operands.now };

    // Whether every operand is in its range, and the relation between them holds.
    fn in_range(self) -> bool
        ensures { result ≡ in_range (command self) };
}

impl Operands for Settings {
    ghost command = { λ x. settings x };

    ghost KIND = { kind.Settings };

    const KIND: Kind = Kind::Settings;

    fn read(operands: &[u8]) -> Settings {
        Settings {
            behaviour: layout::unsigned(&operands[0..2]),
            joints: layout::unsigned(&operands[2..4]),
            foundations: layout::unsigned(&operands[4..6]),
        }
    }

    fn in_range(self) -> bool {
        Factor::behaviour_in_range(self.behaviour)
            & Factor::overstrength_in_range(self.joints)
            & Factor::overstrength_in_range(self.foundations)
    }
}

impl Operands for (u8, Joint) {
    ghost command = { λ x. joint x.0 x.1 };

    ghost KIND = { kind.Joint };

    const KIND: Kind = Kind::Joint;

    fn read(operands: &[u8]) -> (u8, Joint) {
        (
            operands[0],
            Joint {
                beams: layout::unsigned(&operands[1..5]),
                columns: layout::unsigned(&operands[5..9]),
                seismic: layout::unsigned(&operands[9..13]),
            },
        )
    }

    fn in_range(self) -> bool {
        let (_, joint) = self;
        Moment::in_range(joint.beams)
            & Moment::in_range(joint.columns)
            & Moment::in_range(joint.seismic)
    }
}

impl Operands for Column {
    ghost command = { λ x. column x };

    ghost KIND = { kind.Column };

    const KIND: Kind = Kind::Column;

    fn read(operands: &[u8]) -> Column {
        Column {
            length: layout::unsigned(&operands[0..4]),
            plus1: layout::unsigned(&operands[4..8]),
            plus2: layout::unsigned(&operands[8..12]),
            minus1: layout::unsigned(&operands[12..16]),
            minus2: layout::unsigned(&operands[16..20]),
            shear: layout::unsigned(&operands[20..24]),
            strength: layout::unsigned(&operands[24..28]),
        }
    }

    fn in_range(self) -> bool {
        Length::member_in_range(self.length)
            & Moment::in_range(self.plus1)
            & Moment::in_range(self.plus2)
            & Moment::in_range(self.minus1)
            & Moment::in_range(self.minus2)
            & Force::in_range(self.shear) // VE
            & Force::in_range(self.strength) // VR
    }
}

impl Operands for Beam {
    ghost command = { λ x. beam x };

    ghost KIND = { kind.Beam };

    const KIND: Kind = Kind::Beam;

    fn read(operands: &[u8]) -> Beam {
        Beam {
            length: layout::unsigned(&operands[0..4]),
            plus1: layout::unsigned(&operands[4..8]),
            plus2: layout::unsigned(&operands[8..12]),
            minus1: layout::unsigned(&operands[12..16]),
            minus2: layout::unsigned(&operands[16..20]),
            nonseismic: layout::signed(&operands[20..24]),
            shear: layout::unsigned(&operands[24..28]),
            strength: layout::unsigned(&operands[28..32]),
        }
    }

    fn in_range(self) -> bool {
        Length::member_in_range(self.length)
            & Moment::in_range(self.plus1)
            & Moment::in_range(self.plus2)
            & Moment::in_range(self.minus1)
            & Moment::in_range(self.minus2)
            & Force::signed_in_range(self.nonseismic)
            & Force::in_range(self.shear)
            & Force::in_range(self.strength)
    }
}

impl Operands for (u8, u8, Hingeless) {
    ghost command = { λ x. hingeless x.0 x.1 x.2 };

    ghost KIND = { kind.Hingeless };

    const KIND: Kind = Kind::Hingeless;

    fn read(operands: &[u8]) -> (u8, u8, Hingeless) {
        (
            operands[4],
            operands[5],
            Hingeless {
                length: layout::unsigned(&operands[0..4]),
                moment1: layout::unsigned(&operands[6..10]),
                moment2: layout::unsigned(&operands[10..14]),
                nonseismic: layout::signed(&operands[14..18]),
                strength: layout::unsigned(&operands[18..22]),
            },
        )
    }

    fn in_range(self) -> bool {
        let (_, _, member) = self;
        Length::member_in_range(member.length)
            & Moment::in_range(member.moment1)
            & Moment::in_range(member.moment2)
            & Force::signed_in_range(member.nonseismic)
            & Force::in_range(member.strength)
    }
}

impl Operands for WallBase {
    ghost command = { λ x. wall_base x };

    ghost KIND = { kind.WallBase };

    const KIND: Kind = Kind::WallBase;

    fn read(operands: &[u8]) -> WallBase {
        WallBase {
            length: layout::unsigned(&operands[0..4]),
            thickness: layout::unsigned(&operands[4..8]),
            resistance: layout::unsigned(&operands[8..12]),
            moment: layout::unsigned(&operands[12..16]),
            shear: layout::unsigned(&operands[16..20]),
            strength: layout::unsigned(&operands[20..24]),
        }
    }

    fn in_range(self) -> bool {
        Length::wall_in_range(self.length)
            & Length::wall_in_range(self.thickness)
            & Moment::in_range(self.resistance)
            & Moment::in_range(self.moment)
            & Force::in_range(self.shear)
            & Force::in_range(self.strength)
    }
}

impl Operands for Storey {
    ghost command = { λ x. storey x };

    ghost KIND = { kind.Storey };

    const KIND: Kind = Kind::Storey;

    fn read(operands: &[u8]) -> Storey {
        Storey {
            moment: layout::unsigned(&operands[0..4]),
            shear: layout::unsigned(&operands[4..8]),
            inertia: layout::unsigned(&operands[8..12]),
            base_inertia: layout::unsigned(&operands[12..16]),
            strength: layout::unsigned(&operands[16..20]),
            resistance: layout::unsigned(&operands[20..24]),
        }
    }

    fn in_range(self) -> bool {
        Moment::in_range(self.moment)
            & Force::in_range(self.shear)
            & Form::Inertia.in_range(self.inertia)
            & Form::Inertia.in_range(self.base_inertia)
            & Force::in_range(self.strength)
            & Moment::in_range(self.resistance)
            & (self.inertia <= self.base_inertia)
    }
}

impl Operands for SoilGiven {
    ghost command = { λ x. soil x };

    ghost KIND = { kind.Soil };

    const KIND: Kind = Kind::Soil;

    fn read(operands: &[u8]) -> SoilGiven {
        SoilGiven {
            kind: layout::unsigned(&operands[0..1]),
            value: layout::unsigned(&operands[1..5]),
            sensitive: layout::unsigned(&operands[5..6]),
        }
    }

    fn in_range(self) -> bool {
        Form::SoilKind.in_range(self.kind)
            & Form::YesNo.in_range(self.sensitive)
            & soil_related(self.kind, self.value)
    }
}

impl Operands for Footing {
    ghost command = { λ x. footing x };

    ghost KIND = { kind.Footing };

    const KIND: Kind = Kind::Footing;

    fn read(operands: &[u8]) -> Footing {
        Footing {
            breadth: layout::unsigned(&operands[0..4]),
            length: layout::unsigned(&operands[4..8]),
            resistance: layout::unsigned(&operands[8..12]),
            moment: layout::unsigned(&operands[12..16]),
            nv: layout::signed(&operands[16..20]),
            ne: layout::signed(&operands[20..24]),
            xv: layout::signed(&operands[24..28]),
            xe: layout::signed(&operands[28..32]),
            yv: layout::signed(&operands[32..36]),
            ye: layout::signed(&operands[36..40]),
            hv: layout::signed(&operands[40..44]),
            he: layout::signed(&operands[44..48]),
            uplift: layout::unsigned(&operands[48..52]),
            passive: layout::unsigned(&operands[52..56]),
            flags: layout::unsigned(&operands[56..57]),
        }
    }

    fn in_range(self) -> bool {
        Length::side_in_range(self.breadth)
            & Length::side_in_range(self.length)
            & Moment::in_range(self.resistance)
            & Moment::in_range(self.moment)
            & Force::signed_in_range(self.nv)
            & Force::signed_in_range(self.ne)
            & Moment::signed_in_range(self.xv)
            & Moment::signed_in_range(self.xe)
            & Moment::signed_in_range(self.yv)
            & Moment::signed_in_range(self.ye)
            & Force::signed_in_range(self.hv)
            & Force::signed_in_range(self.he)
            & Force::in_range(self.uplift)
            & Force::in_range(self.passive)
            & Form::FootingFlags.in_range(self.flags)
    }
}

impl Operands for Detail {
    ghost command = { λ x. detail x };

    ghost KIND = { kind.Detail };

    const KIND: Kind = Kind::Detail;

    fn read(operands: &[u8]) -> Detail {
        Detail {
            place: layout::unsigned(&operands[0..1]),
            ultimate: layout::unsigned(&operands[1..3]),
            yielded: layout::unsigned(&operands[3..5]),
            ductility: layout::unsigned(&operands[5..7]),
            lap: layout::unsigned(&operands[7..8]),
        }
    }

    fn in_range(self) -> bool {
        Form::Place.in_range(self.place)
            & Form::Depth.in_range(self.ultimate)
            & Form::Depth.in_range(self.yielded)
            & Form::Ductility.in_range(self.ductility)
            & Form::YesNo.in_range(self.lap)
    }
}

impl Operands for (u8, Basement) {
    ghost command = { λ x. basement x.0 x.1 };

    ghost KIND = { kind.Basement };

    const KIND: Kind = Kind::Basement;

    fn read(operands: &[u8]) -> (u8, Basement) {
        (
            operands[1],
            Basement {
                place: layout::unsigned(&operands[0..1]),
                nonseismic_shear: layout::signed(&operands[2..6]),
                seismic_shear: layout::unsigned(&operands[6..10]),
                nonseismic_moment: layout::signed(&operands[10..14]),
                seismic_moment: layout::unsigned(&operands[14..18]),
                shear_strength: layout::unsigned(&operands[18..22]),
                moment_strength: layout::unsigned(&operands[22..26]),
            },
        )
    }

    fn in_range(self) -> bool {
        let (id, member) = self;
        Form::HingePlace.in_range(member.place)
            & Force::signed_in_range(member.nonseismic_shear)
            & Force::in_range(member.seismic_shear)
            & Moment::signed_in_range(member.nonseismic_moment)
            & Moment::in_range(member.seismic_moment)
            & Force::in_range(member.shear_strength)
            & Moment::in_range(member.moment_strength)
            & ((member.place == 0) | (id == 0))
    }
}

// ---- a command

impl Command {
    // Its kind.
    pub fn kind(self) -> Kind
        ensures { byte_of_kind result ≡ byte_of self }
    {
        match self {
            Command::Finish => Kind::Finish,
            Command::Settings(_) => Kind::Settings,
            Command::Joint(_, _) => Kind::Joint,
            Command::Column(_) => Kind::Column,
            Command::Beam(_) => Kind::Beam,
            Command::Hingeless(_, _, _) => Kind::Hingeless,
            Command::WallBase(_) => Kind::WallBase,
            Command::Storey(_) => Kind::Storey,
            Command::Soil(_) => Kind::Soil,
            Command::Footing(_) => Kind::Footing,
            Command::Detail(_) => Kind::Detail,
            Command::Basement(_, _) => Kind::Basement,
            Command::Building => Kind::Building,
        }
    }

    // Whether every operand of a command is in its range, and the relation between them holds.
    #[tactic(auto)]
    #[inline(always)]
    pub fn in_range(self) -> bool
        ensures { result ≡ in_range self }
    {
        match self {
            Command::Finish => true,
            Command::Settings(s) => s.in_range(),
            Command::Joint(id, j) => (id, j).in_range(),
            Command::Column(c) => c.in_range(),
            Command::Beam(b) => b.in_range(),
            Command::Hingeless(id1, id2, m) => (id1, id2, m).in_range(),
            Command::WallBase(b) => b.in_range(),
            Command::Storey(s) => s.in_range(),
            Command::Soil(s) => s.in_range(),
            Command::Footing(f) => f.in_range(),
            Command::Detail(d) => d.in_range(),
            Command::Basement(id, m) => (id, m).in_range(),
            Command::Building => true,
        }
    }
}

// The operand that the relation between a command's operands names: J of a storey, the value of a soil, the id of a basement member.
fn relation_operand(kind: Kind) -> Option<u32>
    ensures { result ≡ relation_operand (byte_of_kind kind) }
{
    match kind {
        Kind::Storey => Some(2),
        Kind::Soil | Kind::Basement => Some(1),
        _ => None,
    }
}

// The operand at fault among a kind's operands. Over the slice itself, as the proof has the ranges of a parameter's bytes, and not those
// of a field's.
fn fault_among(kind: Kind, operands: &[u8]) -> u32
    requires width { length operands.now ≡ operands_width (byte_of_kind kind) }
    requires single { known (byte_of_kind kind) ≡ true }
    ensures { result ≡ operand_at_fault (command_in kind operands.now) }
{
    let mut rest = operands;
    for (place, form) in kind.forms().iter().enumerate() {
        let (operand, behind) = rest.split_at(form.width());
        if !form.in_range(layout::unsigned_of_any(operand)) {
            return place as u32;
        }
        rest = behind;
    }
    // 0 of a kind without a relation: its command is in range here, and nothing asks for an operand at fault
    relation_operand(kind).unwrap_or(0)
}

// ---- a command as it stands in a file

// A command by itself as it stands in a file: its kind, and the bytes of its operands.
#[derive(Clone, Copy)]
pub struct CommandBytes<'a> {
    pub kind: Kind,
    pub operands: &'a [u8],
    ghost width: { length operands.now ≡ operands_width (byte_of_kind kind) },
    ghost single: { known (byte_of_kind kind) ≡ true },
}

impl<'a> CommandBytes<'a> {
    // The command of a kind with these bytes of operands.
    pub fn new(kind: Kind, operands: &'a [u8]) -> Self
        requires width { length operands.now ≡ operands_width (byte_of_kind kind) }
        requires single { known (byte_of_kind kind) ≡ true }
        ensures kind { result.kind ≡ kind }
        ensures operands { result.operands ≡ operands.entry }
    {
        CommandBytes { kind, operands }
    }

    // The command itself, read from its operands.
    #[tactic(auto, unfolding(crate::specs::Commands::command_of))]
    #[inline(always)]
    pub fn read(self) -> Command
        ensures { result ≡ command_in self.entry.kind self.entry.operands.now }
    {
        let operands = self.operands;
        match self.kind {
            Kind::Finish => Command::Finish,
            Kind::Settings => Command::Settings(Settings::read(operands)),
            Kind::Joint => {
                let (id, joint) = <(u8, Joint)>::read(operands);
                Command::Joint(id, joint)
            }
            Kind::Column => Command::Column(Column::read(operands)),
            Kind::Beam => Command::Beam(Beam::read(operands)),
            Kind::Hingeless => {
                let (id1, id2, member) = <(u8, u8, Hingeless)>::read(operands);
                Command::Hingeless(id1, id2, member)
            }
            Kind::WallBase => Command::WallBase(WallBase::read(operands)),
            Kind::Storey => Command::Storey(Storey::read(operands)),
            Kind::Soil => Command::Soil(SoilGiven::read(operands)),
            Kind::Footing => Command::Footing(Footing::read(operands)),
            Kind::Detail => Command::Detail(Detail::read(operands)),
            Kind::Block => unreachable!(),
            Kind::Basement => {
                let (id, member) = <(u8, Basement)>::read(operands);
                Command::Basement(id, member)
            }
            Kind::Building => Command::Building,
        }
    }

    // The operand at fault of a command that is out of range, counted from 0, among its operands.
    pub fn operand_at_fault(self) -> u32
        ensures { result ≡ operand_at_fault (command_in self.entry.kind self.entry.operands.now) }
    {
        fault_among(self.kind, self.operands)
    }
}
