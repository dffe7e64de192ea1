// The calls that write a job's commands, for programs in other languages: the values of a command as a struct, its bytes into the lent
// slice. None has a `requires`, and each contract is that of `writing::write` for the command of the values, or that of
// `writing::write_block`. 02, No. 2, No. 7, No. 9 and No. 10.
ghost use Rattle.std.specs.Prelude.{◌≡◌, length};
ghost use Rattle.std.specs.Float.{binary32};
ghost use Rattle.std.specs.Float.Ieee.{to_bits};
ghost use Rattle.members.specs.declared.Joint.{Joint};
ghost use Rattle.members.specs.declared.Hingeless.{Hingeless};
ghost use Rattle.basement.specs.declared.Basement.{Basement};
ghost use Rattle.format.specs.declared.Command.TheVariants.{Finish as finish, Settings as settings, Column as column, Beam as beam, WallBase as wall_base, Storey as storey, Soil as soil, Footing as footing, Detail as detail, Building as building};
ghost use Rattle.writing.specs.Answers.{answer_of, refused_with, write_of, bytes_after, write_given, bytes_given};
ghost use Rattle.writing.specs.BlockGiven.{write_block_of, block_bytes_after};
ghost use Rattle.capacity_c.specs.Commands.{write_answer, joint_of, hingeless_of, basement_of, settings_command, joint_command, column_command, beam_command, hingeless_command, wall_base_command, storey_command, soil_command, footing_command, detail_command, basement_command};

use basement::Basement;
use coefficient::Settings;
use footing::Footing;
use format::SoilGiven;
use members::{Beam, Column, Detail, Hingeless, Joint};
use walls::{Storey, WallBase};
use writing::{Building, End, WriteError};

// The answer of the calls that write.
#[repr(C)]
#[derive(Clone, Copy, Default)]
pub struct WriteAnswer {
    pub number: u32,
    pub offset: usize,
    pub bytes: usize,
}

// ---- the values of each command, in the file's order

#[repr(C)]
#[derive(Clone, Copy)]
pub struct SettingsOperands {
    pub q: u32,
    pub gj: u32,
    pub gf: u32,
}

#[repr(C)]
#[derive(Clone, Copy)]
pub struct JointOperands {
    pub id: u32,
    pub rb: u32,
    pub rc: u32,
    pub eb: u32,
}

#[repr(C)]
#[derive(Clone, Copy)]
pub struct ColumnOperands {
    pub length: u32,
    pub r1plus: u32,
    pub r2plus: u32,
    pub r1minus: u32,
    pub r2minus: u32,
    pub ve: u32,
    pub vr: u32,
}

#[repr(C)]
#[derive(Clone, Copy)]
pub struct BeamOperands {
    pub length: u32,
    pub r1plus: u32,
    pub r2plus: u32,
    pub r1minus: u32,
    pub r2minus: u32,
    pub v0: i32,
    pub ve: u32,
    pub vr: u32,
}

#[repr(C)]
#[derive(Clone, Copy)]
pub struct HingelessOperands {
    pub length: u32,
    pub id1: u32,
    pub id2: u32,
    pub me1: u32,
    pub me2: u32,
    pub v0: i32,
    pub vr: u32,
}

#[repr(C)]
#[derive(Clone, Copy)]
pub struct WallBaseOperands {
    pub length: u32,
    pub thickness: u32,
    pub mr: u32,
    pub me: u32,
    pub ve: u32,
    pub vr: u32,
}

#[repr(C)]
#[derive(Clone, Copy)]
pub struct StoreyOperands {
    pub me: u32,
    pub ve: u32,
    pub j: u32,
    pub j0: u32,
    pub vr: u32,
    pub ms: u32,
}

#[repr(C)]
#[derive(Clone, Copy)]
pub struct SoilOperands {
    pub kind: u32,
    pub value: f32,
    pub sensitive: u32,
}

#[repr(C)]
#[derive(Clone, Copy)]
pub struct FootingOperands {
    pub b: u32,
    pub l: u32,
    pub mr: u32,
    pub me: u32,
    pub nv: i32,
    pub ne: i32,
    pub xv: i32,
    pub xe: i32,
    pub yv: i32,
    pub ye: i32,
    pub hv: i32,
    pub he: i32,
    pub u: u32,
    pub p: u32,
    pub flags: u32,
}

#[repr(C)]
#[derive(Clone, Copy)]
pub struct DetailOperands {
    pub place: u32,
    pub xu: u32,
    pub xy: u32,
    pub mu: u32,
    pub lap: u32,
}

#[repr(C)]
#[derive(Clone, Copy)]
pub struct BasementOperands {
    pub place: u32,
    pub id: u32,
    pub vv: i32,
    pub ve: u32,
    pub mv: i32,
    pub me: u32,
    pub vr: u32,
    pub mr: u32,
}

// The 32 bits of a float; one pattern for every NaN.
fn bits_of(value: f32) -> u32
    ensures { result ≡ to_bits binary32 value }
{
    if value.is_nan() {
        0x7fc0_0000
    } else {
        value.to_bits()
    }
}

// ---- the values as those of a command

impl From<SettingsOperands> for Settings {
    ghost from_gives = { λ v x. settings x ≡ settings_command v };

    fn from(values: SettingsOperands) -> Settings {
        Settings {
            behaviour: values.q,
            joints: values.gj,
            foundations: values.gf,
        }
    }
}

impl From<JointOperands> for Joint {
    ghost from_gives = { λ v x. x ≡ joint_of v };

    fn from(values: JointOperands) -> Joint {
        Joint {
            beams: values.rb,
            columns: values.rc,
            seismic: values.eb,
        }
    }
}

impl From<ColumnOperands> for Column {
    ghost from_gives = { λ v x. column x ≡ column_command v };

    fn from(values: ColumnOperands) -> Column {
        Column {
            length: values.length,
            plus1: values.r1plus,
            plus2: values.r2plus,
            minus1: values.r1minus,
            minus2: values.r2minus,
            shear: values.ve,
            strength: values.vr,
        }
    }
}

impl From<BeamOperands> for Beam {
    ghost from_gives = { λ v x. beam x ≡ beam_command v };

    fn from(values: BeamOperands) -> Beam {
        Beam {
            length: values.length,
            plus1: values.r1plus,
            plus2: values.r2plus,
            minus1: values.r1minus,
            minus2: values.r2minus,
            nonseismic: values.v0,
            shear: values.ve,
            strength: values.vr,
        }
    }
}

impl From<HingelessOperands> for Hingeless {
    ghost from_gives = { λ v x. x ≡ hingeless_of v };

    fn from(values: HingelessOperands) -> Hingeless {
        Hingeless {
            length: values.length,
            moment1: values.me1,
            moment2: values.me2,
            nonseismic: values.v0,
            strength: values.vr,
        }
    }
}

impl From<WallBaseOperands> for WallBase {
    ghost from_gives = { λ v x. wall_base x ≡ wall_base_command v };

    fn from(values: WallBaseOperands) -> WallBase {
        WallBase {
            length: values.length,
            thickness: values.thickness,
            resistance: values.mr,
            moment: values.me,
            shear: values.ve,
            strength: values.vr,
        }
    }
}

impl From<StoreyOperands> for Storey {
    ghost from_gives = { λ v x. storey x ≡ storey_command v };

    fn from(values: StoreyOperands) -> Storey {
        Storey {
            moment: values.me,
            shear: values.ve,
            inertia: values.j,
            base_inertia: values.j0,
            strength: values.vr,
            resistance: values.ms,
        }
    }
}

impl From<SoilOperands> for SoilGiven {
    ghost from_gives = { λ v x. soil x ≡ soil_command v };

    fn from(values: SoilOperands) -> SoilGiven {
        SoilGiven {
            kind: values.kind,
            value: bits_of(values.value),
            sensitive: values.sensitive,
        }
    }
}

impl From<FootingOperands> for Footing {
    ghost from_gives = { λ v x. footing x ≡ footing_command v };

    fn from(values: FootingOperands) -> Footing {
        Footing {
            breadth: values.b,
            length: values.l,
            resistance: values.mr,
            moment: values.me,
            nv: values.nv,
            ne: values.ne,
            xv: values.xv,
            xe: values.xe,
            yv: values.yv,
            ye: values.ye,
            hv: values.hv,
            he: values.he,
            uplift: values.u,
            passive: values.p,
            flags: values.flags,
        }
    }
}

impl From<DetailOperands> for Detail {
    ghost from_gives = { λ v x. detail x ≡ detail_command v };

    fn from(values: DetailOperands) -> Detail {
        Detail {
            place: values.place,
            ultimate: values.xu,
            yielded: values.xy,
            ductility: values.mu,
            lap: values.lap,
        }
    }
}

impl From<BasementOperands> for Basement {
    ghost from_gives = { λ v x. x ≡ basement_of v };

    fn from(values: BasementOperands) -> Basement {
        Basement {
            place: values.place,
            nonseismic_shear: values.vv,
            seismic_shear: values.ve,
            nonseismic_moment: values.mv,
            seismic_moment: values.me,
            shear_strength: values.vr,
            moment_strength: values.mr,
        }
    }
}

// ---- what the calls share

impl From<Result<usize, WriteError>> for WriteAnswer {
    ghost from_gives = { λ w a. a ≡ write_answer (answer_of w) };

    fn from(written: Result<usize, WriteError>) -> WriteAnswer {
        match written {
            Ok(bytes) => WriteAnswer {
                bytes,
                ..WriteAnswer::default()
            },
            Err(error) => WriteAnswer {
                number: error.number(),
                ..WriteAnswer::default()
            },
        }
    }
}

// ---- the calls, one a command: each is a name that is exported

// 01 settings.
#[unsafe(no_mangle)]
pub extern "C" fn eak_write_settings(values: SettingsOperands, bytes: &mut [u8]) -> WriteAnswer
    ensures answer { result ≡ write_answer (write_of (settings_command values) (length bytes.old)) }
    ensures bytes { bytes.new ≡ bytes_after (settings_command values) bytes.old }
{
    WriteAnswer::from(writing::write_values(Settings::from(values), bytes))
}

// 02 joint. An id above 255 is refused, and not narrowed.
#[unsafe(no_mangle)]
pub extern "C" fn eak_write_joint(values: JointOperands, bytes: &mut [u8]) -> WriteAnswer
    ensures answer { result ≡ write_answer (write_given (joint_command values) (length bytes.old)) }
    ensures bytes { bytes.new ≡ bytes_given (joint_command values) bytes.old }
{
    let Ok(id) = u8::try_from(values.id) else {
        return WriteAnswer::from(Err(WriteError::OutOfRange));
    };
    WriteAnswer::from(writing::write_values((id, Joint::from(values)), bytes))
}

// 03 column.
#[unsafe(no_mangle)]
pub extern "C" fn eak_write_column(values: ColumnOperands, bytes: &mut [u8]) -> WriteAnswer
    ensures answer { result ≡ write_answer (write_of (column_command values) (length bytes.old)) }
    ensures bytes { bytes.new ≡ bytes_after (column_command values) bytes.old }
{
    WriteAnswer::from(writing::write_values(Column::from(values), bytes))
}

// 04 beam.
#[unsafe(no_mangle)]
pub extern "C" fn eak_write_beam(values: BeamOperands, bytes: &mut [u8]) -> WriteAnswer
    ensures answer { result ≡ write_answer (write_of (beam_command values) (length bytes.old)) }
    ensures bytes { bytes.new ≡ bytes_after (beam_command values) bytes.old }
{
    WriteAnswer::from(writing::write_values(Beam::from(values), bytes))
}

// 05 member without hinges. An id above 255 is refused, and not narrowed.
#[unsafe(no_mangle)]
pub extern "C" fn eak_write_hingeless(values: HingelessOperands, bytes: &mut [u8]) -> WriteAnswer
    ensures answer { result ≡ write_answer (write_given (hingeless_command values) (length bytes.old)) }
    ensures bytes { bytes.new ≡ bytes_given (hingeless_command values) bytes.old }
{
    let Ok(id1) = u8::try_from(values.id1) else {
        return WriteAnswer::from(Err(WriteError::OutOfRange));
    };
    let Ok(id2) = u8::try_from(values.id2) else {
        return WriteAnswer::from(Err(WriteError::OutOfRange));
    };
    WriteAnswer::from(writing::write_values((id1, id2, Hingeless::from(values)), bytes))
}

// 06 wall base.
#[unsafe(no_mangle)]
pub extern "C" fn eak_write_wall_base(values: WallBaseOperands, bytes: &mut [u8]) -> WriteAnswer
    ensures answer { result ≡ write_answer (write_of (wall_base_command values) (length bytes.old)) }
    ensures bytes { bytes.new ≡ bytes_after (wall_base_command values) bytes.old }
{
    WriteAnswer::from(writing::write_values(WallBase::from(values), bytes))
}

// 07 storey.
#[unsafe(no_mangle)]
pub extern "C" fn eak_write_storey(values: StoreyOperands, bytes: &mut [u8]) -> WriteAnswer
    ensures answer { result ≡ write_answer (write_of (storey_command values) (length bytes.old)) }
    ensures bytes { bytes.new ≡ bytes_after (storey_command values) bytes.old }
{
    WriteAnswer::from(writing::write_values(Storey::from(values), bytes))
}

// 08 soil. Any 32 bits may come as the value: those that are no soil value, a NaN's among them, are out of range.
#[unsafe(no_mangle)]
pub extern "C" fn eak_write_soil(values: SoilOperands, bytes: &mut [u8]) -> WriteAnswer
    ensures answer { result ≡ write_answer (write_of (soil_command values) (length bytes.old)) }
    ensures bytes { bytes.new ≡ bytes_after (soil_command values) bytes.old }
{
    WriteAnswer::from(writing::write_values(SoilGiven::from(values), bytes))
}

// 09 footing.
#[unsafe(no_mangle)]
pub extern "C" fn eak_write_footing(values: FootingOperands, bytes: &mut [u8]) -> WriteAnswer
    ensures answer { result ≡ write_answer (write_of (footing_command values) (length bytes.old)) }
    ensures bytes { bytes.new ≡ bytes_after (footing_command values) bytes.old }
{
    WriteAnswer::from(writing::write_values(Footing::from(values), bytes))
}

// 0A detail.
#[unsafe(no_mangle)]
pub extern "C" fn eak_write_detail(values: DetailOperands, bytes: &mut [u8]) -> WriteAnswer
    ensures answer { result ≡ write_answer (write_of (detail_command values) (length bytes.old)) }
    ensures bytes { bytes.new ≡ bytes_after (detail_command values) bytes.old }
{
    WriteAnswer::from(writing::write_values(Detail::from(values), bytes))
}

// 0B block of storeys: `count` sets of six words, each set in the order of `StoreyOperands`.
#[unsafe(no_mangle)]
pub extern "C" fn eak_write_block(count: u32, sets: &[u32], bytes: &mut [u8]) -> WriteAnswer
    ensures answer { result ≡ write_answer (write_block_of count sets.now (length bytes.old)) }
    ensures bytes { bytes.new ≡ block_bytes_after count sets.now bytes.old }
{
    WriteAnswer::from(writing::write_block(count, sets, bytes))
}

// 0C basement member. An id above 255 is refused, and not narrowed.
#[unsafe(no_mangle)]
pub extern "C" fn eak_write_basement(values: BasementOperands, bytes: &mut [u8]) -> WriteAnswer
    ensures answer { result ≡ write_answer (write_given (basement_command values) (length bytes.old)) }
    ensures bytes { bytes.new ≡ bytes_given (basement_command values) bytes.old }
{
    let Ok(joint) = u8::try_from(values.id) else {
        return WriteAnswer::from(Err(WriteError::OutOfRange));
    };
    WriteAnswer::from(writing::write_values((joint, Basement::from(values)), bytes))
}

// 0D another building: its settings are the next command.
#[unsafe(no_mangle)]
pub extern "C" fn eak_write_building(bytes: &mut [u8]) -> WriteAnswer
    ensures answer { result ≡ write_answer (write_of building (length bytes.old)) }
    ensures bytes { bytes.new ≡ bytes_after building bytes.old }
{
    WriteAnswer::from(writing::write_values(Building, bytes))
}

// 00 end, after the last command of a job.
#[unsafe(no_mangle)]
pub extern "C" fn eak_write_end(bytes: &mut [u8]) -> WriteAnswer
    ensures answer { result ≡ write_answer (write_of finish (length bytes.old)) }
    ensures bytes { bytes.new ≡ bytes_after finish bytes.old }
{
    WriteAnswer::from(writing::write_values(End, bytes))
}
