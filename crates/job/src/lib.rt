// The walk over a job's commands: every refusal in 01's order, what holds, and the rows where there is room.
// `joints` and `rows` are two arguments in three functions: they are lent, and a struct would hold them for the call alone.
#![tactic(auto)]

ghost use Rattle.std.specs.Prelude.{◌≡◌, true, false, [], ◌≤◌, ◌<◌, ◌+◌, ◌*◌, ◌^◌, map, length, slice_range, IfOk, IfErr};
ghost use Rattle.context.specs.Context.{given};
ghost use Rattle.context.specs.Running.{room_for, no_joints, next_state, next_joints, SoundState, SoundJoints};
ghost use Rattle.rows.specs.Rows.{row_count, words};
ghost use Rattle.rows.specs.Writing.{rows_from, stored_all};
ghost use Rattle.layout.specs.Layouts.{operands_width, byte_of_kind};
ghost use Rattle.format.specs.Commands.{byte_of, in_range};
ghost use Rattle.format.specs.Reading.{command_in};
ghost use Rattle.blocks.specs.Sets.{is_block, count_at};
ghost use Rattle.blocks.specs.FileCommands.{one, file_command_at};
ghost use Rattle.job.specs.Counts.{counted};
ghost use Rattle.job.specs.Faults.{is_building, too_many, misplaced, operand_named};
ghost use Rattle.job.specs.Refusals.{number_of, operand_of, number_due, operand_due};
ghost use Rattle.job.specs.Walking.{early_fault, late_fault, building_fault, behind_building, block_fault, first_place, walk_from, WalkAsks, Stretched, BlockAsks, BlockStepped, walk_answer, walked_fault};
ghost use Rattle.job.specs.Answers.{row_count_answer, size_of, fault_answer, fault_of};

use context::{Held, Joints, State};
use format::{Command, CommandBytes};
use layout::Kind;

// A job has at most so many commands, the end not counted.
pub const MOST_COMMANDS: u32 = 4096;

// A file has at most so many buildings.
pub const MOST_BUILDINGS: u32 = 16;

// The byte of another building.
const BUILDING: u8 = 13;

// A budget that no walk over a whole job spends: the last command is the end, or is refused.
pub const WHOLE_JOB: u32 = MOST_COMMANDS + 1;

// Why a job is refused.
#[derive(Clone, Copy, Debug, PartialEq, Eq)]
pub enum Refusal {
    // 1: a command is cut short, or the end is missing.
    CutShort,
    // 2: no command has this byte.
    Unknown,
    // 3: bytes follow the end.
    BytesAfterEnd,
    // 4: the first command of a building is not settings, or settings are given again.
    MisplacedSettings,
    // 5: this operand is out of range.
    OutOfRange(u32),
    // 6: what the command needs has not been given.
    Absent,
    // 8: more than 4,096 commands.
    TooMany,
    // 13: more than 16 buildings.
    TooManyBuildings,
}

impl Refusal {
    // Its number in 01.
    pub fn number(self) -> u32
        ensures { result ≡ number_of self }
    {
        match self {
            Refusal::CutShort => 1,
            Refusal::Unknown => 2,
            Refusal::BytesAfterEnd => 3,
            Refusal::MisplacedSettings => 4,
            Refusal::OutOfRange(_) => 5,
            Refusal::Absent => 6,
            Refusal::TooMany => 8,
            Refusal::TooManyBuildings => 13,
        }
    }

    // It, due at an offset.
    fn at(self, offset: usize) -> Refused
        ensures { result ≡ record { refusal = self; offset = offset } }
    {
        Refused {
            refusal: self,
            offset,
        }
    }

    // The operand that it names; 0 where it names none, as 02 has it.
    pub fn operand(self) -> u32
        ensures { result ≡ operand_of self }
    {
        match self {
            Refusal::OutOfRange(operand) => operand,
            _ => 0,
        }
    }
}

// A refusal, and the offset at which it is due.
#[derive(Clone, Copy, Debug, PartialEq, Eq)]
pub struct Refused {
    pub refusal: Refusal,
    pub offset: usize,
}

// The commands so far and the buildings begun, the first one counted: limits of the whole file, which no building begins anew.
#[derive(Clone, Copy)]
pub struct Counts {
    pub commands: u32,
    pub buildings: u32,
}

// Where the walk stands: the offset of the next command, what is counted, the rows so far, and what holds.
#[derive(Clone, Copy)]
pub struct Place {
    pub offset: usize,
    pub counts: Counts,
    pub rows: usize,
    pub state: State,
}

// How a walk that meets no refusal ends.
#[derive(Clone, Copy)]
pub enum Progress {
    // The rows.
    Finished(usize),
    // Its budget is spent.
    Paused(Place),
}

// How a stretch of commands by themselves ends.
#[derive(Clone, Copy)]
enum Stretch {
    Ended(Progress),
    // A block is next, and what is left of the budget.
    Block(Place, u32),
}

// The fault of a job that is refused: the refusal, and the byte at its offset; 0, as 02 has it, where none stands there.
#[derive(Clone, Copy, Debug, PartialEq, Eq)]
pub struct JobFault {
    pub refused: Refused,
    pub command: u8,
}

// Whether refusal 8 is due.
#[tactic(auto, unfolding(crate::specs::Faults::too_many))]
fn too_many(command: Kind, count: u32) -> bool
    ensures { result ≡ too_many (byte_of_kind command) count }
{
    match command {
        Kind::Finish => false,
        _ => MOST_COMMANDS <= count,
    }
}

// Whether refusal 4 is due.
#[tactic(auto, unfolding(crate::specs::Faults::misplaced))]
fn misplaced_settings(command: Kind, given: bool) -> bool
    ensures { result ≡ misplaced (byte_of_kind command) given }
{
    match command {
        Kind::Settings => given,
        _ => !given,
    }
}

// The bytes of the command by itself at a place, by its byte, or the refusal 2, 1, 8 or 4, in this order. Not of a 0D (`pass_building`).
#[tactic(auto, using(layout::proofs::KindBytes::byte_of_found, layout::proofs::KindBytes::known_found, layout::proofs::KindBytes::unknown), unfolding(crate::specs::Walking::early_fault, crate::specs::Faults::seventeenth))]
#[inline(always)]
fn test_early<'a>(job: &'a [u8], place: &Place, byte: u8) -> Result<CommandBytes<'a>, Refused>
    requires inside { place.now.offset < length job.now }
    requires block { is_block byte ≡ false }
    requires building { is_building byte ≡ false }
    ensures number { number_due result ≡ early_fault (length job.now) place.now.offset byte place.now.counts (given place.now.state.settings) }
    ensures operand { operand_due result ≡ 0 }
    ensures offset { IfErr result (λ r. r.offset ≡ place.now.offset) }
    ensures kind { IfOk result (λ c. byte_of_kind c.kind ≡ byte) }
    ensures operands { IfOk result (λ c. c.operands.now ≡ slice_range job.now (place.now.offset + 1) (place.now.offset + 1 + operands_width byte)) }
{
    let offset = place.offset;
    let Ok(kind) = Kind::try_from(byte) else {
        return Err(Refusal::Unknown.at(offset));
    };
    if job.len() - offset <= kind.width() {
        return Err(Refusal::CutShort.at(offset));
    }
    if too_many(kind, place.counts.commands) {
        return Err(Refusal::TooMany.at(offset));
    }
    if misplaced_settings(kind, place.state.settings.is_some()) {
        return Err(Refusal::MisplacedSettings.at(offset));
    }
    let operands = &job[offset + 1..offset + 1 + kind.width()];
    Ok(CommandBytes::new(kind, operands))
}

// The refusals 5 and 6 of the command of these bytes at a place, in this order. It is handed the command: answered in a Result it is copied
// in memory, some 15 instructions more a command.
#[tactic(auto, unfolding(crate::specs::Walking::late_fault, blocks::specs::FileCommands::file_operand_at_fault))]
#[inline(always)]
fn test_late(
    place: &Place,
    bytes: CommandBytes,
    command: Command,
    joints: &Joints,
) -> Result<(), Refused>
    requires command { command ≡ command_in bytes.kind bytes.operands.now }
    ensures number { number_due result ≡ late_fault place.now.state joints.now command }
    ensures operand { operand_due result ≡ operand_named (number_due result) (one command) }
    ensures offset { IfErr result (λ r. r.offset ≡ place.now.offset) }
{
    if !command.in_range() {
        let operand = bytes.operand_at_fault();
        return Err(Refusal::OutOfRange(operand).at(place.offset));
    }
    let held = Held {
        state: &place.state,
        joints,
    };
    if held.absent(command) {
        return Err(Refusal::Absent.at(place.offset));
    }
    Ok(())
}

// The sets of the block at a place, or the first refusal that is due.
#[tactic(auto, using(blocks::proofs::Sets::count_range, crate::proofs::Steps::count_named, crate::proofs::Steps::set_at, crate::proofs::Steps::set_out, blocks::proofs::Sets::sets_ranged, blocks::proofs::Sets::storeys_of_slice), unfolding(crate::specs::Walking::block_fault, crate::specs::Faults::passes_limit))]
#[inline(always)]
fn tested_block(job: &[u8], place: Place) -> Result<&[u8], Refused>
    requires asks { BlockAsks job.now place }
    ensures number { number_due result ≡ block_fault job.now place }
    ensures operand { operand_due result ≡ operand_named (number_due result) (file_command_at job.now place.offset) }
    ensures offset { IfErr result (λ r. r.offset ≡ place.offset) }
    ensures sets { IfOk result (λ s. s.now ≡ slice_range job.now (place.offset + 2) (place.offset + 2 + 24 * count_at job.now place.offset)) }
{
    let offset = place.offset;
    let bytes = job.len() - offset;
    if bytes < 2 {
        return Err(Refusal::CutShort.at(offset));
    }
    let count = usize::from(job[offset + 1]);
    if !blocks::count_in_range(count) {
        return Err(Refusal::OutOfRange(0).at(offset));
    }
    if bytes < 2 + blocks::SET * count {
        return Err(Refusal::CutShort.at(offset));
    }
    if MOST_COMMANDS < place.counts.commands + count as u32 {
        return Err(Refusal::TooMany.at(offset));
    }
    if place.state.settings.is_none() {
        return Err(Refusal::MisplacedSettings.at(offset));
    }
    if !place.state.wall.is_given() {
        return Err(Refusal::Absent.at(offset));
    }
    let sets = &job[offset + 2..offset + 2 + blocks::SET * count];
    if let Some(named) = blocks::operand_named(sets) {
        return Err(Refusal::OutOfRange(named).at(offset));
    }
    Ok(sets)
}

// What a command that passed its tests changes, and its rows; the place goes on to an offset behind it.
#[inline(always)]
fn carry_out(
    place: &mut Place,
    behind: usize,
    command: Command,
    joints: &mut Joints,
    rows: &mut [i64],
)
    requires state { SoundState place.old.state }
    requires joints { SoundJoints joints.old }
    requires ranged { in_range command ≡ true }
    requires offset { place.old.offset < 2 ^ 63 }
    requires commands { place.old.counts.commands ≤ 4096 }
    requires single { is_building (byte_of command) ≡ false }
    requires rows { place.old.rows ≤ 8192 }
    ensures place { place.new ≡ record { offset = behind; counts = counted place.old.counts (one command); rows = place.old.rows + row_count command; state = next_state (room_for (length rows.old)) place.old.state command } }
    ensures joints { joints.new ≡ next_joints joints.old command }
    ensures memory { rows.new ≡ stored_all rows.old place.old.rows (map (words place.old.offset (byte_of command)) (rows_from place.new.state joints.new command)) }
{
    let room = 8 <= rows.len();
    context::next(&mut place.state, room, command);
    context::hold_joint(joints, command);
    let held = Held {
        state: &place.state,
        joints,
    };
    place.rows = rows::emit(rows, place.rows, place.offset, held, command);
    place.offset = behind;
    place.counts.commands += 1;
}

// One step over the 0D at a place: its tests, then nothing is given any more. The place behind it. A step of its own: with 13 among the
// tests of every command, and the buildings counted with each, a command takes up to 7 % more instructions (docs/DECISIONS.md).
#[tactic(auto, unfolding(crate::specs::Walking::building_fault))]
fn pass_building(place: Place, joints: &mut Joints) -> Result<Place, Refused>
    requires state { SoundState place.state }
    requires offset { place.offset < 2 ^ 63 }
    ensures number { number_due result ≡ building_fault place }
    ensures operand { operand_due result ≡ 0 }
    ensures refused { IfErr result (λ r. (r.offset ≡ place.offset) × (joints.new ≡ joints.old)) }
    ensures passed { IfOk result (λ p. (p ≡ behind_building place) × (joints.new ≡ no_joints)) }
{
    let offset = place.offset;
    let counts = place.counts;
    if MOST_COMMANDS <= counts.commands {
        return Err(Refusal::TooMany.at(offset));
    }
    if MOST_BUILDINGS <= counts.buildings {
        return Err(Refusal::TooManyBuildings.at(offset));
    }
    if place.state.settings.is_none() {
        return Err(Refusal::MisplacedSettings.at(offset));
    }
    let mut behind = place;
    context::next(&mut behind.state, false, Command::Building);
    context::hold_joint(joints, Command::Building);
    behind.offset += 1;
    behind.counts.commands += 1;
    behind.counts.buildings += 1;
    Ok(behind)
}

// The commands by themselves from a place on, up to a block, at most so many. The job is the whole one; the joints are those
// given so far, and `rows` is where its rows go.
#[inline(always)]
fn walk_stretch(
    job: &[u8],
    start: Place,
    budget: u32,
    joints: &mut Joints,
    rows: &mut [i64],
) -> Result<Stretch, Refused>
    requires asks { WalkAsks job.now start joints.old }
    ensures { Stretched (room_for (length rows.old)) budget (walk_from (room_for (length rows.old)) budget job.now start joints.old rows.old) job.now joints.new rows.new result }
{
    let mut place = start;
    for left in (0..budget).rev() {
        let offset = place.offset;
        if job.len() <= offset {
            return Err(Refusal::CutShort.at(offset));
        }
        let byte = job[offset];
        if byte == blocks::BLOCK {
            return Ok(Stretch::Block(place, left + 1));
        }
        if byte == BUILDING {
            place = pass_building(place, joints)?;
            continue;
        }
        let bytes = test_early(job, &place, byte)?;
        let behind = offset + 1 + bytes.kind.width();
        let command = bytes.read();
        test_late(&place, bytes, command, joints)?;
        if let Kind::Finish = bytes.kind {
            if offset + 1 < job.len() {
                return Err(Refusal::BytesAfterEnd.at(offset + 1));
            }
            return Ok(Stretch::Ended(Progress::Finished(place.rows)));
        }
        carry_out(&mut place, behind, command, joints, rows);
    }
    Ok(Stretch::Ended(Progress::Paused(place)))
}

// One step over the block at a place: its tests, then its rows. The place behind it.
#[inline(always)]
fn pass_block(job: &[u8], place: Place, rows: &mut [i64]) -> Result<Place, Refused>
    requires asks { BlockAsks job.now place }
    ensures { BlockStepped (room_for (length rows.old)) job.now place rows.old rows.new result }
{
    let sets = tested_block(job, place)?;
    let start = place.offset + 2;
    let wall = place.state.wall.running();
    let written = rows::emit_sets(rows, place.rows, sets, start, wall);
    Ok(Place {
        offset: start + sets.len(),
        counts: Counts {
            commands: place.counts.commands + (sets.len() / blocks::SET) as u32,
            ..place.counts
        },
        rows: written,
        ..place
    })
}

// From a place on, at most so many commands of the file: stretches of commands by themselves, and the blocks between them.
// No `for`: what is left of the budget is what each stretch leaves.
// In line with its callers, and so is each step of a command, here and in the crates below: the one with no room for rows is made without
// them, and `size` and `fault` take a tenth to a quarter less of the time (docs/BENCHMARK.md). Where the walk alone is in line, its steps
// are calls, and they take twice the time.
#[inline(always)]
pub fn walk(
    job: &[u8],
    start: Place,
    budget: u32,
    joints: &mut Joints,
    rows: &mut [i64],
) -> Result<Progress, Refused>
    requires asks { WalkAsks job.now start joints.old }
    ensures { walk_from (room_for (length rows.old)) budget job.now start joints.old rows.old ≡ record { answer = walk_answer result; joints = joints.new; memory = rows.new } }
{
    let mut place = start;
    let mut left = budget;
    loop {
        match walk_stretch(job, place, left, joints, rows)? {
            Stretch::Ended(progress) => return Ok(progress),
            Stretch::Block(here, rest) => {
                place = pass_block(job, here, rows)?;
                left = rest - 1;
            }
        }
    }
}

// The start of a job. A function and no `Default`: its contract names the start that 01 has.
#[tactic(auto, unfolding(crate::specs::Walking::first_place))]
pub fn first_place() -> Place
    ensures { result ≡ first_place }
{
    Place {
        offset: 0,
        counts: Counts {
            commands: 0,
            buildings: 1,
        },
        rows: 0,
        state: context::start(),
    }
}

// The walk over a whole job, with no room for rows. Its own function, over a table that is handed to it: three calls make it, and where the
// table was made in it too, its entries were cleared one by one.
#[inline(never)]
fn walk_without_rows(job: &[u8], joints: &mut Joints) -> Result<Progress, Refused>
    requires { joints.old ≡ no_joints }
    ensures { (walk_from false 4097 job.now first_place no_joints []).answer ≡ walk_answer result }
{
    let mut rows = [0i64; 1];
    walk(job, first_place(), WHOLE_JOB, joints, &mut rows[..0])
}

// How many rows a job has, or its refusal: the walk that writes none.
pub fn pass(job: &[u8]) -> Result<usize, Refused>
    ensures size { row_count_answer result ≡ size_of job.now }
    ensures fault { walked_fault job.now result ≡ fault_of job.now }
{
    let mut joints = [None; 256];
    let walked = walk_without_rows(job, &mut joints)?;
    match walked {
        Progress::Finished(rows) => Ok(rows),
        Progress::Paused(_) => unreachable!(),
    }
}

// A job's row count, or its refusal: `pass`, with the contract of the call alone.
pub fn size(job: &[u8]) -> Result<usize, Refused>
    ensures { row_count_answer result ≡ size_of job.now }
{
    pass(job)
}

// The fault of a job; none where it is accepted.
pub fn fault(job: &[u8]) -> Option<JobFault>
    ensures { fault_answer result ≡ fault_of job.now }
{
    let refused = pass(job).err()?;
    let command = job.get(refused.offset).copied().unwrap_or(0);
    Some(JobFault { refused, command })
}
