// The rows of a command, from its context as the code keeps it, written where there is room. 01, "Rows and verdict bits"; 02, No. 9.
#![tactic(auto)]

ghost use Rattle.std.specs.Prelude.{◌∷◌, [], ◌≡◌, true, map, ◌+◌, ◌/◌, ◌^◌, ◌≤◌, ◌<◌, length, IfSome};
ghost use Rattle.std.specs.Option.{option_map};
ghost use Rattle.coefficient.specs.Coefficient.{fraction, Capped};
ghost use Rattle.format.specs.Commands.{byte_of};
ghost use Rattle.blocks.specs.Sets.{storeys_in};
ghost use Rattle.walls.specs.Running.{WallRange};
ghost use Rattle.context.specs.Context.{given, when_given};
ghost use Rattle.context.specs.Running.{SettingsRange, SoundState, SoundJoints};
ghost use Rattle.rows.specs.Rows.{row_count, words};
ghost use Rattle.rows.specs.Writing.{coefficient_from, rows_from, rows_given, set_rows, set_rows_running, stored, stored_all, EmitAsks, SetsAsk};

use actions::Sign;
use blocks::SET;
use claims::Row;
use coefficient::{Quotient, Settings};
use context::Held;
use footing::FootingOnSoil;
use format::{Command, Operands};
use layout::Kind;
use walls::{Storey, Wall};

// The number of rows of a command.
#[tactic(auto, unfolding(crate::specs::Rows::row_count))]
fn row_count(command: Command) -> usize
    ensures { result ≡ row_count command }
{
    match command {
        Command::Finish
        | Command::Settings(_)
        | Command::Joint(_, _)
        | Command::Soil(_)
        | Command::Building => 0,
        Command::Footing(_) | Command::Basement(_, _) => 2,
        _ => 1,
    }
}

// ---- writing rows

// The eight words of a row in its place. By `copy_from_slice` they would be laid down in memory first, and copied.
// No `as_chunks_mut`, as an array for each row: the library's contract does not say what the slice ends as.
fn set_words(place: &mut [i64], words: [i64; 8])
    requires { length place.old ≡ 8 }
    ensures { place.new ≡ words }
{
    let Some(whole) = place.as_mut_array() else {
        unreachable!()
    };
    *whole = words;
}

// Row n, where there is room for its eight words: the command's offset, its byte, the row.
// Here and below the offset's range is asked for: the slice that it is an offset of, which would bound it, is not at hand.
fn put_row(rows: &mut [i64], n: usize, offset: usize, byte: u8, row: Row)
    requires { offset < 2 ^ 63 }
    ensures { rows.new ≡ stored rows.old n (words offset byte row) }
{
    let places = rows.len() / 8;
    if n < places {
        let words = [
            claims::word(offset as u64),
            i64::from(byte),
            row.word2,
            row.word3,
            row.word4,
            row.word5,
            row.word6,
            row.verdict,
        ];
        set_words(&mut rows[8 * n..8 * n + 8], words);
    }
}

// The row of a command that has one at most, off what holds after it.
#[tactic(auto, unfolding(crate::specs::Writing::rows_from, crate::specs::Rows::row_count))]
fn row_of(held: Held, command: Command) -> Option<Row>
    requires asks { EmitAsks held.state.now held.joints.now command }
    requires one { row_count command ≤ 1 }
    ensures { when_given result (λ r. r ∷ []) ≡ rows_from held.entry.state.now held.entry.joints.now command }
{
    let state = held.state;
    match command {
        Command::Column(c) => Some(members::column_row(state.settings?.behaviour, c)),
        Command::Beam(b) => Some(members::beam_row(state.settings?.behaviour, b)),
        Command::Hingeless(id1, id2, m) => {
            let settings = state.settings?;
            let first = held.joints[usize::from(id1)]?;
            let second = held.joints[usize::from(id2)]?;
            Some(members::hingeless_row(settings, first, second, m))
        }
        Command::WallBase(b) => Some(walls::base_row(state.wall.running()?, b)),
        Command::Storey(s) => Some(walls::storey_row(state.wall.running()?, s)),
        Command::Detail(d) => Some(members::detail_row(d)),
        Command::Finish
        | Command::Settings(_)
        | Command::Joint(_, _)
        | Command::Soil(_)
        | Command::Building => None,
        Command::Footing(_) | Command::Basement(_, _) => unreachable!(),
    }
}

// a of the nearest possible hinge of a basement member, by its place: that of the joint, or the running one of the latest wall.
fn nearest_coefficient(held: Held, settings: Settings, id: u8, place: u32) -> Option<Quotient>
    requires state { SoundState held.state.now }
    requires joints { SoundJoints held.joints.now }
    requires settings { SettingsRange settings }
    ensures value { option_map fraction result ≡ coefficient_from held.entry.state.now held.entry.joints.now settings id place }
    ensures range { IfSome result Capped }
{
    if place == 0 {
        let joint = held.joints[usize::from(id)]?;
        Some(members::joint_coefficient(settings, joint))
    } else {
        let wall = held.state.wall.running()?;
        Some(wall.coefficient)
    }
}

// The rows of a command off what holds after it, from row n on. `rows` and `n` are no struct: one that holds a `&mut` needs in each method a
// clause that the reference is the same, and two invariants more in the walk.
#[tactic(auto, unfolding(crate::specs::Writing::rows_from, crate::specs::Writing::stored_all, crate::specs::Rows::row_count))]
fn write_rows(rows: &mut [i64], n: usize, offset: usize, held: Held, command: Command)
    requires asks { EmitAsks held.state.now held.joints.now command }
    requires rows { n ≤ 8192 }
    requires offset { offset < 2 ^ 63 }
    ensures { rows.new ≡ stored_all rows.old n (map (words offset (byte_of command)) (rows_from held.entry.state.now held.entry.joints.now command)) }
{
    let byte = u8::from(command.kind());
    if let Command::Footing(f) = command {
        if let (Some(settings), Some(ground)) = (held.state.settings, held.state.soil) {
            let founded = FootingOnSoil::new(settings, f, ground.soil, ground.sensitive);
            put_row(rows, n, offset, byte, founded.row(Sign::Plus));
            put_row(rows, n + 1, offset, byte, founded.row(Sign::Minus));
        }
    } else if let Command::Basement(id, m) = command {
        if let Some(settings) = held.state.settings {
            if let Some(a) = nearest_coefficient(held, settings, id, m.place) {
                put_row(rows, n, offset, byte, m.shear_row(a));
                put_row(rows, n + 1, offset, byte, m.moment_row(a));
            }
        }
    } else if let Some(row) = row_of(held, command) {
        put_row(rows, n, offset, byte, row);
    }
}

// The same, made and written only where there is room for the first; answers the number of the row after them. A function of its own: in one
// with `write_rows`, the place of a row is cleared for every command, of `size` too.
#[tactic(auto, using(crate::proofs::Laws::as_many, crate::proofs::Laws::count_le, crate::proofs::Memory::stored_all_none), unfolding(crate::specs::Writing::stored_all))]
#[inline(always)]
pub fn emit(rows: &mut [i64], n: usize, offset: usize, held: Held, command: Command) -> usize
    requires asks { EmitAsks held.state.now held.joints.now command }
    requires rows { n ≤ 8192 }
    requires offset { offset < 2 ^ 63 }
    ensures count { result ≡ n + row_count command }
    ensures as_many { rows_given held.entry.state.now held.entry.joints.now command ≡ true → result ≡ n + length (rows_from held.entry.state.now held.entry.joints.now command) }
    ensures memory { rows.new ≡ stored_all rows.old n (map (words offset (byte_of command)) (rows_from held.entry.state.now held.entry.joints.now command)) }
{
    if n < rows.len() / 8 {
        write_rows(rows, n, offset, held, command);
    }
    n + row_count(command)
}

// ---- the rows of a block

// One row for each of the sets, the first at an offset, from row n on. A call of its own: in line with the walk its loop and the walk take
// registers from each other, 1 to 3 % more instructions a command (docs/DECISIONS.md).
#[inline(never)]
#[tactic(auto, unfolding(layout::specs::Layouts::operands_width, layout::specs::Layouts::width_of_all, layout::specs::Layouts::forms_of, layout::specs::Layouts::forms_in, layout::specs::Forms::width))]
fn write_sets(rows: &mut [i64], n: usize, sets: &[u8], at: usize, wall: Wall)
    requires wall { WallRange wall }
    requires asks { SetsAsk sets.now }
    requires offset { at + length sets.now < 2 ^ 63 }
    requires room { n < length rows.old / 8 }
    ensures { rows.new ≡ stored_all rows.old n (set_rows wall at (storeys_in sets.now)) }
{
    let (chunks, _) = sets.as_chunks::<SET>();
    for (i, operands) in chunks.iter().enumerate() {
        let storey = Storey::read(operands);
        // As in walls::storey_row; through it each storey would be a call that hands its row over in memory.
        let k = cubes::least_root(storey.inertia, storey.base_inertia);
        let row = walls::storey_row_at(wall, storey, k);
        put_row(rows, n + i, at + SET * i, u8::from(Kind::Storey), row);
    }
}

// The same where the wall has running values, made and written only where there is room for the first row; answers the number of the row
// after them.
#[tactic(auto, using(crate::proofs::Memory::stored_all_none, crate::proofs::SetRows::running_as_many), unfolding(crate::specs::Writing::stored_all))]
pub fn emit_sets(rows: &mut [i64], n: usize, sets: &[u8], at: usize, wall: Option<Wall>) -> usize
    requires wall { IfSome wall WallRange }
    requires asks { SetsAsk sets.now }
    requires offset { at + length sets.now < 2 ^ 63 }
    requires rows { n + length sets.now / 24 ≤ 8193 }
    ensures count { result ≡ n + length sets.now / 24 }
    ensures as_many { given wall ≡ true → result ≡ n + length (set_rows_running wall at (storeys_in sets.now)) }
    ensures memory { rows.new ≡ stored_all rows.old n (set_rows_running wall at (storeys_in sets.now)) }
{
    if n < rows.len() / 8 {
        if let Some(w) = wall {
            write_sets(rows, n, sets, at, w);
        }
    }
    n + sets.len() / SET
}
