// The calls `write` and `write_block`: one command's values, or a block of storeys, written as bytes into a lent slice. Neither has a
// `requires`. 02, No. 2, No. 7, No. 9 and No. 10.
// The check opens at each goal what says how wide a command's operands are.
#![tactic(auto, unfolding(layout::specs::Layouts::operands_width, layout::specs::Layouts::width_of_all, layout::specs::Layouts::forms_of, layout::specs::Layouts::forms_in, layout::specs::Forms::width))]

ghost use Rattle.std.specs.Prelude.{◌≡◌, ◌+◌, ◌*◌, ◌≤◌, length, map, refl, Err};
ghost use Rattle.slices.specs.Written.{Put};
ghost use Rattle.layout.specs.declared.Kind.{Kind};
ghost use Rattle.layout.specs.declared.Kind.TheVariants as kind;
ghost use Rattle.layout.specs.Layouts.{byte_of_kind, forms_of, operands_width};
ghost use Rattle.format.specs.declared.Command.TheVariants.{Finish as finish, Building as building};
ghost use Rattle.format.specs.Commands.{byte_of, operands_of};
ghost use Rattle.format.specs.Reading.{command_at};
ghost use Rattle.format.specs.Types.{OfTypes};
ghost use Rattle.blocks.specs.Sets.{all_in_range};
ghost use Rattle.blocks.specs.FileCommands.{file_command_at};
ghost use Rattle.writing.specs.Bytes.{operand_bytes, set_bytes};
ghost use Rattle.writing.specs.Answers.{answer_of, write_of, bytes_after, WritesCommand};
ghost use Rattle.writing.specs.BlockGiven.{storey_of_words, block_of, write_block_of, block_bytes_after};

use basement::Basement;
use coefficient::Settings;
use footing::Footing;
use format::{Command, Operands, SoilGiven};
use layout::Kind;
use members::{Beam, Column, Detail, Hingeless, Joint};
use walls::{Storey, WallBase};

// Why nothing is written. `answer_of` gives 02's number, offset and bytes of each case.
#[derive(Clone, Copy, Debug, PartialEq, Eq)]
pub enum WriteError {
    // Refusal 5: a value out of range.
    OutOfRange,
    // Refusal 11: the slice cannot hold the command.
    TooShort,
}

impl WriteError {
    // Its number in 02.
    pub fn number(self) -> u32
        ensures { result ≡ (answer_of (Err self)).number }
    {
        match self {
            WriteError::OutOfRange => 5,
            WriteError::TooShort => 11,
        }
    }
}

// The end, which has no operands.
#[derive(Clone, Copy)]
pub struct End;

impl Operands for End {
    ghost command = { λ x. finish };

    ghost KIND = { kind.Finish };

    const KIND: Kind = Kind::Finish;

    #[tactic(auto, unfolding(format::specs::Commands::command_of))]
    fn read(_operands: &[u8]) -> End {
        End
    }

    #[tactic(auto, using(format::proofs::RangeTest::end_in_range))]
    fn in_range(self) -> bool {
        true
    }
}

// Another building, which has none either.
#[derive(Clone, Copy)]
pub struct Building;

impl Operands for Building {
    ghost command = { λ x. building };

    ghost KIND = { kind.Building };

    const KIND: Kind = Kind::Building;

    #[tactic(auto, unfolding(format::specs::Commands::command_of))]
    fn read(_operands: &[u8]) -> Building {
        Building
    }

    #[tactic(auto, using(format::proofs::RangeTest::building_in_range))]
    fn in_range(self) -> bool {
        true
    }
}

// ---- the operands of each command, each in its place

// Each kind puts its operands at offsets written out, as it reads them (`format`), and not in a loop over its forms.

pub trait Puts: Operands {
    // The operands put into the slice that is theirs.
    fn put(self, bytes: &mut [u8])
        requires { length bytes.old ≡ operands_width (byte_of_kind Self.KIND) }
        ensures put { bytes.new ≡ operand_bytes (forms_of (byte_of_kind Self.KIND)) (operands_of (Self.command self)) }
        ensures types { OfTypes (Self.command self) };

    // The command is of this kind.
    ghost same_byte: { (x : Self) → byte_of (Self.command x) ≡ byte_of_kind Self.KIND };
}

impl Puts for End {
    fn put(self, _bytes: &mut [u8]) {}

    ghost same_byte = { λ x. refl };
}

impl Puts for Building {
    fn put(self, _bytes: &mut [u8]) {}

    ghost same_byte = { λ x. refl };
}

impl Puts for Settings {
    fn put(self, bytes: &mut [u8]) {
        numbers::put::<2>(&mut bytes[0..2], self.behaviour);
        numbers::put::<2>(&mut bytes[2..4], self.joints);
        numbers::put::<2>(&mut bytes[4..6], self.foundations);
    }

    ghost same_byte = { λ x. refl };
}

impl Puts for (u8, Joint) {
    fn put(self, bytes: &mut [u8]) {
        let (id, joint) = self;
        numbers::put::<1>(&mut bytes[0..1], u32::from(id));
        numbers::put::<4>(&mut bytes[1..5], joint.beams);
        numbers::put::<4>(&mut bytes[5..9], joint.columns);
        numbers::put::<4>(&mut bytes[9..13], joint.seismic);
    }

    ghost same_byte = { λ x. refl };
}

impl Puts for Column {
    fn put(self, bytes: &mut [u8]) {
        numbers::put::<4>(&mut bytes[0..4], self.length);
        numbers::put::<4>(&mut bytes[4..8], self.plus1);
        numbers::put::<4>(&mut bytes[8..12], self.plus2);
        numbers::put::<4>(&mut bytes[12..16], self.minus1);
        numbers::put::<4>(&mut bytes[16..20], self.minus2);
        numbers::put::<4>(&mut bytes[20..24], self.shear);
        numbers::put::<4>(&mut bytes[24..28], self.strength);
    }

    ghost same_byte = { λ x. refl };
}

impl Puts for Beam {
    fn put(self, bytes: &mut [u8]) {
        numbers::put::<4>(&mut bytes[0..4], self.length);
        numbers::put::<4>(&mut bytes[4..8], self.plus1);
        numbers::put::<4>(&mut bytes[8..12], self.plus2);
        numbers::put::<4>(&mut bytes[12..16], self.minus1);
        numbers::put::<4>(&mut bytes[16..20], self.minus2);
        numbers::put_signed(&mut bytes[20..24], self.nonseismic);
        numbers::put::<4>(&mut bytes[24..28], self.shear);
        numbers::put::<4>(&mut bytes[28..32], self.strength);
    }

    ghost same_byte = { λ x. refl };
}

impl Puts for (u8, u8, Hingeless) {
    fn put(self, bytes: &mut [u8]) {
        let (id1, id2, member) = self;
        numbers::put::<4>(&mut bytes[0..4], member.length);
        numbers::put::<1>(&mut bytes[4..5], u32::from(id1));
        numbers::put::<1>(&mut bytes[5..6], u32::from(id2));
        numbers::put::<4>(&mut bytes[6..10], member.moment1);
        numbers::put::<4>(&mut bytes[10..14], member.moment2);
        numbers::put_signed(&mut bytes[14..18], member.nonseismic);
        numbers::put::<4>(&mut bytes[18..22], member.strength);
    }

    ghost same_byte = { λ x. refl };
}

impl Puts for WallBase {
    fn put(self, bytes: &mut [u8]) {
        numbers::put::<4>(&mut bytes[0..4], self.length);
        numbers::put::<4>(&mut bytes[4..8], self.thickness);
        numbers::put::<4>(&mut bytes[8..12], self.resistance);
        numbers::put::<4>(&mut bytes[12..16], self.moment);
        numbers::put::<4>(&mut bytes[16..20], self.shear);
        numbers::put::<4>(&mut bytes[20..24], self.strength);
    }

    ghost same_byte = { λ x. refl };
}

impl Puts for Storey {
    fn put(self, bytes: &mut [u8]) {
        numbers::put::<4>(&mut bytes[0..4], self.moment);
        numbers::put::<4>(&mut bytes[4..8], self.shear);
        numbers::put::<4>(&mut bytes[8..12], self.inertia);
        numbers::put::<4>(&mut bytes[12..16], self.base_inertia);
        numbers::put::<4>(&mut bytes[16..20], self.strength);
        numbers::put::<4>(&mut bytes[20..24], self.resistance);
    }

    ghost same_byte = { λ x. refl };
}

impl Puts for SoilGiven {
    fn put(self, bytes: &mut [u8]) {
        numbers::put::<1>(&mut bytes[0..1], self.kind);
        numbers::put::<4>(&mut bytes[1..5], self.value);
        numbers::put::<1>(&mut bytes[5..6], self.sensitive);
    }

    ghost same_byte = { λ x. refl };
}

impl Puts for Footing {
    fn put(self, bytes: &mut [u8]) {
        numbers::put::<4>(&mut bytes[0..4], self.breadth);
        numbers::put::<4>(&mut bytes[4..8], self.length);
        numbers::put::<4>(&mut bytes[8..12], self.resistance);
        numbers::put::<4>(&mut bytes[12..16], self.moment);
        numbers::put_signed(&mut bytes[16..20], self.nv);
        numbers::put_signed(&mut bytes[20..24], self.ne);
        numbers::put_signed(&mut bytes[24..28], self.xv);
        numbers::put_signed(&mut bytes[28..32], self.xe);
        numbers::put_signed(&mut bytes[32..36], self.yv);
        numbers::put_signed(&mut bytes[36..40], self.ye);
        numbers::put_signed(&mut bytes[40..44], self.hv);
        numbers::put_signed(&mut bytes[44..48], self.he);
        numbers::put::<4>(&mut bytes[48..52], self.uplift);
        numbers::put::<4>(&mut bytes[52..56], self.passive);
        numbers::put::<1>(&mut bytes[56..57], self.flags);
    }

    ghost same_byte = { λ x. refl };
}

impl Puts for Detail {
    fn put(self, bytes: &mut [u8]) {
        numbers::put::<1>(&mut bytes[0..1], self.place);
        numbers::put::<2>(&mut bytes[1..3], self.ultimate);
        numbers::put::<2>(&mut bytes[3..5], self.yielded);
        numbers::put::<2>(&mut bytes[5..7], self.ductility);
        numbers::put::<1>(&mut bytes[7..8], self.lap);
    }

    ghost same_byte = { λ x. refl };
}

impl Puts for (u8, Basement) {
    fn put(self, bytes: &mut [u8]) {
        let (id, member) = self;
        numbers::put::<1>(&mut bytes[0..1], member.place);
        numbers::put::<1>(&mut bytes[1..2], u32::from(id));
        numbers::put_signed(&mut bytes[2..6], member.nonseismic_shear);
        numbers::put::<4>(&mut bytes[6..10], member.seismic_shear);
        numbers::put_signed(&mut bytes[10..14], member.nonseismic_moment);
        numbers::put::<4>(&mut bytes[14..18], member.seismic_moment);
        numbers::put::<4>(&mut bytes[18..22], member.shear_strength);
        numbers::put::<4>(&mut bytes[22..26], member.moment_strength);
    }

    ghost same_byte = { λ x. refl };
}

// ---- a command

// One command's values: 5, then 11, then its byte and its operands.
pub fn write_values<T: Puts>(values: T, bytes: &mut [u8]) -> Result<usize, WriteError>
    ensures { WritesCommand (T.command values) bytes.old result bytes.new }
{
    if !values.in_range() {
        return Err(WriteError::OutOfRange);
    }
    let width = 1 + T::KIND.width();
    if bytes.len() < width {
        return Err(WriteError::TooShort);
    }
    bytes[0] = u8::from(T::KIND);
    values.put(&mut bytes[1..width]);
    Ok(width)
}

// The bytes of a command, written from the slice's first byte on.
#[tactic(auto, using(blocks::proofs::FileCommands::one_read))]
pub fn write(command: Command, bytes: &mut [u8]) -> Result<usize, WriteError>
    ensures answer { answer_of result ≡ write_of command (length bytes.old) }
    ensures bytes { bytes.new ≡ bytes_after command bytes.old }
    ensures back { (answer_of result).number ≡ 0 → command_at bytes.new 0 ≡ command }
{
    match command {
        Command::Finish => write_values(End, bytes),
        Command::Settings(s) => write_values(s, bytes),
        Command::Joint(id, j) => write_values((id, j), bytes),
        Command::Column(c) => write_values(c, bytes),
        Command::Beam(b) => write_values(b, bytes),
        Command::Hingeless(id1, id2, m) => write_values((id1, id2, m), bytes),
        Command::WallBase(b) => write_values(b, bytes),
        Command::Storey(s) => write_values(s, bytes),
        Command::Soil(s) => write_values(s, bytes),
        Command::Footing(f) => write_values(f, bytes),
        Command::Detail(d) => write_values(d, bytes),
        Command::Basement(id, m) => write_values((id, m), bytes),
        Command::Building => write_values(Building, bytes),
    }
}

// ---- a block of storeys, given as words, six a set

// The storey of a set.
#[tactic(auto, unfolding(crate::specs::BlockGiven::storey_of_words))]
fn storey_of(words: &[u32; 6]) -> Storey
    ensures { result ≡ storey_of_words words.now 0 }
{
    let [moment, shear, inertia, base_inertia, strength, resistance] = *words;
    Storey {
        moment,
        shear,
        inertia,
        base_inertia,
        strength,
        resistance,
    }
}

// Whether each of these sets is in range.
fn sets_in_range(sets: &[[u32; 6]]) -> bool
    ensures { result ≡ all_in_range (map (λ words. storey_of_words words 0) sets.now) }
{
    for words in sets {
        if !storey_of(words).in_range() {
            return false;
        }
    }
    true
}

// The operands of these sets, one after the other, behind the count.
fn put_sets(bytes: &mut [u8], sets: &[[u32; 6]])
    requires { 2 + 24 * length sets.now ≤ length bytes.old }
    ensures { Put bytes.old 2 (set_bytes (map (λ words. storey_of_words words 0) sets.now)) bytes.new }
{
    for (set, words) in sets.iter().enumerate() {
        let at = 2 + blocks::SET * set;
        storey_of(words).put(&mut bytes[at..at + blocks::SET]);
    }
}

// The bytes of a block of so many sets, written from the slice's first byte on. Further words are not looked at.
pub fn write_block(count: u32, sets: &[u32], bytes: &mut [u8]) -> Result<usize, WriteError>
    ensures answer { answer_of result ≡ write_block_of count sets.now (length bytes.old) }
    ensures bytes { bytes.new ≡ block_bytes_after count sets.now bytes.old }
    ensures back { (answer_of result).number ≡ 0 → file_command_at bytes.new 0 ≡ block_of count sets.now }
{
    let n = count as usize;
    if !blocks::count_in_range(n) {
        return Err(WriteError::OutOfRange);
    }
    if sets.len() < 6 * n {
        return Err(WriteError::OutOfRange);
    }
    let (sets, _) = sets[..6 * n].as_chunks::<6>();
    if !sets_in_range(sets) {
        return Err(WriteError::OutOfRange);
    }
    if bytes.len() < 2 + blocks::SET * n {
        return Err(WriteError::TooShort);
    }
    bytes[0] = blocks::BLOCK;
    numbers::put::<1>(&mut bytes[1..2], count);
    put_sets(bytes, sets);
    Ok(2 + blocks::SET * n)
}
