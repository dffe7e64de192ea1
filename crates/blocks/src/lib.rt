// A block of storeys: the range of its count, and the operand at fault among its sets. 02, No. 7.
#![tactic(auto)]

ghost use Rattle.std.specs.Prelude.{◌≡◌, ◌*◌, ◌≤◌, length};
ghost use Rattle.blocks.specs.Sets.{count_in_range, storeys_in, operand_named};

use format::{CommandBytes, Operands};
use layout::Kind;
use walls::Storey;

// The byte of a block.
pub const BLOCK: u8 = 11;

// The bytes of a set.
pub const SET: usize = 24;

pub const LEAST_COUNT: usize = 1;

pub const GREATEST_COUNT: usize = 64;

// Whether a block may have so many sets.
#[tactic(auto, unfolding(crate::specs::Sets::count_in_range, quantity::specs::Range::within))]
pub fn count_in_range(count: usize) -> bool
    ensures { result ≡ count_in_range count }
{
    (LEAST_COUNT..=GREATEST_COUNT).contains(&count)
}

// The operand at fault among sets, counted from 1, six a set; none where every set is in range.
pub fn operand_named(sets: &[u8]) -> Option<u32>
    requires { length sets.now ≤ 24 * 64 }
    ensures { result ≡ operand_named (storeys_in sets.now) }
{
    let (chunks, _) = sets.as_chunks::<SET>();
    for (set, operands) in chunks.iter().enumerate() {
        if !Storey::read(operands).in_range() {
            let storey = CommandBytes::new(Kind::Storey, operands);
            return Some(1 + 6 * set as u32 + storey.operand_at_fault());
        }
    }
    None
}
