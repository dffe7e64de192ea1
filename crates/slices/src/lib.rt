// A slice of words as rows, and bytes written into a lent slice from a position on: specs/Written.antt, with its laws in
// proofs/Writing.antt. Assumes nothing.
#![tactic(auto)]

ghost use Rattle.std.specs.Prelude.{◌≡◌, ◌*◌, ◌≤◌, length};
ghost use Rattle.std.specs.Simd.{first_chunks};

// The first n rows, eight words each.
pub fn first_rows(words: &[i64], n: usize) -> &[[i64; 8]]
    requires { 8 * n ≤ length words.now }
    ensures { result.now ≡ first_chunks 8 n words.now }
{
    let (rows, _) = words.as_chunks::<8>();
    &rows[..n]
}
