// The words of a row that a rule makes, and the bits of its verdict. What demand 3 claims of a row is in specs/.
#![tactic(auto)]

ghost use Rattle.std.specs.Prelude.{◌≡◌, ◌||◌, ◌+◌, ◌^◌, ◌≤◌, ◌<◌, pos, neg_ℤ};
ghost use Rattle.std.specs.Int.Signed.{lt_z};
ghost use Rattle.claims.specs.Verdict.{flag};
ghost use Rattle.claims.specs.Words.{packed_row};

// Words 2 to 7 of a row; word 7 is the verdict, 0 for passed. Rules and claims name each word, so this is no array.
#[derive(Clone, Copy)]
pub struct Row {
    pub word2: i64,
    pub word3: i64,
    pub word4: i64,
    pub word5: i64,
    pub word6: i64,
    pub verdict: i64,
}

// The bit's value where it is set, else 0: a bit of a verdict where the check failed, and 1 where a word tells yes. As a choice, since
// `bit * u64::from(set)` would hide it.
pub fn flagged(bit: u64, set: bool) -> u64
    ensures { result ≡ flag bit set }
{
    if set { bit } else { 0 }
}

// Whether an upper value or minus a lower one exceeds the strength.
pub fn either_exceeds(upper: i64, lower: i64, strength: u32) -> bool
    ensures { result ≡ (lt_z (pos strength) upper || lt_z (pos strength) (neg_ℤ lower)) }
{
    let limit = i64::from(strength);
    limit < upper || lower < -limit
}

// A word of a row from a number that is not negative: what `as i64` asks stands here once, and not at each word.
pub fn word(value: u64) -> i64
    requires { value < 2 ^ 63 }
    ensures { result ≡ pos value }
{
    value as i64
}

// The verdict of two tests, each with its bit.
pub fn verdict_of(bit: u64, failed: bool, other: u64, broken: bool) -> u64
    requires { bit + other < 2 ^ 63 }
    ensures value { result ≡ flag bit failed + flag other broken }
    ensures within { result ≤ bit + other }
{
    flagged(bit, failed) + flagged(other, broken)
}

// A row from numbers that are not negative. A literal of `Row` in its place would name six conversions.
pub fn packed(word2: u64, word3: u64, word4: u64, word5: u64, word6: u64, verdict: u64) -> Row
    requires word2 { word2 < 2 ^ 63 }
    requires word3 { word3 < 2 ^ 63 }
    requires word4 { word4 < 2 ^ 63 }
    requires word5 { word5 < 2 ^ 63 }
    requires word6 { word6 < 2 ^ 63 }
    requires verdict { verdict < 2 ^ 63 }
    ensures { result ≡ packed_row word2 word3 word4 word5 word6 verdict }
{
    Row {
        word2: word(word2),
        word3: word(word3),
        word4: word(word4),
        word5: word(word5),
        word6: word(word6),
        verdict: word(verdict),
    }
}
