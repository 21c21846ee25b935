// Sets of states as words of 64 bits: state n is a member exactly if bit n of the word is 1.
#![tactic(auto)]

ghost use Rattle.std.specs.Prelude.{◌≡◌, true, ◌∷◌, ℕ, ◌<◌, ◌^◌, ◌-◌, ltb, leb};
ghost use Rattle.sets.specs.Without.{without};
ghost use Rattle.words.specs.Lists.{every};
ghost use Rattle.words.specs.Sets.{member, single, join, part_of, members};

// The one-bit word of state n, by a shift: 2 to the power n, for every n from 0 to 63 (document 02, 4). As a set, its only member is n.
pub fn one_bit(n: u64) -> u64
    requires { n < 64 }
    ensures value { result ≡ 2 ^ n }
    ensures set { result ≡ single n }
{
    1u64 << n
}

// The set of all that can be a member: every n from 0 to 63.
pub fn full() -> u64
    ensures value { result ≡ 2 ^ 64 - 1 }
    ensures all { (n : ℕ) → n < 64 → member result n ≡ true }
{
    u64::MAX
}

// The set of all that is a member of a or of b.
pub fn join(a: u64, b: u64) -> u64
    ensures { result ≡ join a b }
{
    a | b
}

// Whether every member of a is a member of b.
pub fn part_of(a: u64, b: u64) -> bool
    ensures { result ≡ part_of a b }
{
    join(a, b) == b
}

// Whether n is a member of s.
pub fn has(s: u64, n: u64) -> bool
    requires { n < 64 }
    ensures { result ≡ member s n }
{
    part_of(one_bit(n), s)
}

// Whether every member of s is less than n.
pub fn all_below(s: u64, n: u64) -> bool
    requires { n < 64 }
    ensures { result ≡ every (λ m. ltb m n) (members s) }
{
    s < one_bit(n)
}

// Whether no member of s is less than n.
pub fn none_below(s: u64, n: u64) -> bool
    requires { n < 64 }
    ensures { result ≡ every (λ m. leb n m) (members s) }
{
    s % one_bit(n) == 0
}

// The set of the members of s other than n, which is one.
pub fn without(s: u64, n: u64) -> u64
    requires { (n < 64) × (member s n ≡ true) }
    ensures { result ≡ without s n }
{
    s - one_bit(n)
}

// A member of a set, and the set of the others.
#[derive(Clone, Copy)]
pub struct Split {
    pub member: u64,
    pub others: u64,
}

// The least member of a set that is not empty, and the set of the others.
pub fn least_member(s: u64) -> Split
    requires { 0 < s }
    ensures s_value { members s ≡ result.member ∷ members result.others }
    ensures member_bound { result.member < 64 }
{
    let member = u64::from(s.trailing_zeros());
    Split {
        member,
        others: s - one_bit(member),
    }
}
