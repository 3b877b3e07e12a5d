// Sets of resources as 64-bit numbers: resource a is the bit of value 2^a.
ghost use Rattle.std.specs.Prelude.{◌≡◌};
ghost use Rattle.laws.specs.Sets.{union, without, meets, inside, below};

// The members of either.
pub fn union(s: u64, t: u64) -> u64
    ensures { result ≡ union s t }
{
    s | t
}

// The members of `s` that are no members of `t`.
pub fn without(s: u64, t: u64) -> u64
    ensures { result ≡ without s t }
{
    s - (s & t)
}

// Whether the two have a member in common.
pub fn meets(s: u64, t: u64) -> bool
    ensures { result ≡ meets s t }
{
    0 < (s & t)
}

// Whether every member of `s` is a member of `t`.
pub fn inside(s: u64, t: u64) -> bool
    ensures { result ≡ inside s t }
{
    (s & t) == s
}

// Whether every member of `s` is below `r`, for every `r`. From 64 on that holds for any set, and no shift is made.
pub fn below(s: u64, r: u32) -> bool
    ensures { result ≡ below s r }
{
    64 <= r || (s >> r) == 0
}
