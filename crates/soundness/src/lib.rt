// Whether numbers and rows are sound: the conditions of document 01, "What a table holds". Here and in `request`, `walk`,
// `questions` and `hindering` tests are joined by `&`, with no branch between them: every call makes them for every row.
#![tactic(auto)]

ghost use Rattle.std.specs.Prelude.{◌&&◌, ◌≡◌};
ghost use Rattle.laws.specs.Lists.{holds};
ghost use Rattle.laws.specs.Sets.{meets};
ghost use Rattle.soundness.specs.Beside.{beside_by, holder_by};
ghost use Rattle.soundness.specs.Conditions.{counters, idle_conditions, ranges};

use event::{HIGHEST, MOST};
use laws::sets::{inside, meets, union};
use rows::{Row, Standing, Turn, earlier, token};

// The numbers of a table.
#[derive(Clone, Copy)]
pub struct Bounds {
    pub tokens: u32,
    pub resources: u32,
    pub limit: u32,
    pub time: u64,
    pub last: Turn,
}

// Whether T, R and the limit are in range.
pub fn in_range(tokens: u32, resources: u32, limit: u32) -> bool
    ensures { result ≡ holds (ranges tokens resources limit) }
{
    (1 <= tokens) & (tokens <= MOST) & (1 <= resources) & (resources <= MOST) & (1 <= limit)
}

// Whether the numbers of a table are in range.
pub fn numbers_sound(b: Bounds) -> bool
    ensures { result ≡ (holds (ranges b.tokens b.resources b.limit) && holds (counters b.time b.last.0)) }
{
    in_range(b.tokens, b.resources, b.limit) & (b.time <= HIGHEST) & !earlier(Turn(HIGHEST), b.last)
}

// Whether an idle row is zero.
pub fn idle_sound(r: Row) -> bool
    ensures { result ≡ holds (idle_conditions r) }
{
    (r.declared | r.held | r.asked | r.since) == 0
}

// Whether the row of a request that has a token is sound: what it holds and asks for is declared, what it holds is apart
// from what it asks for and from all that is declared before it, and it waits exactly while it asks for some of that.
fn holder_sound(r: Row, claims: u64, time: u64) -> bool
    ensures { result ≡ holder_by time r claims }
{
    let declared = inside(union(r.held, r.asked), r.declared);
    let apart = !meets(r.held, union(r.asked, claims));
    if r.asked == 0 {
        return declared & apart & (r.since == 0);
    }
    declared & apart & (meets(claims, r.asked) & (r.since <= time))
}

// Whether a live row is sound beside what stands before it, except for its turn and its resources, which are tested for all
// rows at once.
pub fn live_sound(r: Row, s: Standing, tokens: u32, time: u64) -> bool
    ensures { result ≡ holds (beside_by tokens time r s.ahead (meets s.claims)) }
{
    if token(s, tokens) {
        return holder_sound(r, s.claims, time);
    }
    (0 < r.declared) & (union(r.held, r.asked) == 0) & (r.since <= time)
}
