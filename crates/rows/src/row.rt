// Turns and rows.
ghost use Rattle.std.specs.Prelude.{◌≡◌, ltb};
ghost use Rattle.rows.specs.Order.{idle, live};

// A request's place in the order of opening. A type of its own, so that no tick can be taken for one.
#[repr(C)]
#[derive(Clone, Copy)]
pub struct Turn(pub u64);

// What is kept of a job's request. Turn 0 makes the row idle.
#[repr(C)]
#[derive(Clone, Copy)]
pub struct Row {
    pub turn: Turn,
    pub declared: u64,
    pub held: u64,
    pub asked: u64,
    pub since: u64,
}

// Whether `a` stands before `b`. Turns are compared here and nowhere else.
pub fn earlier(a: Turn, b: Turn) -> bool
    ensures { result ≡ ltb a.0 b.0 }
{
    a.0 < b.0
}

// Whether the row is a request.
pub fn live(r: Row) -> bool
    ensures { result ≡ live r }
{
    earlier(Turn(0), r.turn)
}

// The row of a job that has no request.
pub fn idle() -> Row
    ensures { result ≡ idle }
{
    Row {
        turn: Turn(0),
        declared: 0,
        held: 0,
        asked: 0,
        since: 0,
    }
}
