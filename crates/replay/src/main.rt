// Replays a recording: standard input holds it, standard output gets its listing, block by block.
#![tactic(auto)]

use blocks::{ROOM, pass_on};
use listing::Replay;

// Writes lines at once, and says whether that worked.
fn written(rt: &(impl Print + Eprint), lines: &[u8]) -> bool {
    stream::write_out(rt, 0, lines) == 0
}

// Takes all blocks, and ends the listing unless a read or a write failed.
fn main(rt: HostRuntime) {
    let mut room = [0u8; ROOM];
    let mut replay = Replay::new();
    if blocks::take_all(&rt, &mut replay, &mut room, |lines| written(&rt, lines)).is_ok() {
        let took = replay.finish(&mut room);
        let _ = pass_on(took, &room, |lines| written(&rt, lines));
    }
}
