// What a group line leaves in the table itself: all heads started, as document 01 has a started record.
ghost use Rattle.std.specs.Prelude.{◌≡◌};

use crate::{Desk, SESSIONS, VIEWS, new_table};
use asking::World;
use record::layout::{core, least, own};

// The desk before any line, with a part of `stop` bytes to come.
fn desk_for(stop: usize) -> Desk
    ensures { (result.world.at ≡ 0) × (result.world.stop ≡ stop) × (result.world.put ≡ 0) × (result.world.views ≡ 0) × (result.world.formed ≡ 0) }
{
    Desk {
        table: new_table(),
        views: [0; VIEWS],
        formed: [0; SESSIONS],
        world: World {
            at: 0,
            stop,
            put: 0,
            views: 0,
            formed: 0,
            starting: 0,
            grouped: false,
            core: 0,
            least: 0,
            end: stop,
            turns: 1,
        },
    }
}

// Head p has number p, W0 of heads 0 to 4 and Q 1, for each p, and none is left to start.
fn all_started(desk: &Desk) -> bool {
    desk.world.starting == 0
        && desk.table.iter().enumerate().all(|(p, seat)| (
            own(&seat.words),
            core(&seat.words),
            least(&seat.words),
        ) == (p, 31, 1))
}

#[test]
fn a_turn_starts_all_heads(rt: HostRuntime) {
    let mut desk = desk_for(9);
    let mut out = [0; 216];
    desk.turn(b"10001f01\n", &mut out);
    assert_eq!(rt; &out[..desk.world.put], b"started\n".as_slice());
    assert!(rt; all_started(&desk));
}

#[test]
fn a_part_that_ends_in_a_group_line_leaves_no_head_to_start(rt: HostRuntime) {
    let mut desk = desk_for(12);
    let mut out = [0; 288];
    desk.feed(b"00\n10001f01\n", &mut out);
    assert_eq!(rt; &out[..desk.world.put], b"R 3\nstarted\n".as_slice());
    assert!(rt; all_started(&desk));
}
