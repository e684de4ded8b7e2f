// The bench: its sixteen heads in one table, which is lent, and what is held from read to read. Each function over the table is thin; what a head does is a function by value.
#![tactic(auto)]

ghost use Rattle.std.specs.Prelude.{◌≡◌, ◌≤◌, ◌<◌, length, replicate};
ghost use Rattle.seat.specs.Seat.{empty_seat};
ghost use Rattle.worlds.specs.Bench.{start_last};
ghost use Rattle.worlds.specs.Desk.{Stepped, Turned, Fed};
ghost use Rattle.table.specs.Acts.{Acted};
ghost use Rattle.table.specs.Held.{Holds, HoldsStarting, settled, stands_as_started, stands_for};

use asking::{Order, World, asked};
use deeds::Deed;
use group::Group;
use noting::told;
use seat::{Seat, empty_seat, played, starts};

#[cfg(test)]
mod tests;

// The most views and formed sessions.
pub const VIEWS: usize = 1000;

pub const SESSIONS: usize = 1001;

// Sixteen heads before their group line.
pub fn new_table() -> [Seat; Group::HEADS]
    ensures { result ≡ replicate 16 empty_seat }
{
    [empty_seat(); Group::HEADS]
}

// One head acts, hearing another, and its place in the table is stored.
pub fn act(table: &mut [Seat], o: Order) -> Deed
    requires { (o.to < 16) × ((o.to < length table.old) × (o.from < length table.old)) }
    ensures { Acted table.old table.new o result }
{
    let n = played(o.to, table[o.to], table[o.from], o.what);
    table[o.to] = n.seat;
    n.deed
}

// The last n heads are started, one after the other. By number: only the last n, and each is started with its own.
fn start_last(table: &mut [Seat; Group::HEADS], core: u16, least: u8, n: usize)
    requires { n ≤ 16 }
    ensures { table.new ≡ start_last core least n table.old }
{
    for p in Group::HEADS - n..Group::HEADS {
        table[p] = starts(table[p], p, core, least).seat;
    }
}

// What the bench holds from read to read. Memory is fixed: each list has room for the most, and the world has its count.
#[derive(Drop)]
pub struct Desk {
    pub table: [Seat; Group::HEADS],
    pub views: [u64; VIEWS],
    pub formed: [u64; SESSIONS],
    pub world: World,
}

impl Desk {
    // One step of the bench: a head that the group line has yet to start, or what the next line asks; what the head does, what is kept and printed of it. The output is of any length that has room.
    pub fn step(&mut self, s: &[u8], out: &mut [u8])
        requires { (self.old.world.at < self.old.world.stop) × HoldsStarting s.now out.old self.old }
        ensures { HoldsStarting s.now out.new self.new × Stepped s.now self.old.world (stands_as_started out.old self.old) (stands_as_started out.new self.new) self.new.world }
    {
        let o = asked(&mut self.views, s, self.world);
        let d = act(&mut self.table, o);
        self.world = told(&mut self.formed, out, self.world, o, d);
    }

    // All whole lines of a part of the input, in order, by steps: where the last is a group line, its heads are left to start.
    pub fn steps(&mut self, s: &[u8], out: &mut [u8])
        requires { HoldsStarting s.now out.old self.old }
        ensures { HoldsStarting s.now out.new self.new × Fed s.now self.old.world (stands_as_started out.old self.old) (stands_as_started out.new self.new) self.new.world }
    {
        while self.world.at < self.world.stop {
            self.step(s, out);
        }
    }

    // All heads that a group line has yet to start are started.
    fn start_left(&mut self)
        requires { self.old.world.starting ≤ 16 }
        ensures { self.new ≡ settled self.old }
    {
        let w = self.world;
        start_last(&mut self.table, w.core, w.least, w.starting);
        self.world.starting = 0;
    }

    // One turn of the bench: what the next line asks, what the head does, what is kept and printed of it; after a group line all heads are started. What an earlier step left to start is forgotten.
    pub fn turn(&mut self, s: &[u8], out: &mut [u8])
        requires { (self.old.world.at < self.old.world.stop) × Holds s.now out.old self.old }
        ensures { Holds s.now out.new self.new × Turned s.now self.old.world (stands_for out.old self.old) (stands_for out.new self.new) self.new.world × (self.new.world.starting ≡ 0) }
    {
        self.world.starting = 0;
        self.step(s, out);
        self.start_left();
    }

    // All whole lines of a part of the input, in order, by steps; then the heads are started that the last one leaves. What an earlier step left to start is forgotten.
    pub fn feed(&mut self, s: &[u8], out: &mut [u8])
        requires { Holds s.now out.old self.old }
        ensures { Holds s.now out.new self.new × Fed s.now self.old.world (stands_for out.old self.old) (stands_for out.new self.new) self.new.world × (self.new.world.starting ≡ 0) }
    {
        self.world.starting = 0;
        self.steps(s, out);
        self.start_left();
    }
}
