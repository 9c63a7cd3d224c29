// The walk over followed places: it takes the rows of a query's entries, or finds a place.
#![tactic(auto)]

use block::{ASKSIZE, SIZE, ask_goal, ask_start, scope_count, taken};
use search::{ALL, Node, live_table};

mod count;
mod next;
mod nodes;
mod rows;

ghost use Rattle.std.specs.Prelude.{◌≡◌, ◌≤◌, ◌<◌, length};
ghost use Rattle.block.specs.Block.{Bounds as BlockBounds};
ghost use Rattle.block.specs.Ask.{ask_start, ask_goal};
ghost use Rattle.search.specs.Conditions.{free_at, LiveAt, WorthAt};
ghost use Rattle.follow.specs.Tally.{State};
ghost use Rattle.follow.specs.Walk.{walked, followed_in};
ghost use Rattle.follow.specs.Steps.{NoRoom};

pub use count::is_broken;
pub use next::{Next, first_followed, next_followed};
use nodes::follow_at;

// What the walk does at a place: takes the rows of the entries there, or notes that it is one.
#[derive(Clone, Copy)]
pub enum Task {
    Entries,
    Place,
}

// What a walk asks for: bytes after which rows are only counted and their declarations compared,
// bytes of the lent memory that it may write, and how many entries it counts up to.
#[derive(Clone, Copy)]
pub struct Bounds {
    pub limit: usize,
    pub kept: usize,
    pub most: u64,
}

// What is sought: places of these scopes and states where the end is not cut, and what is done
// there.
#[derive(Clone, Copy)]
pub struct Aim {
    pub scopes: u64,
    pub states: u64,
    pub end: u64,
    pub task: Task,
    pub bounds: Bounds,
}

// What stays the same along a walk: the board, the graph's table, the ask, and what is sought.
#[derive(Clone, Copy)]
pub(crate) struct Setting<'a> {
    pub block: &'a [u64; SIZE],
    pub table: &'a [u64],
    pub ask: &'a [u64; ASKSIZE],
    pub aim: Aim,
}

// The declarations that the rows so far are of: none, one, by its scope and mark, or several. All
// are of the name sought.
#[derive(Clone, Copy)]
pub enum Seen {
    None,
    One(u64, u64),
    Several,
}

// The place behind the rows that are within the limit, the entries up to the most that are counted,
// whether the rows passed the limit, and their declarations.
#[derive(Clone, Copy)]
pub struct Tally {
    pub bytes: usize,
    pub entries: u64,
    pub over: bool,
    pub seen: Seen,
}

// The path that the walk stands behind: of each hop the edge's cell.
#[derive(Clone, Copy)]
pub struct Path {
    pub hops: [u16; 64],
    pub depth: usize,
}

// The walk from the query's start, in state 0. `worth` holds the places worth entering on the way
// to what is sought; it is the caller's, so that walks with the same one share it.
pub fn walk(
    block: &[u64; SIZE],
    table: &[u64],
    ask: &[u64; ASKSIZE],
    worth: &[u64],
    aim: Aim,
    out: &mut [u8],
    tally: Tally,
) -> Tally
    requires bounds { BlockBounds block.now }
    requires start { ask_start ask.now < 64 }
    requires live { LiveAt block.now (ask_goal ask.now) (free_at (ask_start ask.now)) ask.now }
    requires table { 64 ≤ length worth.now }
    requires worth { WorthAt block.now (ask_goal ask.now) aim.scopes aim.states (free_at (ask_start ask.now)) worth.now }
    requires room { NoRoom aim }
    ensures walked { ◌≡◌ {A = State} (out.new, result) (walked block.now table.now ask.now aim (out.old, tally)) }
{
    let scopes = scope_count(block);
    if 64 < scopes {
        return tally;
    }
    if scopes == 0 {
        return tally;
    }
    let start = ask_start(ask);
    let on = Setting {
        block,
        table,
        ask,
        aim,
    };
    follow_at(
        &on,
        worth,
        Path {
            hops: [0; 64],
            depth: 0,
        },
        Node {
            free: taken(ALL, start),
            left: scopes as usize - 1,
            scope: start,
            state: 0,
        },
        out,
        tally,
    )
}

// The question of its own: is some place of these scopes and states followed, and the end not cut
// there?
pub fn is_followed(
    block: &[u64; SIZE],
    table: &[u64],
    ask: &[u64; ASKSIZE],
    scopes: u64,
    states: u64,
    end: u64,
) -> bool
    requires bounds { BlockBounds block.now }
    requires start { ask_start ask.now < 64 }
    requires live { LiveAt block.now (ask_goal ask.now) (free_at (ask_start ask.now)) ask.now }
    ensures answer { result ≡ followed_in block.now table.now ask.now scopes states end }
{
    let free = taken(ALL, ask_start(ask));
    let worth = live_table(block, ask_goal(ask), scopes, states, free);
    let mut none = [0u8; 1];
    let t = walk(
        block,
        table,
        ask,
        &worth,
        Aim {
            scopes,
            states,
            end,
            task: Task::Place,
            bounds: Bounds {
                limit: 0,
                kept: 0,
                most: 1,
            },
        },
        &mut none,
        Tally {
            bytes: 0,
            entries: 0,
            over: false,
            seen: Seen::None,
        },
    );
    t.entries != 0
}
