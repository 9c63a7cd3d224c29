// The parts of an edge's cell and of the hint that leads back along an edge, put together and taken
// apart; specs/Layout says how they stand in a cell (`EDGE`, `BACK`).
ghost use Rattle.std.specs.Prelude.{◌≡◌};
ghost use Rattle.block.specs.Block.{packed_edge, scope_of, label_of, turn_of, packed_back, back_scope, back_label};

// How many scopes, labels and turns a cell tells apart: as many scopes and labels as a file may
// have; a file's turns are 0 to 99, and with 128 of them a cell fits 16 bits.
const SCOPE_RANGE: u64 = 64;

const LABEL_RANGE: u64 = 8;

const TURN_RANGE: u64 = 128;

// What a turn counts in an edge's cell: all labels and scopes stand below it.
pub const TURN_UNIT: u64 = 512;

// The edge's cell. Each part is cut to its range, so that it stays out of the others.
pub fn packed_edge(turn: u64, label: u64, to: u64) -> u64
    ensures answer { result ≡ packed_edge turn label to }
{
    turn % TURN_RANGE * TURN_UNIT + label % LABEL_RANGE * SCOPE_RANGE + to % SCOPE_RANGE
}

// The scope that the edge leads to.
pub fn edge_scope(x: u64) -> u64
    ensures answer { result ≡ scope_of x }
{
    x % SCOPE_RANGE
}

// The edge's label.
pub fn edge_label(x: u64) -> u64
    ensures answer { result ≡ label_of x }
{
    x / SCOPE_RANGE % LABEL_RANGE
}

// The edge's turn.
pub fn edge_turn(x: u64) -> u64
    ensures answer { result ≡ turn_of x }
{
    x / TURN_UNIT % TURN_RANGE
}

// The hint that leads back along an edge, to the scope that it comes from.
pub fn packed_back(from: u64, label: u64) -> u64
    ensures answer { result ≡ packed_back from label }
{
    from % SCOPE_RANGE * LABEL_RANGE + label % LABEL_RANGE
}

// The scope that it leads back to. A cell holds another hint above it, so this is cut out.
pub fn back_scope(x: u64) -> u64
    ensures answer { result ≡ back_scope x }
{
    x / LABEL_RANGE % SCOPE_RANGE
}

// The label of the edge.
pub fn back_label(x: u64) -> u64
    ensures answer { result ≡ back_label x }
{
    x % LABEL_RANGE
}
