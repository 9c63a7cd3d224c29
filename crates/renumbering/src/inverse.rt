// The list of the way back.
ghost use Rattle.std.specs.Prelude.{◌≡◌, ◌≤◌, length};
ghost use Rattle.graph_rows.specs.Format.{most_scopes};
ghost use Rattle.renumbered.specs.Renumbered.{EachOnce, back_of};
ghost use Rattle.was.specs.Cells.{in_cells};

// The list that has at each number of the given one its place there, then zeros.
pub fn inverse(list: &[u64]) -> [u64; 64]
    requires room { length list.now ≤ most_scopes }
    requires once { EachOnce (length list.now) list.now }
    ensures answer { result ≡ in_cells (back_of list.now) }
{
    let mut out = [0u64; 64];
    for (i, &x) in list.iter().enumerate() {
        out[x as usize] = i as u64;
    }
    out
}
