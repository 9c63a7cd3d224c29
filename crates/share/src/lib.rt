// The share of queries found one, in whole per cent.
#![tactic(auto)]

ghost use Rattle.std.specs.Prelude.{◌≡◌, ◌<◌};
ghost use Rattle.share.specs.Share.{share};

use std::cmp::Ordering;

// Rounds to the nearest per cent; of two that are equally near, to the even one (02, K1). It
// compares twice the remainder with n, so no half is ever needed.
pub fn share_of(one: u64, n: u64) -> u64
    requires few { one < 1000 }
    requires some { 0 < n }
    ensures answer { result ≡ share one n }
{
    let parts = one * 100;
    let whole = parts / n;
    match (2 * (parts % n)).cmp(&n) {
        Ordering::Less => whole,
        Ordering::Equal => whole + whole % 2,
        Ordering::Greater => whole + 1,
    }
}
