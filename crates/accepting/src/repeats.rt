// Are all rows of a listing different? Rows are put into classes by their bytes, and one that is
// alone in its class is compared with no other.
ghost use Rattle.std.specs.Prelude.{◌≡◌, true, ◌≤◌, ◌<◌, get_or, drop};
ghost use Rattle.told.specs.Apart.{rows_in};
ghost use Rattle.accepting.specs.Tests.{none_twice};
ghost use Rattle.accepting.specs.Steps.{text_among};
ghost use Rattle.accepting.specs.Classes.{class_of, raised, class_counts, Tells};

use text_field::get_or;
use told::row_at;

// How many classes there are: so many that of some thousand rows few share one.
const CLASSES: usize = 65536;

// The class after one byte more is this times the class before it, and the byte.
const FACTOR: usize = 31;

// A listing with fewer rows is not worth the classes: all of them are compared.
const FEW: usize = 32;

// A class with two rows or more; those beyond two are not counted.
const SHARED: u8 = 2;

// Does the row stand among those from a place of the text on?
fn is_among(row: &[u8], lists: &[u8], from: usize) -> bool
    ensures answer { result ≡ text_among row.now (rows_in (drop from lists.now)).0 }
{
    let mut at = from;
    while let Some((end, next)) = row_at(lists, at) {
        if row == &lists[at..end] {
            return true;
        }
        at = next;
    }
    false
}

// The class of a row's bytes.
fn class_of(row: &[u8]) -> usize
    ensures answer { result ≡ class_of row.now }
    ensures below { result < 65536 }
{
    let mut class: usize = 0;
    for &x in row {
        class = (class * FACTOR + x as usize) % CLASSES;
    }
    class
}

// The count of a class with one row more.
fn one_more(count: u8) -> u8
    ensures answer { result ≡ raised count }
{
    if count == 0 {
        return 1;
    }
    SHARED
}

// Counts the rows of each class, from a place of the text on.
fn count_classes(lists: &[u8], first: usize, counts: &mut [u8; CLASSES])
    ensures counted { counts.new ≡ class_counts counts.old (rows_in (drop first lists.now)).0 }
{
    let mut at = first;
    while let Some((end, next)) = row_at(lists, at) {
        let class = class_of(&lists[at..end]);
        counts[class] = one_more(counts[class]);
        at = next;
    }
}

// Does the row stand among those from a place of the text on? Only a row in a shared class is
// looked for.
fn stands_again(row: &[u8], lists: &[u8], from: usize, counts: &[u8]) -> bool
    requires shared { text_among row.now (rows_in (drop from lists.now)).0 ≡ true → 2 ≤ get_or counts.now (class_of row.now) 2 }
    ensures answer { result ≡ text_among row.now (rows_in (drop from lists.now)).0 }
{
    get_or(counts, class_of(row), SHARED) >= SHARED && is_among(row, lists, from)
}

// Is no row from a place of the text on repeated? The counts tell which rows share their class.
fn none_again(lists: &[u8], first: usize, counts: &[u8]) -> bool
    requires tell { Tells counts.now (rows_in (drop first lists.now)).0 }
    ensures answer { result ≡ none_twice (rows_in (drop first lists.now)).0 }
{
    let mut at = first;
    while let Some((end, next)) = row_at(lists, at) {
        if stands_again(&lists[at..end], lists, next, counts) {
            return false;
        }
        at = next;
    }
    true
}

// Is no row from a place of the text on repeated? There are `count` of them.
pub(crate) fn all_different(lists: &[u8], first: usize, count: usize) -> bool
    ensures answer { result ≡ none_twice (rows_in (drop first lists.now)).0 }
{
    if count < FEW {
        return none_again(lists, first, &[SHARED; 1]);
    }
    let mut counts = [0u8; CLASSES];
    count_classes(lists, first, &mut counts);
    none_again(lists, first, &counts)
}
