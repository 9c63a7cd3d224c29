// The form of the gym file: what specs/Format.antt says of the nine sections, as one fixed string
// with the places of its parts.
ghost use Rattle.std.specs.Prelude.{◌≡◌, get_or, drop};
ghost use Rattle.graph_rows.specs.Format.{section_at, has_kinds, has_turns};
ghost use Rattle.graph_rows.specs.Table.{format_bytes, place_by, names_place, row_place, range_place, key_place, filled_place, layout_of, sequence_meaning};

use text_field::get_or;

// The bytes of a file at most (document 01, "The gym file").
pub const TEXT_BYTES: usize = 32768;

// The states, 0 to 15, the marks, 0 to 65,535, the turns, 0 to 99 (document 02, K12), and the count
// of scopes at most.
pub const STATES: u64 = 16;

pub const MARKS: u64 = 65536;

pub const TURNS: u64 = 100;

pub const MOST_SCOPES: u64 = 64;

// The forms of a file, by the number that is its table's first cell: without kinds, as document 01
// has it, with kinds (document 02, K8), and with kinds and turns (K12). Forms and sections are
// numbers here, and no enums: they are cells of the table that C lends, which may hold any number.
pub const OLD_FORM: u64 = 0;

pub const KIND_FORM: u64 = 1;

pub const TURN_FORM: u64 = 2;

// How many sections there are, and their numbers (document 01, "The gym file"). The names lines of
// edges and declarations show the form.
pub const SECTIONS: usize = 9;

pub const LABELS: usize = 0;

pub const PAIRS: usize = 1;

pub const TRANSITIONS: usize = 2;

pub const ACCEPTS: usize = 3;

pub const COUNT: usize = 4;

pub const EDGES: usize = 5;

pub const DECLARATIONS: usize = 6;

pub const OPENS: usize = 7;

pub const QUERIES: usize = 8;

// The kind of all that stands in a file without kinds, `v`.
pub const PLAIN_KIND: u64 = 118;

// For each section its names line, the items of its row, those of its fields that have a range, and
// the places of its key, in a file of the old form; then the names lines and rows of declarations
// and queries with kinds; then those of edges with turns, and their fields that have a range. Items
// stand there by their codes (Item::of).
const FORMAT: &[u8; 260] =
    b"label\n\xa0\n\n\nless more\n\xb0 \xb1\n\xb0\xb1\n01\nstate label next\n\x80 \xa9 \x82\n\x80\xa9\x82\n01\naccept\n\x80\n\x80\n0\nscopes\n\x98\n\x98\n\nfrom label to\n\x88 \xa9 \x8a\n\x88\xa9\x8a\n0132\nat name mark\n\x88 \xc9\xba \x94\n\x88\x94\n01234\nat open\n\x88 \xb1\n\x88\xb1\n01\nstart seek\n\x88 \xc9\xba\n\x88\n\nat kind name mark\n\x88 \xc1 \xba \x94\nstart kind seek\n\x88 \xc1 \xba\nfrom label turn to\n\x88 \xa9 \xd3 \x8a\n\x88\xa9\xd3\x8a\n";

// How many rows each section may have, by its number: document 01 asks for this table.
const LIMITS: &[usize; 9] = &[8, 36, 128, 16, 1, 512, 512, 576, 256];

// How many rows each section must have: `scopes` one.
const LEAST: &[usize; 9] = &[0, 0, 0, 0, 1, 0, 0, 0, 0];

// The format from a place on.
pub fn codes_from(o: usize) -> &'static [u8]
    ensures answer { result.now ≡ drop o format_bytes }
{
    &FORMAT[o.min(FORMAT.len())..]
}

// The byte at a place of the format; past its end an end of line.
pub fn item(o: usize) -> u8
    ensures answer { result ≡ get_or format_bytes o 10 }
{
    get_or(FORMAT, o, b'\n')
}

// Does a file of this form show kinds?
pub fn has_kinds(form: u64) -> bool
    ensures answer { result ≡ has_kinds form }
{
    form == KIND_FORM || form == TURN_FORM
}

// Does a file of this form show turns?
pub fn has_turns(form: u64) -> bool
    ensures answer { result ≡ has_turns form }
{
    form == TURN_FORM
}

// Of two places of the format the one by whether the file shows a column: without it, with it.
fn place_by(shown: bool, old: usize, new: usize) -> usize
    ensures answer { result ≡ place_by shown old new }
{
    if shown { new } else { old }
}

// Where section k's names line starts in the format, for a file of a form.
pub fn names_place(form: u64, k: usize) -> usize
    ensures answer { result ≡ names_place form k }
{
    match k {
        LABELS => 0,
        PAIRS => 10,
        TRANSITIONS => 30,
        ACCEPTS => 60,
        COUNT => 73,
        EDGES => place_by(has_turns(form), 85, 228),
        DECLARATIONS => place_by(has_kinds(form), 114, 180),
        OPENS => 143,
        QUERIES => place_by(has_kinds(form), 161, 206),
        _ => 260,
    }
}

// Where the items of section k's row start in the format, for a file of a form.
fn row_place(form: u64, k: usize) -> usize
    ensures answer { result ≡ row_place form k }
{
    match k {
        LABELS => 6,
        PAIRS => 20,
        TRANSITIONS => 47,
        ACCEPTS => 67,
        COUNT => 80,
        EDGES => place_by(has_turns(form), 99, 247),
        DECLARATIONS => place_by(has_kinds(form), 127, 198),
        OPENS => 151,
        QUERIES => place_by(has_kinds(form), 172, 222),
        _ => 260,
    }
}

// Where the fields with a range of section k's row start in the format, for a file of a form.
fn range_place(form: u64, k: usize) -> usize
    ensures answer { result ≡ range_place form k }
{
    match k {
        LABELS => 8,
        PAIRS => 24,
        TRANSITIONS => 53,
        ACCEPTS => 69,
        COUNT => 82,
        EDGES => place_by(has_turns(form), 105, 255),
        DECLARATIONS => 134,
        OPENS => 155,
        QUERIES => 177,
        _ => 260,
    }
}

// Where the key of section k starts in the format, which is the same in all forms.
pub fn key_place(k: usize) -> usize
    ensures answer { result ≡ key_place k }
{
    match k {
        LABELS => 9,
        PAIRS => 27,
        TRANSITIONS => 57,
        ACCEPTS => 71,
        COUNT => 84,
        EDGES => 109,
        DECLARATIONS => 137,
        OPENS => 158,
        QUERIES => 179,
        _ => 260,
    }
}

// How many rows section k may have.
pub fn most(k: usize) -> usize
    ensures answer { result ≡ (section_at k).most }
{
    get_or(LIMITS, k, 0)
}

// How many rows section k must have.
pub fn least(k: usize) -> usize
    ensures answer { result ≡ (section_at k).least }
{
    get_or(LEAST, k, 0)
}

// How a section's rows follow one another: they ascend; they ascend and no edge stands twice; no
// letter stands twice; or they are free.
#[derive(Clone, Copy)]
pub enum Sequence {
    Ascending,
    Apart,
    Once,
    Free,
}

// How the rows of section k follow one another.
pub fn sequence_of(k: usize) -> Sequence
    ensures answer { sequence_meaning result ≡ (section_at k).sequence }
{
    match k {
        LABELS => Sequence::Once,
        PAIRS => Sequence::Ascending,
        TRANSITIONS => Sequence::Ascending,
        ACCEPTS => Sequence::Ascending,
        COUNT => Sequence::Free,
        EDGES => Sequence::Apart,
        DECLARATIONS => Sequence::Ascending,
        OPENS => Sequence::Ascending,
        QUERIES => Sequence::Free,
        _ => Sequence::Free,
    }
}

// How many places of a row of section k its items fill, in a file of a form: they are the first
// ones.
fn filled_place(form: u64, k: usize) -> usize
    ensures answer { result ≡ filled_place form k }
{
    match k {
        LABELS => 1,
        PAIRS => 2,
        TRANSITIONS => 3,
        ACCEPTS => 1,
        COUNT => 1,
        EDGES => place_by(has_turns(form), 3, 4),
        DECLARATIONS => 5,
        OPENS => 2,
        QUERIES => 4,
        _ => 0,
    }
}

// What every row of a section asks for, looked up once where the section begins: the form of the
// file and the section's number, how many rows it may have, where the items of a row and those of
// its fields start that have a range, and how many places of a row are filled.
#[derive(Clone, Copy)]
pub struct Layout {
    pub form: u64,
    pub section: usize,
    pub limit: usize,
    pub line: usize,
    pub range: usize,
    pub filled: usize,
}

// The layout of section k in a file of a form.
pub fn layout_of(form: u64, k: usize) -> Layout
    ensures answer { result ≡ layout_of form k }
{
    Layout {
        form,
        section: k,
        limit: most(k),
        line: row_place(form, k),
        range: range_place(form, k),
        filled: filled_place(form, k),
    }
}
