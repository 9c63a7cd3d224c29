// The text of a listing up to its rows.
ghost use Rattle.std.specs.Prelude.{◌≡◌, ◌<◌};
ghost use Rattle.scope_graph.specs.Order.{end_of};
ghost use Rattle.text_field.specs.Writing.{Wrote};
ghost use Rattle.block.specs.Ask.{ask_name};
ghost use Rattle.graph_table.specs.Values.{packed};
ghost use Rattle.follow.specs.Text.{head_line, seek_columns, found_text, end_text};
ghost use Rattle.follow.specs.Walk.{letter_bytes};
ghost use Rattle.resolution.specs.Asked.{found_meaning, awaits_bytes, query_text, head_text};

use block::{ASKSIZE, SIZE, ask_start, letter};
use board::name_asked;
use graph_table::{Form, Name, OpenRow};
use text_field::Writer;

// How many declarations the entries of a query have: `none`, `one` or `several`.
#[derive(Clone, Copy, PartialEq, Eq)]
pub enum Found {
    None,
    One,
    Several,
}

// `none`, `one` or `several`.
fn put_found(to: &mut Writer, f: Found)
    ensures wrote { Wrote to.old to.new (found_text (found_meaning f)) }
{
    match f {
        Found::None => to.put_bytes(b"none"),
        Found::One => to.put_bytes(b"one"),
        Found::Several => to.put_bytes(b"several"),
    }
}

// An end: `$`, or a label's letter.
fn end_byte(block: &[u64; SIZE], end: u64) -> u8
    ensures answer { result ≡ end_text (letter_bytes block.now) (end_of end) }
{
    if end == 0 {
        return b'$';
    }
    if 8 < end {
        return 0;
    }
    (letter(block, end - 1) % 256) as u8
}

// `-`, or an open pair.
fn put_awaits(to: &mut Writer, block: &[u64; SIZE], a: Option<OpenRow>)
    ensures wrote { Wrote to.old to.new (awaits_bytes block.now a) }
{
    match a {
        None => to.put(b'-'),
        Some(pair) => {
            to.put_number(pair.at);
            to.put(end_byte(block, pair.end));
        },
    }
}

// The names line above the query.
fn put_names(to: &mut Writer, form: Form)
    ensures wrote { Wrote to.old to.new (head_line form) }
{
    match form {
        Form::Old => to.put_bytes(b"start seek found awaits\n"),
        Form::Kinds => to.put_bytes(b"start kind seek found awaits\n"),
    }
}

// What the query seeks: the name, in a file with kinds behind its kind.
pub fn put_seek(to: &mut Writer, form: Form, name: Name)
    requires kind { name.kind < 256 }
    ensures wrote { Wrote to.old to.new (seek_columns form (packed name)) }
{
    match form {
        Form::Old => to.put_name(name.high, name.low),
        Form::Kinds => {
            to.put(name.kind as u8);
            to.put(b' ');
            to.put_name(name.high, name.low);
        },
    }
}

// The names line and the query.
fn put_query(to: &mut Writer, form: Form, ask: &[u64; ASKSIZE])
    requires kind { (ask_name ask.now).kind < 256 }
    ensures wrote { Wrote to.old to.new (query_text form ask.now) }
{
    put_names(to, form);
    to.put_number(ask_start(ask));
    to.put(b' ');
    put_seek(to, form, name_asked(ask));
    to.put(b' ');
}

// The two lines of the query and the line above its entries.
pub fn put_head(
    to: &mut Writer,
    form: Form,
    block: &[u64; SIZE],
    ask: &[u64; ASKSIZE],
    f: Found,
    a: Option<OpenRow>,
)
    requires kind { (ask_name ask.now).kind < 256 }
    ensures wrote { Wrote to.old to.new (head_text form block.now ask.now f a) }
{
    put_query(to, form, ask);
    put_found(to, f);
    to.put(b' ');
    put_awaits(to, block, a);
    to.put_bytes(b"\nmark path\n");
}
