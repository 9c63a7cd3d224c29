// Replies: each is one text, put at the front of lent memory.
ghost use Rattle.std.specs.Prelude.{◌≡◌, ℕ, List, length, [], ◌∷◌, ◌++◌};
ghost use Rattle.text_field.specs.Buffer.{Buf, puts};
ghost use Rattle.text_field.specs.Number.{number_text};
ghost use Rattle.text_field.specs.Outcome.{Outcome};
ghost use Rattle.text_field.specs.Answer.{answer, leaves, answer_of};
ghost use Rattle.comparison.specs.Compare.{told_in};
ghost use Rattle.judge.specs.Judge.{standing_in};
ghost use Rattle.renumbering.specs.Renumbering.{renumber_of, file_of, list_of};
ghost use Rattle.printing.specs.Printed.{in_place};
ghost use Rattle.gym.specs.Said.{reply_room, standing_name, comparison_name, judge_line, compare_line, count_line, usage_text, answered};
ghost use Rattle.gym.specs.Handed.{reply_meaning, reply_said, Replied};

use crate::words::Reply;
use beginnings::count;
use comparison::{Compared, compare_text};
use conversion::{to_new, to_old};
use dot::dot;
use judge::{Judged, judge_text};
use path_row::form::MOST_STEPS;
use printing::{numbered, put_answer, put_refused};
use readers::readers;
use renumbering::{back, file_answer, list_answer, renumber};
use ruled::rules;
use text_field::{Refusal, Writer, put_bytes};
use undot::undot;

// The room that a reply is lent: as much as a gym file may have.
pub const ROOM: usize = 32768;

// The room of a list, which has 196 bytes at most.
const LIST: usize = 256;

// Standard output, standard error.
#[derive(Clone, Copy)]
pub enum Stream {
    Out,
    Err,
}

// What a reply may be made of: the word's arguments, the gym file's text, and the second file's of
// a word that has one.
#[derive(Clone, Copy)]
pub struct Given<'s> {
    pub first: &'s [u8],
    pub second: &'s [u8],
    pub text: &'s [u8],
    pub more: &'s [u8],
}

// The stream that a reply is for: who asks for nothing that is known gets a complaint.
pub fn stream_of(q: Reply) -> Stream
    ensures answer { (a b text more : List ℕ) → result ≡ (answered (reply_meaning q a b) text more).on }
{
    match q {
        Reply::Usage => Stream::Err,
        _ => Stream::Out,
    }
}

// What was made in the memory, or the line of its refusal.
fn put_made(made: Result<usize, Refusal>, out: &mut [u8]) -> usize
    ensures written { (o : Outcome (List ℕ)) (lent : List ℕ) → length lent ≡ reply_room
        → answer_of made ≡ answer o (length lent) → out.old ≡ leaves o lent
        → Replied lent out.new result (in_place reply_room o) }
{
    put_answer(out, numbered(made))
}

// A line of a name, which ends in a space or is empty, and a number.
fn put_counted(out: &mut [u8], name: &[u8], number: u64) -> usize
    ensures written { ◌≡◌ {A = Buf} (out.new, result)
        (puts (out.old, 0) (name.now ++ (number_text number ++ (10 ∷ [])))) }
{
    let mut to = Writer::new(out);
    to.put_bytes(name);
    to.put_number(number);
    to.put(b'\n');
    to.end()
}

// A standing.
fn put_standing(out: &mut [u8], j: Judged) -> usize
    ensures written { Replied out.old out.new result (standing_name (standing_in j) ++ (10 ∷ [])) }
{
    match j {
        Judged::Visible => put_bytes(out, 0, b"visible\n"),
        Judged::Shadowed(n) => put_counted(out, b"shadowed ", n as u64),
        Judged::Unreached => put_bytes(out, 0, b"unreached\n"),
    }
}

// Which row is more specific, and how far they agree.
fn put_comparison(out: &mut [u8], c: Compared) -> usize
    ensures written { Replied out.old out.new result (comparison_name (told_in c) ++ (10 ∷ [])) }
{
    match c {
        Compared::First(n) => put_counted(out, b"first ", n as u64),
        Compared::Second(n) => put_counted(out, b"second ", n as u64),
        Compared::Neither(n) => put_counted(out, b"neither ", n as u64),
    }
}

// The standing of a row for a query, or the refusal.
fn put_judged(text: &[u8], query: usize, row: &[u8], out: &mut [u8]) -> usize
    ensures written { Replied out.old out.new result (in_place reply_room (judge_line text.now query row.now)) }
{
    match judge_text(text, query, row, MOST_STEPS).answer {
        Ok(j) => put_standing(out, j),
        Err(r) => put_refused(out, r.number()),
    }
}

// Which of two rows is more specific, or the refusal.
fn put_compared(text: &[u8], a: &[u8], b: &[u8], out: &mut [u8]) -> usize
    ensures written { Replied out.old out.new result (in_place reply_room (compare_line text.now a.now b.now)) }
{
    match compare_text(text, a, b, MOST_STEPS, MOST_STEPS).answer {
        Ok(c) => put_comparison(out, c),
        Err(r) => put_refused(out, r.number()),
    }
}

// How many lawful beginnings a query has, or the refusal.
fn put_count(text: &[u8], query: usize, out: &mut [u8]) -> usize
    ensures written { Replied out.old out.new result (in_place reply_room (count_line text.now query)) }
{
    match count(text, query) {
        Ok(n) => put_counted(out, b"", n),
        Err(r) => put_refused(out, r.number()),
    }
}

// The file with its scopes numbered for storage, or its refusal.
fn put_renumbered(text: &[u8], out: &mut [u8]) -> usize
    requires room { length out.old ≡ reply_room }
    ensures written { Replied out.old out.new result (in_place reply_room (file_of (renumber_of text.now))) }
{
    let mut list = [0u8; LIST];
    put_made(file_answer(renumber(text, out, &mut list)), out)
}

// The list of the scopes' old numbers, or the file's refusal.
fn put_was(text: &[u8], out: &mut [u8]) -> usize
    requires room { length out.old ≡ reply_room }
    ensures written { Replied out.old out.new result (in_place reply_room (list_of (renumber_of text.now))) }
{
    let mut file = [0u8; ROOM];
    put_made(list_answer(renumber(text, &mut file, out)), out)
}

// The usage text: its first line, and one for each word.
fn put_usage(out: &mut [u8]) -> usize
    ensures written { Replied out.old out.new result usage_text }
{
    put_bytes(
        out,
        0,
        b"usage: gym WORD [ARGUMENT..] < FILE
  list              all listings, then the summary
  old               the file in the old form, without kinds
  new               the file in the form with kinds
  judge QUERY ROW   the standing of a path row such as '10 3P1' for query 0, 1, ..
  compare ROW ROW   which of two path rows is more specific, and how many steps agree
  rules EXPRESSION  the file with the path rules of an expression such as 'P*I*'
  count QUERY       how many lawful beginnings a query follows
  readers PLACE     the scopes that see a declaration, by its place among the rows
  renumber          the file with its scopes numbered for storage, neighbours near each other
  was               the list of the numbers that the scopes had before that
  back FILE         the file with the old numbers again, by the list in FILE
  dot               the scopes and edges in the DOT language, for Graphviz
  undot FILE        the file with the edges of the DOT text in FILE
  help              this text
",
    )
}

// Puts a reply to the front of the memory. A new word gets a line here.
pub fn put_reply(q: Reply, given: Given, out: &mut [u8]) -> usize
    requires room { length out.old ≡ reply_room }
    ensures written { Replied out.old out.new result (reply_said q given.entry).text }
{
    let text = given.text;
    match q {
        Reply::Old => put_made(to_old(text, out), out),
        Reply::New => put_made(to_new(text, out), out),
        Reply::Judge(query) => put_judged(text, query, given.second, out),
        Reply::Compare => put_compared(text, given.first, given.second, out),
        Reply::Rules => put_made(rules(text, given.first, out), out),
        Reply::Count(query) => put_count(text, query, out),
        Reply::Readers(place) => put_made(readers(text, place, out), out),
        Reply::Renumber => put_renumbered(text, out),
        Reply::Was => put_was(text, out),
        Reply::Back => put_made(back(text, given.more, out), out),
        Reply::Dot => put_made(dot(text, out), out),
        Reply::Undot => put_made(undot(text, given.more, out), out),
        Reply::Help | Reply::Usage => put_usage(out),
    }
}
