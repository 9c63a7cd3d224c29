// What the words of a command ask for.
ghost use Rattle.std.specs.Prelude.{◌≡◌, List, ℕ};
ghost use Rattle.gym.specs.Words.{Asked, by_query, later_words, last_words, asked_of, asked};
ghost use Rattle.gym.specs.Handed.{arguments, handed, queried, with_so_many, meaning};

use text_field::read_number;

// What is answered by one text. `Judge` and `Count` hold the query's number, `Readers` the
// declaration's place; rows and the expression stay where they are, the judged row in the second
// argument. `Back` and `Undot` have a second file, which their argument names.
#[derive(Clone, Copy)]
pub enum Reply {
    Old,
    New,
    Judge(usize),
    Compare,
    Rules,
    Count(usize),
    Readers(usize),
    Renumber,
    Was,
    Back,
    Dot,
    Undot,
    Help,
    Usage,
}

// A command: the listings, which are handed over in parts, or a reply. (No Option: listings are no
// absence of a reply.)
#[derive(Clone, Copy)]
pub enum Command {
    Listings,
    One(Reply),
}

// A command with as many arguments as it wants; with more or fewer, the usage text.
fn given(count: usize, wanted: usize, c: Command) -> Command
    ensures answer { (a b : List ℕ) → meaning result a b ≡ with_so_many count wanted (meaning c a b) }
{
    if count != wanted {
        return Command::One(Reply::Usage);
    }
    c
}

// A query's number and nothing behind it. A place among the declaration rows is read as that is.
fn query_of(first: &[u8]) -> Option<usize>
    ensures answer { (x : ℕ → Asked) → queried x result ≡ by_query x first.now }
{
    let (query, end) = read_number(first, 0)?;
    if end != first.len() {
        return None;
    }
    Some(query as usize)
}

// What a word behind `readers` asks for, given so many arguments. A new word gets its line here.
fn last_command(count: usize, name: &[u8]) -> Command
    ensures answer { (a b : List ℕ) → meaning result a b ≡ asked_of last_words name.now (arguments count a b) }
{
    if name == b"renumber".as_slice() {
        return given(count, 0, Command::One(Reply::Renumber));
    }
    if name == b"was".as_slice() {
        return given(count, 0, Command::One(Reply::Was));
    }
    if name == b"back".as_slice() {
        return given(count, 1, Command::One(Reply::Back));
    }
    if name == b"dot".as_slice() {
        return given(count, 0, Command::One(Reply::Dot));
    }
    if name == b"undot".as_slice() {
        return given(count, 1, Command::One(Reply::Undot));
    }
    if name == b"help".as_slice() {
        return given(count, 0, Command::One(Reply::Help));
    }
    Command::One(Reply::Usage)
}

// What a word behind `compare` asks for, given so many arguments.
fn later_command(count: usize, name: &[u8], first: &[u8]) -> Command
    ensures answer { (b : List ℕ) → meaning result first.now b ≡ asked_of later_words name.now (arguments count first.now b) }
{
    if name == b"rules".as_slice() {
        return given(count, 1, Command::One(Reply::Rules));
    }
    if name == b"count".as_slice() {
        let reply = query_of(first).map_or(Reply::Usage, Reply::Count);
        return given(count, 1, Command::One(reply));
    }
    if name == b"readers".as_slice() {
        let reply = query_of(first).map_or(Reply::Usage, Reply::Readers);
        return given(count, 1, Command::One(reply));
    }
    last_command(count, name)
}

// What so many words ask for, of which the name and the first argument are given. The words are
// looked for one by one: a `match` on byte strings would have a proof for each byte at which a name
// may differ.
pub fn command_of(count: usize, name: &[u8], first: &[u8]) -> Command
    ensures answer { (b : List ℕ) → meaning result first.now b ≡ asked (handed count name.now first.now b) }
{
    if count == 0 {
        return Command::One(Reply::Usage);
    }
    if name == b"list".as_slice() {
        return given(count - 1, 0, Command::Listings);
    }
    if name == b"old".as_slice() {
        return given(count - 1, 0, Command::One(Reply::Old));
    }
    if name == b"new".as_slice() {
        return given(count - 1, 0, Command::One(Reply::New));
    }
    if name == b"judge".as_slice() {
        let reply = query_of(first).map_or(Reply::Usage, Reply::Judge);
        return given(count - 1, 2, Command::One(reply));
    }
    if name == b"compare".as_slice() {
        return given(count - 1, 2, Command::One(Reply::Compare));
    }
    later_command(count - 1, name, first)
}
