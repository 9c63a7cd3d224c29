// The items of a row's line, by the codes that stand for them in the format.
ghost use Rattle.std.specs.Prelude.{◌≡◌, ◌%◌};
ghost use Rattle.graph_rows.specs.Table.{content_of, item_of, content_meaning, item_meaning};

// What a field of a row holds (specs/Format says what each is). A plain kind has no text.
#[derive(Clone, Copy, PartialEq, Eq)]
pub enum Content {
    State,
    Scope,
    Mark,
    Count,
    Letter,
    Label,
    End,
    Name,
    Kind,
    PlainKind,
    Turn,
}

impl Content {
    // The content of a number; a larger one is a turn's.
    #[tactic(auto, unfolding(crate::specs::Table::content_of, crate::specs::Table::content_meaning))]
    pub fn of(x: u8) -> Content
        ensures answer { content_meaning result ≡ content_of x }
    {
        match x {
            0 => Content::State,
            1 => Content::Scope,
            2 => Content::Mark,
            3 => Content::Count,
            4 => Content::Letter,
            5 => Content::Label,
            6 => Content::End,
            7 => Content::Name,
            8 => Content::Kind,
            9 => Content::PlainKind,
            _ => Content::Turn,
        }
    }
}

// The place in the row that a code tells: a field's, or one of a key, which stands there as a digit.
pub fn place_in(x: u8) -> u8
    ensures answer { result ≡ x % 8 }
{
    x % 8
}

// A byte that stands in the line as it is, or a field and the place of its value in the row.
#[derive(Clone, Copy, PartialEq, Eq)]
pub enum Item {
    Byte(u8),
    Field(Content, u8),
}

impl Item {
    // The item of a code. A byte stands for itself; from 128 on a code is a field's: 128, eight times
    // its content's number, and its place.
    #[tactic(auto, unfolding(crate::specs::Table::item_of, crate::specs::Table::item_meaning))]
    pub fn of(x: u8) -> Item
        ensures answer { item_meaning result ≡ item_of x }
    {
        if x < 128 {
            return Item::Byte(x);
        }
        Item::Field(Content::of((x - 128) / 8), place_in(x))
    }
}
