// A text put into a form of file.
use crate::answered::{unwritten, written};
use crate::lent::{BYTE, BYTES, front, part};
use crate::say;
use conversion::{to_new, to_old};
use graph_table::Form;
use text_field::Refusal;

// A text put into a form.
fn put_into(form: Form, text: &[u8], out: &mut [u8]) -> Result<usize, Refusal> {
    match form {
        Form::Old => to_old(text, out),
        Form::Kinds => to_new(text, out),
    }
}

fn other(form: Form) -> Form {
    match form {
        Form::Old => Form::Kinds,
        Form::Kinds => Form::Old,
    }
}

// Does a text in a form give this very text, in a buffer of its length? No gym file is longer than
// the buffer here.
fn gives(form: Form, text: &[u8], due: &[u8]) -> bool {
    let mut again = [0u8; 32768];
    let a = put_into(form, text, front(&mut again, due.len()));
    let Ok(n) = a else {
        return false;
    };
    check::same(part(&again, 0, n), due)
}

// What came out is the text itself, or it goes back to it.
fn back(form: Form, text: &[u8], made: &[u8]) {
    if check::same(made, text) {
        return say::word(b", as it was\n");
    }
    say::back(gives(other(form), made, text))
}

// What came out of a text, and what the lent bytes hold.
fn converted(a: Result<usize, Refusal>, form: Form, text: &[u8], lent: &[u8]) {
    match a {
        Ok(n) => {
            written(b"converted", n, lent);
            back(form, text, part(lent, 0, n));
        }
        Err(k) => unwritten(k, lent),
    }
}

// A text put into a form in a lent buffer of `room` bytes, and back.
pub fn converting(form: Form, text: &[u8], room: usize) {
    let mut out = [BYTE; BYTES];
    let a = put_into(form, text, front(&mut out, room));
    converted(a, form, text, part(&out, 0, room));
}
