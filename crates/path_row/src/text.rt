// The two parts of a path row's text. A listing's rows are put together from them too.
ghost use Rattle.text_field.specs.Writing.{Wrote};
ghost use Rattle.path_row.specs.Form.{step_text, front_text};

use text_field::Writer;

// What stands before a row's steps: its mark, a space, its start.
pub fn put_front(to: &mut Writer, mark: u64, start: u64)
    ensures wrote { Wrote to.old to.new (front_text mark start) }
{
    to.put_number(mark);
    to.put(b' ');
    to.put_number(start);
}

// A step: its label's letter, then the scope that it comes to.
pub fn put_step(to: &mut Writer, label: u8, scope: u64)
    ensures wrote { Wrote to.old to.new (step_text label scope) }
{
    to.put(label);
    to.put_number(scope);
}
