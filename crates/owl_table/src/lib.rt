// The rows of a text's table, appended to a lent buffer.
#![tactic(auto)]

ghost use Rattle.std.specs.Prelude.{◌≡◌, ◌≤◌, length};
ghost use Rattle.owl_name.specs.Walk.{written};
ghost use Rattle.owl_table.specs.Rows.{FillerCode, PutRow, PutRows};

use owl_line::Source;
use owl_name::{Name, Walk};
use owl_row::Filler;

// The code of the filler of the restriction whose role is the next token after a byte.
fn filler_code(source: Source<'_>, at: usize) -> u8
    requires { at ≤ length source.text.now }
    ensures { FillerCode source.entry.text.now source.entry.opens at result }
{
    match owl_row::filler_of(source.text, at) {
        Filler::Top => 0,
        Filler::Constant(number) => owl_line::code_of(0x20, number),
        Filler::Open(number) => owl_line::code_of(0x60, number),
        Filler::Fresh(number) => source.fresh_code(number),
    }
}

// The row of the restriction whose role is the next token after a byte. A buffer and a place in it stay two, as in `PutRow`.
fn put_row(source: Source<'_>, role: Name<'_>, at: usize, out: &mut [u8], from: usize) -> usize
    requires { at ≤ length source.text.now }
    ensures put { PutRow source.entry.text.now source.entry.opens at (written role.entry) out.old from out.new result }
    ensures room { length out.new ≡ length out.old }
{
    let number = owl_name::role_number(source.text, role);
    let end = text::put_byte(owl_line::code_of(0, number), out, from);
    text::put_byte(filler_code(source, at), out, end)
}

// All rows, equal ones once. A buffer and a place in it stay two: `PutRows` is of both.
pub fn put_rows(source: Source<'_>, out: &mut [u8], from: usize) -> usize
    ensures put { PutRows source.entry.text.now source.entry.opens out.old from out.new result }
    ensures room { length out.new ≡ length out.old }
{
    let mut end = from;
    for stop in Walk::new(source.text) {
        let Some(role) = stop.role() else {
            continue;
        };
        if owl_row::adds(source.text, &stop) {
            end = put_row(source, role, stop.at, out, end);
        }
    }
    end
}
