// The call that reads an OWL text: the table of the text goes to a lent buffer.
#![tactic(auto)]

ghost use Rattle.std.specs.Prelude.{◌≡◌, ◌≤◌, length};
ghost use Rattle.owl.specs.Mention.{names_in};
ghost use Rattle.owl_name.specs.Declarations.{group_number, group_names};
ghost use Rattle.text.specs.Append.{Appended};
ghost use Rattle.owl_make.specs.Lines.{opens_in};
ghost use Rattle.owl_answer.specs.Owl.{owl, OwlAt};
ghost use Rattle.owl_call.specs.Call.{Within, Counted, CountsAre, LinesIn, PutTable, refusal_number, refusal_place, answer_of, TableMade};

mod parts;

use owl_line::{Passed, Source};
use owl_name::Group;
pub use parts::Totals;

// A number, where it is no more than a bound.
fn within(n: usize, most: usize) -> Option<usize>
    ensures { Within most n result }
{
    (n <= most).then_some(n)
}

// How many names of a group there are, where they are no more than a bound.
fn names(s: &[u8], group: Group, most: usize) -> Option<usize>
    ensures { Within most (length (group_names (names_in s.now) (group_number group))) result }
{
    within(owl_name::up_to(s, group, most), most)
}

// Names are counted first, and no further than their bounds.
fn counts(s: &[u8]) -> Option<Totals>
    ensures { CountsAre s.now result }
{
    let constants = names(s, Group::Constants, bounds::MAX_CONSTANTS)?;
    let roles = names(s, Group::Roles, bounds::MAX_ROLES)?;
    let opens = names(s, Group::Opens, bounds::MAX_VARIABLES)?;
    let fresh = within(owl_row::fresh(s), bounds::MAX_VARIABLES - opens)?;
    let rows = within(
        owl_row::rows(s),
        bounds::MAX_RESTRICTIONS.min(bounds::MAX_ATOMS - constants),
    )?;
    Some(Totals {
        constants,
        roles,
        opens,
        variables: opens + fresh,
        rows,
    })
}

// Why a text has no table in the buffer.
#[derive(Clone, Copy)]
enum Refusal {
    // A token spoils the text.
    Spoiled(owl_text::Refusal),
    // A name is used that is not declared: the byte where it stands.
    Undeclared(usize),
    // A bound is passed.
    OverBound,
    // The buffer is too short: how many bytes the table has.
    Short(usize),
}

impl From<owl_text::Refusal> for Refusal {
    ghost use Rattle.owl_call.specs.declared.Refusal.TheVariants.{Spoiled};

    ghost from_gives = { λ why e. e ≡ Spoiled why };

    fn from(why: owl_text::Refusal) -> Refusal {
        Refusal::Spoiled(why)
    }
}

impl Refusal {
    fn number(self) -> u32
        ensures { result ≡ refusal_number self }
    {
        match self {
            Refusal::Spoiled(why) => why.reason as u32,
            Refusal::Undeclared(_) => 11,
            Refusal::OverBound => 12,
            Refusal::Short(_) => 17,
        }
    }

    fn place(self) -> usize
        ensures { result ≡ refusal_place self }
    {
        match self {
            Refusal::Spoiled(why) => why.place,
            Refusal::Undeclared(at) => at,
            Refusal::OverBound => 0,
            Refusal::Short(long) => long,
        }
    }
}

// The answer to a text: 0, and how long its table is; or the number and the place of a refusal. Numbers, since `OwlAt` and the call for C
// speak of them.
#[derive(Clone, Copy)]
pub struct Answered {
    pub number: u32,
    pub count: usize,
    pub place: usize,
}

// The bytes that lines have at most.
const LINES_ROOM: usize = (bounds::MAX_LEFT + 2) * bounds::MAX_LINES;

// Lines behind the rows, byte by byte: a copy whose length is not known would need `memcpy` from outside the library for C.
fn put_lines(lines: &[u8], out: &mut [u8], from: usize) -> usize
    ensures { Appended out.old from lines.now out.new result }
{
    let mut end = from;
    for b in lines {
        end = text::put_byte(*b, out, end);
    }
    end
}

// A whole table: header (the mark, the version, the counts), rows and lines.
fn put_table(source: Source<'_>, t: Totals, passed: Passed, lines: &[u8], out: &mut [u8]) -> usize
    ensures table { PutTable source.entry.text.now source.entry.opens t passed.lines lines.now out.old out.new result }
    ensures room { length out.new ≡ length out.old }
{
    let header = [
        b'V',
        b'O',
        b'C',
        1,
        0,
        t.constants as u8,
        t.roles as u8,
        t.variables as u8,
        t.rows as u8,
        passed.lines as u8,
    ];
    let rows = text::put_text(&header, out, 0);
    let from = owl_table::put_rows(source, out, rows);
    put_lines(lines, out, from)
}

// The table of a text that says a file and whose counts are within their bounds, where its lines were passed.
fn finish(
    source: Source<'_>,
    t: Totals,
    passed: Passed,
    lines: &[u8],
    out: &mut [u8],
) -> Result<usize, Refusal>
    requires opens { source.opens ≡ opens_in source.text.now }
    requires counted { Counted source.text.now t }
    requires lines { LinesIn source.text.now passed lines.now }
    ensures { TableMade source.entry.text.now out.old out.new result }
{
    let end = passed.end.min(lines.len());
    let long = table::HEADER + 2 * t.rows + end;
    if out.len() < long {
        return Err(Refusal::Short(long));
    }
    put_table(source, t, passed, &lines[..end], out);
    Ok(long)
}

// The answer to a text that says a file whose names are declared.
fn made(text: &[u8], out: &mut [u8]) -> Result<usize, Refusal>
    ensures { TableMade text.now out.old out.new result }
{
    let t = counts(text).ok_or(Refusal::OverBound)?;
    let source = Source {
        text,
        opens: t.opens,
    };
    let mut lines = [0u8; LINES_ROOM];
    let passed = owl_make::lines(source, &mut lines).ok_or(Refusal::OverBound)?;
    finish(source, t, passed, &lines, out)
}

// How long the table of a text is, which goes to the buffer.
fn read(text: &[u8], out: &mut [u8]) -> Result<usize, Refusal>
    ensures { OwlAt text.now out.old (answer_of result out.new) }
{
    owl_text::check(text)?;
    let first = owl_name::first_undeclared(text);
    if first != text.len() {
        return Err(Refusal::Undeclared(first));
    }
    made(text, out)
}

// Reads an OWL text: its table goes to the buffer.
pub fn owl(text: &[u8], out: &mut [u8]) -> Answered
    ensures { OwlAt text.now out.old (owl result.number result.count result.place out.new) }
{
    match read(text, out) {
        Ok(count) => Answered {
            number: 0,
            count,
            place: 0,
        },
        Err(why) => Answered {
            number: why.number(),
            count: 0,
            place: why.place(),
        },
    }
}
