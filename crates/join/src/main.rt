// Reads an OWL file from standard input, joins what it says and writes the answer as text.
//
// The text is written in windows, one after the other: a fresh variable is spelt out where it stands, so the text may be longer than any buffer.
#![tactic(auto)]

ghost use Rattle.std.specs.Prelude.{◌≡◌, ◌*◌, ◌≤◌, length, take, IfOk, OnErr, IfSome};
ghost use Rattle.std.specs.Io.KnownBytes.{Appends};
ghost use Rattle.std.specs.Counts.{IsPrefixLen};
ghost use Rattle.input.specs.Part.{AppendsPart};
ghost use Rattle.bounds.specs.Bounds.{set_bytes, max_variables};
ghost use Rattle.table.specs.Reading.{table_of};
ghost use Rattle.output.specs.Written.{set_in};
ghost use Rattle.owl.specs.Mention.{names_in};
ghost use Rattle.spell.specs.Window.{window};
ghost use Rattle.spell.specs.Given.{Given};
ghost use Rattle.spell.specs.Penned.{Penned};
ghost use Rattle.spell.specs.Spelling.{named_lines};
ghost use Rattle.join.specs.Join.{numbers_line, join_text};
ghost use Rattle.join.specs.Part.{Prepared, Solved};

use bounds::Count;
use owl_name::Group;
use spell::{Pen, Sheet, SolvedFile, Span};
use std::io;
use std::io::{Read, Write};
use table::Readable;

// The most bytes of a file.
const MOST: usize = 65536;

const BUDGET: Count = 1_000_000;

// Three numbers of at most 20 digits, with what stands behind each.
const LINE: usize = 3 * 21 + 1;

const WINDOW: usize = 65536;

// A place in a text, before it is known.
const NOWHERE: Span = Span { from: 0, to: 0 };

// Where one more window would pass the last number there is.
const LAST: usize = usize::MAX - WINDOW;

// The lines of the named variables of a solved file, where the places of its names are known. All is borrowed for one lifetime, as the value that
// holds it asks.
fn put_given<'a>(
    text: &'a [u8],
    constants: &'a [Span],
    opens: &'a [Span],
    roles: &'a [Span],
    table: &'a [u8],
    output: &'a [u8],
    sheet: &mut Sheet<'_>,
)
    requires { Given text.now constants.now opens.now roles.now table.now output.now }
    ensures { Penned sheet.old (named_lines (names_in text.now) (table_of table.now) (set_in output.now)) sheet.new }
{
    let readable = Readable { bytes: table };
    let solved = SolvedFile {
        text,
        constants,
        opens,
        roles,
        table: readable,
        output,
    };
    solved.put_lines(sheet);
}

// The lines of the named variables of a solved file.
fn put_named(file: &[u8], table: &[u8], output: &[u8], sheet: &mut Sheet<'_>)
    requires { Solved file.now table.now × (set_bytes * max_variables ≤ length output.now) }
    ensures { Penned sheet.old (named_lines (names_in file.now) (table_of table.now) (set_in output.now)) sheet.new }
{
    let mut constants = [NOWHERE; bounds::MAX_CONSTANTS];
    let mut opens = [NOWHERE; bounds::MAX_VARIABLES];
    let mut roles = [NOWHERE; bounds::MAX_ROLES];
    let c = owl_span::spans(file, Group::Constants, &mut constants);
    let o = owl_span::spans(file, Group::Opens, &mut opens);
    let r = owl_span::spans(file, Group::Roles, &mut roles);
    put_given(
        file,
        &constants[..c],
        &opens[..o],
        &roles[..r],
        table,
        output,
        sheet,
    );
}

// Number, count and place.
fn put_first(number: usize, count: usize, place: usize, sheet: &mut Sheet<'_>)
    ensures { Penned sheet.old (numbers_line number count place) sheet.new }
{
    let mut line = [0; LINE];
    let n = text::read_line(&[number, count, place], &mut line);
    sheet.put(&line[..n]);
}

// What comes of a file: the answer's number, count and place, the table that was solved, and the output.
#[derive(Clone, Copy)]
struct Joined<'a> {
    file: &'a [u8],
    table: &'a [u8],
    output: &'a [u8],
    number: usize,
    count: usize,
    place: usize,
    ghost room: { set_bytes * max_variables ≤ length output.now },
}

impl Joined<'_> {
    // The window of the text that begins at the byte `from`, at the start of the buffer. Returns how many bytes it has: as many as the buffer,
    // but for the last window.
    fn part(&self, from: usize, buffer: &mut [u8]) -> usize
        requires { Prepared self.now.file.now self.now.table.now self.now.output.now self.now.number self.now.count self.now.place }
        ensures prefix_len { IsPrefixLen result buffer.new }
        ensures buffer_after { take result buffer.new ≡ window from (length buffer.old) (join_text self.now.file.now) }
    {
        let mut sheet = Sheet {
            buffer,
            pen: Pen { skip: from, at: 0 },
        };
        if MOST < self.file.len() {
            sheet.put(b"The file is too long: it may have 65536 bytes at most.\n");
            return sheet.pen.at;
        }
        put_first(self.number, self.count, self.place, &mut sheet);
        if self.number != 0 {
            return sheet.pen.at;
        }
        put_named(self.file, self.table, self.output, &mut sheet);
        sheet.pen.at
    }

    // Writes the text, window after window, until it ends or a write fails; returns how many bytes it has, unless it is longer than any number. A
    // write that fails leaves a beginning of the text.
    fn write_to<W: Write>(&self, to: &mut W) -> io::Result<Option<usize>>
        requires { Prepared self.now.file.now self.now.table.now self.now.output.now self.now.number self.now.count self.now.place }
        ensures bytes { IfOk result (λ whole. IfSome whole (λ n. n ≡ length (join_text self.now.file.now))) }
        ensures text { IfOk result (λ whole. IfSome whole (λ n. Appends (W.contents to.old) (W.contents to.new) (join_text self.now.file.now))) }
        ensures err { OnErr result (AppendsPart (W.contents to.old) (W.contents to.new) (join_text self.now.file.now)) }
    {
        let mut buffer = [0; WINDOW];
        let mut from = 0;
        while from <= LAST {
            let n = self.part(from, &mut buffer);
            input::write_full(to, &buffer[..n])?;
            from += n;
            if n < WINDOW {
                return Ok(Some(from));
            }
        }
        Ok(None)
    }
}

// Joins a file and writes its text.
fn write_joined<W: Write>(to: &mut W, file: &[u8]) -> io::Result<Option<usize>>
    ensures bytes { IfOk result (λ whole. IfSome whole (λ n. n ≡ length (join_text file.now))) }
    ensures text { IfOk result (λ whole. IfSome whole (λ n. Appends (W.contents to.old) (W.contents to.new) (join_text file.now))) }
    ensures err { OnErr result (AppendsPart (W.contents to.old) (W.contents to.new) (join_text file.now)) }
{
    let mut table = [0; table::LONGEST];
    let mut output = [0; output::ROOM];
    if MOST < file.len() {
        let long = Joined {
            file,
            table: &table[..0],
            output: &output,
            number: 0,
            count: 0,
            place: 0,
        };
        return long.write_to(to);
    }
    let made = owl_call::owl(file, &mut table);
    if made.number != 0 {
        let refused = Joined {
            file,
            table: &table[..0],
            output: &output,
            number: made.number as usize,
            count: made.count,
            place: made.place,
        };
        return refused.write_to(to);
    }
    let a = makrothel::solve(&table[..made.count], BUDGET, &mut output);
    let answered = Joined {
        file,
        table: &table[..made.count],
        output: &output,
        number: a.number as usize,
        count: a.count as usize,
        place: a.place,
    };
    answered.write_to(to)
}

// Joins the file that is read, and writes its text. Where a read fails, none of it is written.
fn run<R: Read, W: Write>(from: &mut R, to: &mut W) -> io::Result<Option<usize>>
    ensures bytes { IfOk result (λ whole. IfSome whole (λ n. IfSome (R.remaining from.old) (λ xs. n ≡ length (join_text xs)))) }
    ensures text { IfOk result (λ whole. IfSome whole (λ n. IfSome (R.remaining from.old) (λ xs. Appends (W.contents to.old) (W.contents to.new) (join_text xs)))) }
    ensures err { OnErr result (IfSome (R.remaining from.old) (λ xs. AppendsPart (W.contents to.old) (W.contents to.new) (join_text xs))) }
{
    let mut file = [0; MOST + 1];
    let n = input::read_full(from, &mut file)?;
    write_joined(to, &file[..n])
}

fn main(rt: HostRuntime) -> io::Result<()> {
    run(&mut rt.stdin(), &mut rt.stdout())?;
    Ok(())
}
