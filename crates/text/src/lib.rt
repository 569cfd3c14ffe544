// Answers as text, in a buffer that the caller lends: of a text that is longer than the room left, as much is written as fits.
#![tactic(auto)]

ghost use Rattle.std.specs.Prelude.{◌≡◌, cond, [], ◌∷◌, ◌+◌, ◌*◌, ◌≤◌, ◌<◌, length};
ghost use Rattle.el.specs.Table.{row_at};
ghost use Rattle.bounds.specs.Bounds.{set_bytes};
ghost use Rattle.table.specs.Code.{kind_of};
ghost use Rattle.table.specs.Reading.{table_of, header_of};
ghost use Rattle.text.specs.Append.{Appended};
ghost use Rattle.text.specs.Wrote.{Wrote};
ghost use Rattle.text.specs.Text.{digit, decimal, numbers_text, bytes_text, hex_text, answer_text};
ghost use Rattle.output.specs.Written.{set_in};
ghost use Rattle.text.specs.Listing.{code_text, row_text, atom_text, set_text, variable_line, solved_text, listing_text};
ghost use Rattle.text.specs.Batch.{read_text, line_text, solve_text};

use answer::Handed;
use bounds::SetNumber;
use table::{Kind, Readable};

// The longest listing: three numbers of at most 20 digits, and for each variable a line with at most 10 characters an atom and 9 others.
pub const LISTING_ROOM: usize = 3 * 21 + 1 + bounds::MAX_VARIABLES * (10 * bounds::MAX_ATOMS + 9);

// A text from the byte `at` on, as much of it as there is room for. Returns the next free byte. Buffer and place are two values here, since the
// promises of the crates above are of a buffer and a place.
pub fn put_text(text: &[u8], buffer: &mut [u8], at: usize) -> usize
    ensures { Appended buffer.old at text.now buffer.new result }
{
    if buffer.len() <= at {
        return at;
    }
    let n = text.len().min(buffer.len() - at);
    buffer[at..at + n].copy_from_slice(&text[..n]);
    at + n
}

// One byte, in the same way.
pub fn put_byte(byte: u8, buffer: &mut [u8], at: usize) -> usize
    ensures { Appended buffer.old at (byte ∷ []) buffer.new result }
{
    put_text(&[byte], buffer, at)
}

// The character of a digit below 16.
fn digit_of(d: u8) -> u8
    requires { d < 16 }
    ensures { result ≡ digit d }
{
    if d < 10 { b'0' + d } else { b'a' + (d - 10) }
}

// A buffer that is lent, and its first free byte.
#[derive(Drop)]
struct Writer<'a> {
    buffer: &'a mut [u8],
    at: usize,
}

impl Writer<'_> {
    fn put_byte(&mut self, byte: u8)
        ensures { Wrote self.old (byte ∷ []) self.new }
    {
        self.at = put_byte(byte, self.buffer, self.at);
    }

    fn put_text(&mut self, text: &[u8])
        ensures { Wrote self.old text.now self.new }
    {
        self.at = put_text(text, self.buffer, self.at);
    }

    // A text, or none.
    fn put_if(&mut self, there: bool, text: &[u8])
        ensures { Wrote self.old (cond there text.now []) self.new }
    {
        if there {
            self.put_text(text);
        }
    }

    // A number in decimal: its last digit behind the others.
    fn put_decimal(&mut self, n: usize)
        ensures { Wrote self.old (decimal n) self.new }
    {
        let longer = 10 <= n;
        if longer {
            self.put_decimal(n / 10);
        }
        self.put_byte(digit_of((n % 10) as u8));
    }

    // Numbers with single spaces.
    fn put_numbers(&mut self, numbers: &[usize])
        ensures { Wrote self.old (numbers_text numbers.now) self.new }
    {
        for (i, n) in numbers.iter().enumerate() {
            self.put_if(0 < i, b" ");
            self.put_decimal(*n);
        }
    }

    // The bytes of a slice in hexadecimal.
    fn put_bytes(&mut self, bytes: &[u8])
        ensures { Wrote self.old (bytes_text bytes.now) self.new }
    {
        for b in bytes {
            self.put_byte(digit_of(*b / 16));
            self.put_byte(digit_of(*b % 16));
        }
    }

    // The same, or `-` for none.
    fn put_hex(&mut self, bytes: &[u8])
        ensures { Wrote self.old (hex_text bytes.now) self.new }
    {
        if bytes.is_empty() {
            self.put_byte(b'-');
        } else {
            self.put_bytes(bytes);
        }
    }

    // A letter and a number.
    fn put_named(&mut self, letter: u8, n: usize)
        ensures { Wrote self.old (letter ∷ decimal n) self.new }
    {
        self.put_byte(letter);
        self.put_decimal(n);
    }

    // A filler, by its code.
    fn put_filler(&mut self, code: u8)
        ensures { Wrote self.old (code_text (kind_of code)) self.new }
    {
        match table::kind_of(code) {
            Kind::Top => self.put_text(b"top"),
            Kind::Constant(k) => self.put_named(b'c', usize::from(k)),
            Kind::Variable(k) => self.put_named(b'v', usize::from(k)),
            Kind::Restriction(_) | Kind::Other => {}
        }
    }

    // Restriction k: its role and its filler.
    fn put_row(&mut self, table: Readable<'_>, k: usize)
        requires { k < (header_of table.bytes.now).e }
        ensures { Wrote self.old (row_text (row_at (table_of table.entry.bytes.now).rows k)) self.new }
    {
        let role = usize::from(table.role_of(k));
        self.put_named(b'r', role);
        self.put_byte(b'.');
        self.put_filler(table.filler_of(k));
    }

    // Atom i.
    fn put_atom(&mut self, table: Readable<'_>, i: usize)
        requires { i < (header_of table.bytes.now).c + (header_of table.bytes.now).e }
        ensures { Wrote self.old (atom_text (table_of table.entry.bytes.now) i) self.new }
    {
        let constants = usize::from(table.header().c);
        if i < constants {
            self.put_named(b'c', i);
        } else {
            self.put_row(table, i - constants);
        }
    }

    // A set: its atoms in rising number.
    fn put_set(&mut self, table: Readable<'_>, set: SetNumber)
        ensures { Wrote self.old (set_text (table_of table.entry.bytes.now) set) self.new }
    {
        let header = table.header();
        let atoms = usize::from(header.c) + usize::from(header.e);
        let mut later = false;
        for i in 0..atoms {
            if bounds::has_bit(set, i) {
                self.put_if(later, b" & ");
                self.put_atom(table, i);
                later = true;
            }
        }
        self.put_if(!later, b"top");
    }

    // The line of variable x.
    fn put_variable(&mut self, table: Readable<'_>, output: &[u8], x: usize)
        requires { set_bytes * x + set_bytes ≤ length output.now }
        ensures { Wrote self.old (variable_line (table_of table.entry.bytes.now) (set_in output.now x) x) self.new }
    {
        self.put_named(b'v', x);
        self.put_text(b": ");
        self.put_set(table, output::set_in(output, x));
        self.put_byte(b'\n');
    }

    // The lines of all variables, where the table is readable and the output holds a set for each.
    fn put_solved(&mut self, table: &[u8], output: &[u8])
        ensures { Wrote self.old (solved_text (table_of table.now) output.now) self.new }
    {
        let Ok(table) = table::check(table) else {
            return;
        };
        let n = usize::from(table.header().v);
        if bounds::SET_BYTES * n <= output.len() {
            for x in 0..n {
                self.put_variable(table, output, x);
            }
        }
    }

    // Number, count and place, with single spaces.
    fn put_answer(&mut self, a: Handed)
        ensures { Wrote self.old (answer_text a) self.new }
    {
        self.put_numbers(&[a.number as usize, a.count as usize, a.place]);
    }
}

// The text of the solver's answer, at the start of the buffer: the first line, and for "solved" a line per variable. Returns how many
// bytes were written: the whole text, or where it is longer than the buffer as much as fits.
pub fn listing(table: &[u8], a: Handed, output: &[u8], buffer: &mut [u8]) -> usize
    ensures { Appended buffer.old 0 (listing_text table.now a output.now) buffer.new result }
{
    let mut writer = Writer { buffer, at: 0 };
    writer.put_answer(a);
    writer.put_byte(b'\n');
    if a.number == 0 {
        writer.put_solved(table, output);
    }
    writer.at
}

// Numbers as a line: the reader's answer is number, place and the counts.
pub fn read_line(numbers: &[usize], buffer: &mut [u8]) -> usize
    ensures { Appended buffer.old 0 (read_text numbers.now) buffer.new result }
{
    let mut writer = Writer { buffer, at: 0 };
    writer.put_numbers(numbers);
    writer.put_byte(b'\n');
    writer.at
}

// A part of a table as a line.
pub fn hex_line(part: &[u8], buffer: &mut [u8]) -> usize
    ensures { Appended buffer.old 0 (line_text part.now) buffer.new result }
{
    let mut writer = Writer { buffer, at: 0 };
    writer.put_hex(part);
    writer.put_byte(b'\n');
    writer.at
}

// The solver's answer as a line, with the output.
pub fn solve_line(a: Handed, output: &[u8], buffer: &mut [u8]) -> usize
    ensures { Appended buffer.old 0 (solve_text a output.now) buffer.new result }
{
    let mut writer = Writer { buffer, at: 0 };
    writer.put_answer(a);
    writer.put_byte(b' ');
    writer.put_hex(output);
    writer.put_byte(b'\n');
    writer.at
}
