// The sets of a solved file as text, with the file's own names, written through a window to a buffer that the caller lends.
//
// A fresh variable is spelt out where it stands, so a text may be far longer than any buffer: of one text any window can be written, and
// where a window is full nothing more is spelt out.
#![tactic(auto)]

ghost use Rattle.std.specs.Prelude.{◌≡◌, ◌↔◌, IsTrue, cond, [], ◌+◌, ◌<◌, ◌≤◌, length};
ghost use Rattle.bounds.specs.Bounds.{max_atoms};
ghost use Rattle.el.specs.Table.{row_at, atoms};
ghost use Rattle.table.specs.Code.{kind_of};
ghost use Rattle.table.specs.Reading.{table_of, header_of};
ghost use Rattle.output.specs.Written.{set_in};
ghost use Rattle.text.specs.Listing.{atoms_in};
ghost use Rattle.owl.specs.Mention.{names_in};
ghost use Rattle.spell.specs.Penned.{Penned};
ghost use Rattle.spell.specs.Spelling.{variable_text, row_text, atom_text, set_text, variable_line, named_lines};
ghost use Rattle.spell.specs.Given.{span_text, Inside, Given};

use bounds::SetNumber;
use table::{Kind, Readable};

// How many bytes of the text are still to be passed over, and the first free byte of the buffer.
#[derive(Clone, Copy)]
pub struct Pen {
    pub skip: usize,
    pub at: usize,
}

// A buffer that is lent, and where the pen stands in it.
#[derive(Drop)]
pub struct Sheet<'a> {
    pub buffer: &'a mut [u8],
    pub pen: Pen,
}

impl Sheet<'_> {
    // A text, through the window.
    pub fn put(&mut self, text: &[u8])
        ensures { Penned self.old text.now self.new }
    {
        let passed = self.pen.skip.min(text.len());
        self.pen.at = text::put_text(&text[passed..], self.buffer, self.pen.at);
        self.pen.skip -= passed;
    }

    // A text, or none.
    fn put_if(&mut self, there: bool, text: &[u8])
        ensures { Penned self.old (cond there text.now []) self.new }
    {
        if there {
            self.put(text);
        }
    }

    // Is no room left?
    fn is_full(&self) -> bool
        ensures { IsTrue result ↔ length self.now.buffer.now ≤ self.now.pen.at }
    {
        self.buffer.len() <= self.pen.at
    }
}

// How many of the first n atoms the set has.
fn count_in(set: SetNumber, n: usize) -> usize
    requires { n ≤ max_atoms }
    ensures { result ≡ length (atoms_in n set) }
{
    (0..n).filter(|i| bounds::has_bit(set, *i)).count()
}

// Where a name stands in a text: the byte where it begins, and the one behind it.
#[derive(Clone, Copy)]
pub struct Span {
    pub from: usize,
    pub to: usize,
}

// What is written of: the text of a file, where the names of its constants, its open names and its roles stand in it, its table, and a set
// for each variable.
#[derive(Clone, Copy)]
pub struct SolvedFile<'a> {
    pub text: &'a [u8],
    pub constants: &'a [Span],
    pub opens: &'a [Span],
    pub roles: &'a [Span],
    pub table: Readable<'a>,
    pub output: &'a [u8],
    ghost given: { Given text.now constants.now opens.now roles.now table.bytes.now output.now },
}

impl SolvedFile<'_> {
    ghost use Rattle.spell.specs.Step.{file_names, file_table, spelt_out, code_text, FillerFits};

    // Name k of those whose places are given.
    fn put_name(&self, spans: &[Span], k: usize, sheet: &mut Sheet<'_>)
        requires { Inside self.now.text.now spans.now }
        ensures { Penned sheet.old (span_text self.now.text.now spans.now k) sheet.new }
    {
        if let Some(span) = spans.get(k) {
            sheet.put(&self.text[span.from..span.to]);
        }
    }

    // How many atoms there are.
    fn atoms(&self) -> usize
        ensures { (result ≡ atoms (table_of self.now.table.bytes.now)) × (result ≡ (header_of self.now.table.bytes.now).c + (header_of self.now.table.bytes.now).e) × (result ≤ max_atoms) }
    {
        let header = self.table.header();
        usize::from(header.c) + usize::from(header.e)
    }

    // A set: its atoms in rising number.
    #[cycle(put_set)]
    fn put_set(&self, set: SetNumber, depth: usize, sheet: &mut Sheet<'_>)
        ensures { Penned sheet.old (set_text (file_names self.now) (file_table self.now) (set_in self.now.output.now) depth set) sheet.new }
    {
        let mut later = false;
        for i in 0..self.atoms() {
            if bounds::has_bit(set, i) {
                sheet.put_if(later, b" & ");
                self.put_atom(i, depth, sheet);
                later = true;
            }
        }
        sheet.put_if(!later, b"owl:Thing");
    }

    // Atom i, as long as there is room.
    #[cycle(put_set)]
    fn put_atom(&self, i: usize, depth: usize, sheet: &mut Sheet<'_>)
        requires { i < (header_of self.now.table.bytes.now).c + (header_of self.now.table.bytes.now).e }
        ensures { Penned sheet.old (atom_text (file_names self.now) (file_table self.now) (spelt_out self.now depth) i) sheet.new }
    {
        if sheet.is_full() {
            return;
        }
        let constants = usize::from(self.table.header().c);
        if i < constants {
            self.put_name(self.constants, i, sheet);
        } else {
            self.put_row(i - constants, depth, sheet);
        }
    }

    // Restriction k: its role and its filler.
    #[cycle(put_set)]
    fn put_row(&self, k: usize, depth: usize, sheet: &mut Sheet<'_>)
        requires { k < (header_of self.now.table.bytes.now).e }
        ensures { Penned sheet.old (row_text (file_names self.now) (file_table self.now) (spelt_out self.now depth) (row_at (file_table self.now).rows k)) sheet.new }
    {
        sheet.put(b"ObjectSomeValuesFrom(");
        self.put_name(self.roles, usize::from(self.table.role_of(k)), sheet);
        sheet.put(b" ");
        self.put_filler(self.table.filler_of(k), depth, sheet);
        sheet.put(b")");
    }

    // A filler, by its code.
    #[cycle(put_set)]
    fn put_filler(&self, code: u8, depth: usize, sheet: &mut Sheet<'_>)
        requires { FillerFits self.now.table.bytes.now code }
        ensures { Penned sheet.old (code_text (file_names self.now) (file_table self.now) (spelt_out self.now depth) (kind_of code)) sheet.new }
    {
        match table::kind_of(code) {
            Kind::Top => sheet.put(b"owl:Thing"),
            Kind::Constant(k) => self.put_name(self.constants, usize::from(k), sheet),
            Kind::Variable(x) => self.put_variable(usize::from(x), depth, sheet),
            Kind::Restriction(_) | Kind::Other => {}
        }
    }

    // Variable x as a filler: its name, or its own atoms, in parentheses where there are several.
    #[cycle(put_set)]
    fn put_variable(&self, x: usize, depth: usize, sheet: &mut Sheet<'_>)
        requires { x < (header_of self.now.table.bytes.now).v }
        ensures { Penned sheet.old (variable_text (file_names self.now) (file_table self.now) (spelt_out self.now depth) x) sheet.new }
    {
        if x < self.opens.len() {
            self.put_name(self.opens, x, sheet);
        } else if depth == 0 {
            sheet.put(b"owl:Thing");
        } else {
            let set = output::set_in(self.output, x);
            let several = 1 < count_in(set, self.atoms());
            sheet.put_if(several, b"(");
            self.put_set(set, depth - 1, sheet);
            sheet.put_if(several, b")");
        }
    }

    // The line of variable x: its name and its atoms.
    fn put_line(&self, x: usize, sheet: &mut Sheet<'_>)
        requires { x < (header_of self.now.table.bytes.now).v }
        ensures { Penned sheet.old (variable_line (file_names self.now) (file_table self.now) (set_in self.now.output.now) x) sheet.new }
    {
        let depth = usize::from(self.table.header().v);
        self.put_name(self.opens, x, sheet);
        sheet.put(b": ");
        self.put_set(output::set_in(self.output, x), depth, sheet);
        sheet.put(b"\n");
    }

    // The lines of all named variables.
    pub fn put_lines(&self, sheet: &mut Sheet<'_>)
        ensures { Penned sheet.old (named_lines (names_in self.now.text.now) (table_of self.now.table.bytes.now) (set_in self.now.output.now)) sheet.new }
    {
        for x in 0..self.opens.len() {
            self.put_line(x, sheet);
        }
    }
}
