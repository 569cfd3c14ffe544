// What the bytes say: the codes and the reader.
//
// A table is read in byte order: its header, its role rows, its rows, its lines, and nothing after them. Each reader answers the place
// after what it read, or the refusal, and rows and lines are read under the header that is handed to them. The crates above ask for a
// table's counts, for the two roles of a role row, for the role and the filler of a row, and for the byte where a line begins; roles, order,
// node, level and walk know neither where these stand nor of which version a table is.
#![tactic(auto)]

ghost use Rattle.std.specs.Prelude.{◌≡◌, Bool, ℕ, ◌≤◌, ◌<◌, T, length, get_or, Result, IfOk, IfErr};
ghost use Rattle.table.specs.Code.{kind_of, role_of, filler_of, entry_of};
ghost use Rattle.bounds.specs.Bounds.{bounds};
ghost use Rattle.table.specs.Reading.{header_length, has_role_rows, header_end, role_count, rows_at, marked, version_known, header_of, read_counts, read_header, read_role, read_filler, read_entry, read_role_row, read_role_rows, read_row, read_rows, read_entries, read_line, read_lines, read_body, refusal, reading, table_of, is_readable};
ghost use Rattle.answer.specs.declared.Answer.{Answer};
ghost use Rattle.answer.specs.declared.Answer.TheVariants.{OverBound};
ghost use Rattle.table.specs.Step.{is_some, step_of, step_code, steps, verdict_of, verdict_in};
ghost use Rattle.el.specs.Table.{constant, row_at};
ghost use Rattle.table.specs.Layout.{role_row_at, line_start, IsRowFiller, IsEntryCode, LineBegins, AtLine};

use answer::Answer;
use bounds::{
    MAX_ATOMS, MAX_CONSTANTS, MAX_LEFT, MAX_LINES, MAX_RESTRICTIONS, MAX_ROLE_ROWS, MAX_ROLES,
    MAX_VARIABLES,
};

// The bytes that hold the version and the counts, and the length of a header without its count of role rows.
pub const VERSION: usize = 3;

pub const CONSTANTS: usize = 5;

pub const ROLES: usize = 6;

pub const VARIABLES: usize = 7;

pub const RESTRICTIONS: usize = 8;

pub const LINES: usize = 9;

pub const HEADER: usize = 10;

pub const ROLE_ROWS: usize = 10;

// How many bytes the longest readable table has.
pub const LONGEST: usize = HEADER
    + 1
    + 2 * MAX_ROLE_ROWS
    + 2 * MAX_RESTRICTIONS
    + MAX_LINES * (MAX_LEFT + 2);

// The version and the counts of a table: constants c, roles r, variables v, restrictions e, lines m, role rows q.
#[derive(Clone, Copy, Debug, Default, PartialEq, Eq)]
pub struct Header {
    pub version: u8,
    pub c: u8,
    pub r: u8,
    pub v: u8,
    pub e: u8,
    pub m: u8,
    pub q: u8,
}

// What a code byte stands for, by its range alone.
#[derive(Clone, Copy, Debug, PartialEq, Eq)]
pub enum Kind {
    Top,
    Constant(u8),
    Restriction(u8),
    Variable(u8),
    Other,
}

// The bytes of a readable table.
#[derive(Clone, Copy)]
pub struct Readable<'a> {
    pub bytes: &'a [u8],
    ghost reads: { T (is_readable (reading bytes.now)) },
}

pub fn kind_of(code: u8) -> Kind
    ensures { result ≡ kind_of code }
{
    match code {
        0x00 => Kind::Top,
        0x20..=0x3F => Kind::Constant(code - 0x20),
        0x40..=0x5F => Kind::Restriction(code - 0x40),
        0x60.. => Kind::Variable(code - 0x60),
        _ => Kind::Other,
    }
}

// Is the byte a declared role?
fn role_ok(code: u8, header: Header) -> bool
    ensures { result ≡ is_some (role_of header.r code) }
{
    code < header.r
}

// Is the code a filler, where these counts are declared?
fn filler_ok(code: u8, header: Header) -> bool
    ensures { result ≡ is_some (filler_of header.c header.v code) }
{
    match kind_of(code) {
        Kind::Top => true,
        Kind::Constant(k) => k < header.c,
        Kind::Restriction(_) => false,
        Kind::Variable(k) => k < header.v,
        Kind::Other => false,
    }
}

// Is the code a left or right entry, where these counts are declared?
fn entry_ok(code: u8, header: Header) -> bool
    ensures { result ≡ is_some (entry_of header.c header.e header.v code) }
{
    match kind_of(code) {
        Kind::Top => false,
        Kind::Constant(k) => k < header.c,
        Kind::Restriction(k) => k < header.e,
        Kind::Variable(k) => k < header.v,
        Kind::Other => false,
    }
}

fn has_mark(table: &[u8]) -> bool
    requires { header_length ≤ length table.now }
    ensures { result ≡ marked table.now }
{
    table.starts_with(b"VOC")
}

fn is_version_known(table: &[u8]) -> bool
    requires { header_length ≤ length table.now }
    ensures { result ≡ version_known table.now }
{
    matches!(table[VERSION], 1 | 2) && table[4] == 0
}

// Do tables of this version have role rows?
fn has_role_rows(version: u8) -> bool
    ensures { result ≡ has_role_rows version }
{
    version == 2
}

// How many bytes the header has.
fn header_end(header: Header) -> usize
    ensures { result ≡ header_end header }
{
    if has_role_rows(header.version) {
        HEADER + 1
    } else {
        HEADER
    }
}

// The count of role rows; 0 where there is none.
fn role_count(table: &[u8]) -> u8
    requires { header_length ≤ length table.now }
    ensures { result ≡ role_count table.now }
{
    if table.len() > ROLE_ROWS && has_role_rows(table[VERSION]) {
        table[ROLE_ROWS]
    } else {
        0
    }
}

// The version and the counts of a table of at least ten bytes.
pub fn header_of(table: &[u8]) -> Header
    requires { header_length ≤ length table.now }
    ensures { result ≡ header_of table.now }
{
    Header {
        version: table[VERSION],
        c: table[CONSTANTS],
        r: table[ROLES],
        v: table[VARIABLES],
        e: table[RESTRICTIONS],
        m: table[LINES],
        q: role_count(table),
    }
}

// A count that is over its bound is refused at its byte.
fn within(count: usize, most: usize, at: usize) -> Result<(), Answer>
    ensures ok { IfOk result (λ _. count ≤ most) }
    ensures err { IfErr result (λ why. (most < count) × (why ≡ OverBound at)) }
{
    if most < count {
        return Err(Answer::OverBound(at));
    }
    Ok(())
}

// Are the counts within their bounds?
fn read_counts(header: Header) -> Result<usize, Answer>
    ensures { result ≡ step_of (read_counts bounds header) }
{
    let c = usize::from(header.c);
    let e = usize::from(header.e);
    within(c, MAX_CONSTANTS, CONSTANTS)?;
    within(usize::from(header.r), MAX_ROLES, ROLES)?;
    within(usize::from(header.v), MAX_VARIABLES, VARIABLES)?;
    within(e, MAX_RESTRICTIONS, RESTRICTIONS)?;
    within(c + e, MAX_ATOMS, RESTRICTIONS)?;
    within(usize::from(header.m), MAX_LINES, LINES)?;
    within(usize::from(header.q), MAX_ROLE_ROWS, ROLE_ROWS)?;
    Ok(header_end(header))
}

// The mark, the version and the counts. Where the byte of q is missing, q is 0, so its bound may be judged first.
fn read_header(table: &[u8]) -> Result<usize, Answer>
    ensures { result ≡ step_of (read_header bounds table.now) }
{
    if table.len() < HEADER {
        return Err(Answer::EndsEarly(table.len()));
    }
    let mark = has_mark(table);
    let version = is_version_known(table);
    if !mark {
        return Err(Answer::WrongMark);
    }
    if !version {
        return Err(Answer::WrongVersion);
    }
    let end = read_counts(header_of(table))?;
    if table.len() < end {
        return Err(Answer::EndsEarly(table.len()));
    }
    Ok(end)
}

// `count` things from the byte `from` on, one after the other, each read by `one`.
fn read_many<F: Fn(usize) -> Result<usize, Answer>>(
    one: F,
    count: usize,
    from: usize,
) -> Result<usize, Answer>
    requires { F.IsAlwaysCallable one }
    ensures { (step : ℕ → Result ℕ Answer) → ((at : ℕ) (r : Result ℕ Answer) → F.post one at r → r ≡ step at) → result ≡ steps step count from }
{
    let mut at = from;
    for _ in 0..count {
        at = one(at)?;
    }
    Ok(at)
}

// A table whose counts are known: what stands where in it, part by part. Each part answers the place after it.
#[derive(Clone, Copy)]
struct Body<'a> {
    table: &'a [u8],
    header: Header,
}

impl Body<'_> {
    // The code at the byte `at`, where the test allows it.
    fn read_code<F: Fn(u8) -> bool>(&self, is_allowed: F, at: usize) -> Result<usize, Answer>
        requires { F.IsAlwaysCallable is_allowed }
        ensures { (allows : ℕ → Bool) → ((code : ℕ) (r : Bool) → F.post is_allowed code r → r ≡ allows code) → result ≡ step_code self.now.table.now allows at }
    {
        let Some(&code) = self.table.get(at) else {
            return Err(Answer::EndsEarly(self.table.len()));
        };
        if !is_allowed(code) {
            return Err(Answer::NotAllowed(at));
        }
        Ok(at + 1)
    }

    // The role at the byte `at`.
    fn read_role(&self, at: usize) -> Result<usize, Answer>
        ensures { result ≡ step_of (read_role self.now.table.now self.now.header at) }
    {
        self.read_code(|code| role_ok(code, self.header), at)
    }

    // The filler at the byte `at`.
    fn read_filler(&self, at: usize) -> Result<usize, Answer>
        ensures { result ≡ step_of (read_filler self.now.table.now self.now.header at) }
    {
        self.read_code(|code| filler_ok(code, self.header), at)
    }

    // The entry at the byte `at`.
    fn read_entry(&self, at: usize) -> Result<usize, Answer>
        ensures { result ≡ step_of (read_entry self.now.table.now self.now.header at) }
    {
        self.read_code(|code| entry_ok(code, self.header), at)
    }

    // The role row that begins at the byte `at`: two roles, each judged by itself.
    fn read_role_row(&self, at: usize) -> Result<usize, Answer>
        ensures { result ≡ step_of (read_role_row self.now.table.now self.now.header at) }
    {
        let next = self.read_role(at)?;
        self.read_role(next)
    }

    // The restriction row that begins at the byte `at`: a role and a filler.
    fn read_row(&self, at: usize) -> Result<usize, Answer>
        ensures { result ≡ step_of (read_row self.now.table.now self.now.header at) }
    {
        let next = self.read_role(at)?;
        self.read_filler(next)
    }

    // The line that begins at the byte `at`: an over-large left count is refused before its entries are read.
    fn read_line(&self, at: usize) -> Result<usize, Answer>
        ensures { result ≡ step_of (read_line bounds self.now.table.now self.now.header at) }
    {
        let Some(&count) = self.table.get(at) else {
            return Err(Answer::EndsEarly(self.table.len()));
        };
        let p = usize::from(count);
        let over = MAX_LEFT < p;
        if over {
            return Err(Answer::OverBound(at));
        }
        let next = read_many(|entry| self.read_entry(entry), p, at + 1)?;
        self.read_entry(next)
    }

    // The role rows, the rows and the lines, and nothing after them.
    fn read_body(&self) -> Result<usize, Answer>
        ensures { result ≡ step_of (read_body bounds self.now.table.now self.now.header) }
    {
        let header = self.header;
        let first = read_many(
            |row| self.read_role_row(row),
            usize::from(header.q),
            header_end(header),
        )?;
        let next = read_many(|row| self.read_row(row), usize::from(header.e), first)?;
        let end = read_many(|line| self.read_line(line), usize::from(header.m), next)?;
        if end < self.table.len() {
            return Err(Answer::BytesAfter(end));
        }
        Ok(end)
    }
}

// The whole table.
pub fn check(table: &[u8]) -> Result<Readable<'_>, Answer>
    ensures ok { IfOk result (λ t. t.bytes.now ≡ table.now) }
    ensures err { IfErr result (λ why. reading table.now ≡ refusal why) }
    ensures verdict { verdict_in result ≡ verdict_of (reading table.now) }
{
    read_header(table)?;
    let body = Body {
        table,
        header: header_of(table),
    };
    body.read_body()?;
    Ok(Readable { bytes: table })
}

impl Readable<'_> {
    // The version and the counts.
    pub fn header(&self) -> Header
        ensures { result ≡ header_of self.now.bytes.now }
    {
        header_of(self.bytes)
    }

    // The byte where the rows begin.
    fn rows_at(&self) -> usize
        ensures { result ≡ rows_at self.now.bytes.now }
    {
        let header = self.header();
        header_end(header) + 2 * usize::from(header.q)
    }

    // The byte where line n begins; of as many lines as there are, the table's end.
    pub fn line_start(&self, n: usize) -> usize
        requires { n ≤ (header_of self.now.bytes.now).m }
        ensures { result ≡ line_start self.now.bytes.now n }
    {
        let mut at = self.rows_at() + 2 * usize::from(self.bytes[RESTRICTIONS]);
        for _ in 0..n {
            at = at + usize::from(self.bytes[at]) + 2;
        }
        at
    }

    // The narrower role of role row k.
    pub fn narrower_of(&self, k: usize) -> u8
        requires { k < (header_of self.now.bytes.now).q }
        ensures { result ≡ (role_row_at (table_of self.now.bytes.now).role_rows k).narrower }
    {
        self.bytes[header_end(self.header()) + 2 * k]
    }

    // Its wider role.
    pub fn wider_of(&self, k: usize) -> u8
        requires { k < (header_of self.now.bytes.now).q }
        ensures { result ≡ (role_row_at (table_of self.now.bytes.now).role_rows k).wider }
    {
        self.bytes[header_end(self.header()) + 1 + 2 * k]
    }

    // The role of restriction row k.
    pub fn role_of(&self, k: usize) -> u8
        requires { k < (header_of self.now.bytes.now).e }
        ensures { result ≡ (row_at (table_of self.now.bytes.now).rows k).role }
    {
        self.bytes[self.rows_at() + 2 * k]
    }

    // The code of its filler.
    pub fn filler_of(&self, k: usize) -> u8
        requires { k < (header_of self.now.bytes.now).e }
        ensures { IsRowFiller self.now.bytes.now k result }
    {
        self.bytes[self.rows_at() + 1 + 2 * k]
    }

    // How many left entries the line has that begins at the byte `at`.
    pub fn left_count(&self, at: usize) -> usize
        requires { LineBegins self.now.bytes.now at }
        ensures { AtLine self.now.bytes.now at (λ l. result ≡ length l.left) }
    {
        usize::from(self.bytes[at])
    }

    // The code of its left entry i.
    pub fn left_code(&self, at: usize, i: usize) -> u8
        requires { LineBegins self.now.bytes.now at × AtLine self.now.bytes.now at (λ l. i < length l.left) }
        ensures { AtLine self.now.bytes.now at (λ l. IsEntryCode self.now.bytes.now (get_or l.left i (constant 0)) result) }
    {
        self.bytes[at + 1 + i]
    }

    // The code of its right entry.
    pub fn right_code(&self, at: usize) -> u8
        requires { LineBegins self.now.bytes.now at }
        ensures { AtLine self.now.bytes.now at (λ l. IsEntryCode self.now.bytes.now l.right result) }
    {
        self.bytes[at + 1 + usize::from(self.bytes[at])]
    }
}
