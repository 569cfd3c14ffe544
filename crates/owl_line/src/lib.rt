// The lines that two sides make, appended to a lent buffer.
//
// A side is a class expression of a text, told by its byte, or a fresh variable, told by its number; its entries are asked for one by one.
#![tactic(auto)]

ghost use Rattle.std.specs.Prelude.{◌≡◌, ◌+◌, ◌≤◌, ◌<◌, length};
ghost use Rattle.bounds.specs.Bounds.{max_left};
ghost use Rattle.owl_line.specs.Sides.{SideIn, CountIs, CodeIs, PutEntries, PutLines, Grouped};

mod parts;

use owl_class::Entry;
pub use parts::{Passed, Side, Source};

// A code, where the number is small. What a code means is the table's form: constants begin at 0x20, rows at 0x40, variables at 0x60.
// They stay numbers: `entry_code` of table/specs/Bytes says them so, and the code is a byte of the table.
pub fn code_of(base: u8, number: usize) -> u8
    requires { base ≤ 96 }
    ensures { number < 128 → result ≡ base + number }
{
    if number < 128 { base + number as u8 } else { 0 }
}

impl Source<'_> {
    // The code of a fresh variable, where its number behind the open names is small.
    pub fn fresh_code(self, n: usize) -> u8
        ensures { self.entry.opens + n < 128 → result ≡ 0x60 + (self.entry.opens + n) }
    {
        code_of(0x60, self.opens.saturating_add(n))
    }
}

impl Side {
    // How many entries a side has.
    fn count(self, text: &[u8]) -> usize
        requires { SideIn text.now self }
        ensures { CountIs text.now self result }
    {
        match self {
            Side::Fresh(_) => 1,
            Side::Class(at) => owl_class::conjuncts(text, at),
        }
    }

    // The code of entry i of a side.
    fn code_at(self, source: Source<'_>, i: usize) -> u8
        requires { SideIn source.text.now self }
        ensures { CodeIs source.entry.text.now source.entry.opens self i result }
    {
        match self {
            Side::Fresh(n) => source.fresh_code(n),
            Side::Class(at) => match owl_class::entry_of(source.text, at, i) {
                Some(Entry::Constant(number)) => code_of(0x20, number),
                Some(Entry::Row(number)) => code_of(0x40, number),
                Some(Entry::Open(number)) => code_of(0x60, number),
                None => 0,
            },
        }
    }

    // The codes of the p entries of a side. A buffer and a place in it stay two: `PutEntries` is of both.
    fn put_entries(self, source: Source<'_>, p: usize, out: &mut [u8], from: usize) -> usize
        requires { SideIn source.text.now self }
        ensures put { PutEntries source.entry.text.now source.entry.opens self p out.old from out.new result }
        ensures room { length out.new ≡ length out.old }
    {
        let mut end = from;
        for i in 0..p {
            end = text::put_byte(self.code_at(source, i), out, end);
        }
        end
    }
}

// The lines of a left side of p entries below a right side of q. A buffer and a place in it stay two: `PutLines` is of both.
fn put_lines(
    source: Source<'_>,
    left: Side,
    right: Side,
    p: usize,
    q: usize,
    out: &mut [u8],
    from: usize,
) -> usize
    requires left { SideIn source.text.now left }
    requires right { SideIn source.text.now right }
    requires few { p ≤ max_left }
    ensures put { PutLines source.entry.text.now source.entry.opens left right p q out.old from out.new result }
    ensures room { length out.new ≡ length out.old }
{
    let mut end = from;
    for j in 0..q {
        end = text::put_byte(p as u8, out, end);
        end = left.put_entries(source, p, out, end);
        end = text::put_byte(right.code_at(source, j), out, end);
    }
    end
}

// The lines of a left side below a right side, besides those that were passed; none, where they are too many or too long.
pub fn group(
    source: Source<'_>,
    left: Side,
    right: Side,
    passed: Option<Passed>,
    out: &mut [u8],
) -> Option<Passed>
    requires left { SideIn source.text.now left }
    requires right { SideIn source.text.now right }
    ensures lines { Grouped source.entry.text.now source.entry.opens left right passed out.old result out.new }
    ensures room { length out.new ≡ length out.old }
{
    let passed = passed?;
    let q = right.count(source.text);
    if q == 0 {
        return Some(passed);
    }
    let p = left.count(source.text);
    if bounds::MAX_LEFT < p || bounds::MAX_LINES - passed.lines < q {
        return None;
    }
    let end = put_lines(source, left, right, p, q, out, passed.end);
    Some(Passed {
        lines: passed.lines + q,
        end,
    })
}
