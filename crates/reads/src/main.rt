// Reads many tables and prints what the public calls answer: for the reader a line with number, place and the counts,
// for the line call a line with the length of the part and its bytes. Each group has a title.
#![tactic(auto)]

ghost use Rattle.std.specs.Prelude.{◌<◌, length};

use bounds::{
    MAX_ATOMS, MAX_CONSTANTS, MAX_LEFT, MAX_LINES, MAX_RESTRICTIONS, MAX_ROLE_ROWS, MAX_ROLES,
    MAX_VARIABLES,
};
use std::io;
use table::Header;

// The count of role rows and as many role rows as are allowed.
const ORDER: usize = 1 + 2 * MAX_ROLE_ROWS;

// Where the lines of the longest table without role rows begin, and where it ends.
const LINES_AT: usize = table::HEADER + 2 * MAX_RESTRICTIONS;

const LONGEST: usize = table::LONGEST - ORDER;

// One byte more than the longest table has.
const MOST: usize = table::LONGEST + 1;

// 3 constants, 2 roles, 2 variables, 2 restrictions and 2 lines: byte 13 is a filler, byte 15 a left entry, byte 17 a right one.
const PLAIN: [u8; 21] = [
    0x56, 0x4F, 0x43, 1, 0, 3, 2, 2, 2, 2, 1, 0x00, 0, 0x61, 2, 0x20, 0x41, 0x60, 1, 0x61, 0x22,
];

// The same with two role rows: byte 11 is a narrower role, byte 14 a wider one.
const ORDERED: [u8; 26] = [
    0x56, 0x4F, 0x43, 2, 0, 3, 2, 2, 2, 2, 2, 0, 1, 1, 0, 1, 0x00, 0, 0x61, 2, 0x20, 0x41, 0x60, 1,
    0x61, 0x22,
];

// No counts, in version 1. A constant, which `default()` cannot give: the headers below take the rest from it.
const NONE: Header = Header {
    version: 1,
    c: 0,
    r: 0,
    v: 0,
    e: 0,
    m: 0,
    q: 0,
};

// As many atoms, roles, rows and lines as are allowed.
const ALL: Header = Header {
    version: 1,
    c: (MAX_ATOMS - MAX_RESTRICTIONS) as u8,
    r: MAX_ROLES as u8,
    v: MAX_VARIABLES as u8,
    e: MAX_RESTRICTIONS as u8,
    m: MAX_LINES as u8,
    q: 0,
};

fn show(rt: &impl Print, table: &[u8]) -> io::Result<()> {
    let a = makrothel::read(table);
    println!(rt;
        "{} {} {} {} {} {} {} {}",
        a.number, a.place, a.constants, a.roles, a.variables, a.restrictions, a.lines, a.inclusions
    )
}

fn show_line(rt: &impl Print, table: &[u8], n: u32) -> io::Result<()> {
    let part = makrothel::line(table, n);
    print!(rt; "{}", part.len())?;
    for b in part {
        print!(rt; " {b}")?;
    }
    println!(rt)
}

// A title, and the tables of its group.
fn show_group(rt: &impl Print, title: &str, tables: &[&[u8]]) -> io::Result<()> {
    println!(rt; "{title}")?;
    for table in tables {
        show(rt, table)?;
    }
    Ok(())
}

// A title, and the lines of its group: each of a table, by its number.
fn show_line_group(rt: &impl Print, title: &str, lines: &[(&[u8], u32)]) -> io::Result<()> {
    println!(rt; "{title}")?;
    for (table, n) in lines {
        show_line(rt, table, *n)?;
    }
    Ok(())
}

// Every beginning of the table, the empty one first and the whole last.
fn show_truncations(rt: &impl Print, table: &[u8]) -> io::Result<()> {
    for n in 0..=table.len() {
        show(rt, &table[..n])?;
    }
    Ok(())
}

// The table, with each of the 256 values at the byte `at`, which is put back afterwards.
fn show_codes(rt: &impl Print, table: &mut [u8], at: usize) -> io::Result<()>
    requires { at < length table.old }
{
    let before = table[at];
    for code in 0..=u8::MAX {
        table[at] = code;
        show(rt, table)?;
    }
    table[at] = before;
    Ok(())
}

// A header without role rows, and the byte `rest` up to the end.
fn with_header(counts: Header, rest: u8) -> [u8; MOST] {
    let Header {
        version,
        c,
        r,
        v,
        e,
        m,
        ..
    } = counts;
    let mut t = [rest; MOST];
    t[..table::HEADER].copy_from_slice(&[b'V', b'O', b'C', version, 0, c, r, v, e, m]);
    t
}

fn show_headers(rt: &impl Print, title: &str, headers: &[Header]) -> io::Result<()> {
    println!(rt; "{title}")?;
    for counts in headers {
        show(rt, &with_header(*counts, 0)[..table::HEADER])?;
    }
    Ok(())
}

// c constants, as many variables as are allowed, e rows of role 0 and top, and one line of a right entry alone: each of the 256 values as that
// entry.
fn show_entry_codes(rt: &impl Print, c: u8, e: u8) -> io::Result<()> {
    let counts = Header {
        c,
        r: 1,
        v: MAX_VARIABLES as u8,
        e,
        m: 1,
        ..NONE
    };
    let last = table::HEADER + 2 * usize::from(e) + 1;
    show_codes(rt, &mut with_header(counts, 0)[..=last], last)
}

// c constants, e rows of role 0 and top, and no line.
fn show_rows(rt: &impl Print, c: u8, e: u8) -> io::Result<()> {
    let counts = Header { c, r: 1, e, ..NONE };
    show(
        rt,
        &with_header(counts, 0)[..table::HEADER + 2 * usize::from(e)],
    )
}

// m lines, each "top below constant 0".
fn show_many_lines(rt: &impl Print, m: u8) -> io::Result<()> {
    let mut t = with_header(Header { c: 1, m, ..NONE }, 0x20);
    let end = table::HEADER + 2 * usize::from(m);
    for left_count in t[table::HEADER..end].iter_mut().step_by(2) {
        *left_count = 0;
    }
    show(rt, &t[..end])
}

// One line with the left count p.
fn show_left_count(rt: &impl Print, p: u8) -> io::Result<()> {
    let mut t = with_header(Header { c: 1, m: 1, ..NONE }, 0x20);
    t[table::HEADER] = p;
    show(rt, &t[..table::HEADER + usize::from(p) + 2])
}

// As many atoms, rows, and lines with as many left entries, as are allowed, in version 2 behind as many role rows as are allowed; and bytes
// after them.
fn longest(version: u8) -> [u8; MOST] {
    let mut t = with_header(Header { version, ..ALL }, 0x40);
    let order = if version == 2 { ORDER } else { 0 };
    t[table::HEADER..LINES_AT + order].fill(0);
    if version == 2 {
        t[table::ROLE_ROWS] = MAX_ROLE_ROWS as u8;
    }
    for left_count in t[LINES_AT + order..LONGEST + order]
        .iter_mut()
        .step_by(MAX_LEFT + 2)
    {
        *left_count = MAX_LEFT as u8;
    }
    t
}

fn show_order(rt: &impl Print) -> io::Result<()> {
    show_group(
        rt,
        "nine bytes with a wrong mark",
        &[b"\x00\x00\x00\x00\x00\x00\x00\x00\x00"],
    )?;
    show_group(
        rt,
        "mark and version wrong",
        &[b"VOK\x03\x00\x21\x11\x19\x21\x41"],
    )?;
    show_group(
        rt,
        "version 0, 3, 0x0101, 0x0102",
        &[
            b"VOC\x00\x00\x21\x11\x19\x21\x41",
            b"VOC\x03\x00\x21\x11\x19\x21\x41",
            b"VOC\x01\x01\x21\x11\x19\x21\x41",
            b"VOC\x02\x01\x21\x11\x19\x21\x41",
        ],
    )?;
    show_headers(
        rt,
        "c 33 alone; with r 17; with v 25; with e 33; with m 65; c 255 and e 1",
        &[
            Header { c: 33, ..NONE },
            Header {
                c: 33,
                r: 17,
                ..NONE
            },
            Header {
                c: 33,
                v: 25,
                ..NONE
            },
            Header {
                c: 33,
                e: 33,
                ..NONE
            },
            Header {
                c: 33,
                m: 65,
                ..NONE
            },
            Header {
                c: 255,
                e: 1,
                ..NONE
            },
        ],
    )?;
    show_headers(
        rt,
        "r 17 with v 25; v 25 with e 33; e 33 with m 65; c 32 and e 25 with m 65",
        &[
            Header {
                r: 17,
                v: 25,
                ..NONE
            },
            Header {
                v: 25,
                e: 33,
                ..NONE
            },
            Header {
                e: 33,
                m: 65,
                ..NONE
            },
            Header {
                c: 32,
                e: 25,
                m: 65,
                ..NONE
            },
        ],
    )?;
    show_group(
        rt,
        "a role not declared, and no filler; a role, and no filler",
        &[
            b"VOC\x01\x00\x00\x00\x00\x01\x00\x00",
            b"VOC\x01\x00\x00\x01\x00\x01\x00\x00",
        ],
    )?;
    show_group(
        rt,
        "a restriction as its own filler",
        &[b"VOC\x01\x00\x00\x01\x00\x01\x00\x00\x40"],
    )?;
    show_group(
        rt,
        "a left count of 255 at the end",
        &[b"VOC\x01\x00\x01\x00\x00\x00\x01\xFF"],
    )?;
    show_group(
        rt,
        "a left count of 9 before a code not declared",
        &[b"VOC\x01\x00\x01\x00\x00\x00\x01\x09\xFF"],
    )?;
    show_group(
        rt,
        "a bad second entry, and the rest missing",
        &[b"VOC\x01\x00\x01\x00\x00\x00\x01\x03\x20\x21"],
    )?;
    show_group(
        rt,
        "top as a left entry, as a right one",
        &[
            b"VOC\x01\x00\x01\x00\x00\x00\x01\x01\x00\x20",
            b"VOC\x01\x00\x01\x00\x00\x00\x01\x00\x00",
        ],
    )?;
    show_group(
        rt,
        "a bad right entry and bytes after it; bytes after the last line",
        &[
            b"VOC\x01\x00\x01\x00\x00\x00\x01\x00\x21\x00\x00",
            b"VOC\x01\x00\x01\x00\x00\x00\x01\x00\x20\x00\x00",
        ],
    )
}

fn show_bounds(rt: &impl Print) -> io::Result<()> {
    show_headers(rt, "no counts", &[NONE])?;
    show_headers(
        rt,
        "c 32, c 33",
        &[Header { c: 32, ..NONE }, Header { c: 33, ..NONE }],
    )?;
    println!(rt; "c 32 with e 24, with e 25")?;
    show_rows(rt, 32, 24)?;
    show_rows(rt, 32, 25)?;
    println!(rt; "e 32 with c 24, with c 25; e 33")?;
    show_rows(rt, 24, 32)?;
    show_rows(rt, 25, 32)?;
    show_rows(rt, 0, 33)?;
    show_headers(
        rt,
        "r 16, r 17",
        &[Header { r: 16, ..NONE }, Header { r: 17, ..NONE }],
    )?;
    show_headers(
        rt,
        "v 24, v 25",
        &[Header { v: 24, ..NONE }, Header { v: 25, ..NONE }],
    )?;
    println!(rt; "m 64, m 65")?;
    show_many_lines(rt, 64)?;
    show_many_lines(rt, 65)?;
    println!(rt; "p 8, p 9")?;
    show_left_count(rt, 8)?;
    show_left_count(rt, 9)?;
    let t = longest(1);
    show_group(
        rt,
        "the longest table, a byte less, a byte more",
        &[&t[..LONGEST], &t[..LONGEST - 1], &t[..LONGEST + 1]],
    )
}

fn show_order_of_roles(rt: &impl Print) -> io::Result<()> {
    show_group(
        rt,
        "version 2: no q; m 65 before q; no q and m 65",
        &[
            b"VOC\x02\x00\x00\x00\x00\x00\x00",
            b"VOC\x02\x00\x00\x00\x00\x00\x41\x21",
            b"VOC\x02\x00\x00\x00\x00\x00\x41",
        ],
    )?;
    show_group(
        rt,
        "q 0, q 32 and no row, q 33",
        &[
            b"VOC\x02\x00\x00\x00\x00\x00\x00\x00",
            b"VOC\x02\x00\x00\x01\x00\x00\x00\x20",
            b"VOC\x02\x00\x00\x01\x00\x00\x00\x21",
        ],
    )?;
    show_group(
        rt,
        "r 0 and q 1; a wider role not declared; no wider role",
        &[
            b"VOC\x02\x00\x00\x00\x00\x00\x00\x01\x00\x00",
            b"VOC\x02\x00\x00\x01\x00\x00\x00\x01\x00\x01",
            b"VOC\x02\x00\x00\x01\x00\x00\x00\x01\x00",
        ],
    )?;
    show_group(
        rt,
        "a byte after the role rows",
        &[b"VOC\x02\x00\x00\x01\x00\x00\x00\x01\x00\x00\x00"],
    )?;
    let t = longest(2);
    show_group(
        rt,
        "the longest table with role rows, a byte less, a byte more",
        &[&t[..table::LONGEST], &t[..table::LONGEST - 1], &t],
    )?;
    show_line_group(
        rt,
        "lines 0 and 1 of a table with role rows, and line 63 of the longest",
        &[(&ORDERED, 0), (&ORDERED, 1), (&t[..table::LONGEST], 63)],
    )
}

fn show_lines(rt: &impl Print) -> io::Result<()> {
    show_line_group(
        rt,
        "lines 0, m - 1, m and the last number",
        &[(&PLAIN, 0), (&PLAIN, 1), (&PLAIN, 2), (&PLAIN, u32::MAX)],
    )?;
    show_line_group(
        rt,
        "line 0 of a table that ends early, of an empty one, and of one with a byte more",
        &[
            (&PLAIN[..20], 0),
            (&[], 0),
            (b"VOC\x01\x00\x01\x00\x00\x00\x01\x00\x20\x00", 0),
        ],
    )?;
    let t = longest(1);
    show_line_group(
        rt,
        "lines 63 and 64 of the longest table, and line 63 with a byte more",
        &[
            (&t[..LONGEST], 63),
            (&t[..LONGEST], 64),
            (&t[..LONGEST + 1], 63),
        ],
    )
}

fn main(rt: HostRuntime) -> io::Result<()> {
    let rt = &rt;
    println!(rt; "each truncation")?;
    let mut plain = PLAIN;
    show_truncations(rt, &plain)?;
    println!(rt; "each filler code")?;
    show_codes(rt, &mut plain, 13)?;
    println!(rt; "each left code")?;
    show_codes(rt, &mut plain, 15)?;
    println!(rt; "each right code")?;
    show_codes(rt, &mut plain, 17)?;
    println!(rt; "each right code with c 32, e 24 and v 24; with c 24, e 32 and v 24")?;
    show_entry_codes(rt, MAX_CONSTANTS as u8, 24)?;
    show_entry_codes(rt, 24, MAX_RESTRICTIONS as u8)?;
    show_order(rt)?;
    show_bounds(rt)?;
    show_lines(rt)?;
    println!(rt; "each truncation of a table with role rows")?;
    let mut ordered = ORDERED;
    show_truncations(rt, &ordered)?;
    println!(rt; "each count of role rows")?;
    show_codes(rt, &mut ordered, 10)?;
    println!(rt; "each narrower role")?;
    show_codes(rt, &mut ordered, 11)?;
    println!(rt; "each wider role")?;
    show_codes(rt, &mut ordered, 14)?;
    show_order_of_roles(rt)
}
