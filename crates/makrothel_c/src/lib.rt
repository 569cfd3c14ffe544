// The public calls for C (include/makrothel.h). A lent slice passes as a pointer and then a length, a lent array as a pointer.
#![tactic(auto)]

ghost use Rattle.std.specs.Prelude.{◌≡◌};
ghost use Rattle.answer.specs.Handed.{handed};
ghost use Rattle.table.specs.Reading.{reading};
ghost use Rattle.makrothel.specs.Answer.{read_answer, line_span, line_part};
ghost use Rattle.makrothel.specs.Solve.{answer};
ghost use Rattle.makrothel.specs.C.{place_and_counts, line_found, start_and_length, spanned, count_and_place};

use bounds::Count;

// `read`: returns the number; the place and the counts c, r, v, e, m, q are in the lent array.
#[unsafe(no_mangle)]
pub extern "C" fn makrothel_read(table: &[u8], numbers: &mut [u64; 7]) -> u32
    ensures number { result ≡ (read_answer (reading table.now)).number }
    ensures numbers { numbers.new ≡ place_and_counts (read_answer (reading table.now)) }
{
    let a = makrothel::read(table);
    *numbers = [
        a.place as u64,
        u64::from(a.constants),
        u64::from(a.roles),
        u64::from(a.variables),
        u64::from(a.restrictions),
        u64::from(a.lines),
        u64::from(a.inclusions),
    ];
    a.number
}

// `line`: returns 1 where there is a line n and 0 where there is none; the lent array has the byte where it starts and its length, or zeros.
#[unsafe(no_mangle)]
pub extern "C" fn makrothel_line(table: &[u8], n: u32, span: &mut [u64; 2]) -> u32
    ensures found { result ≡ line_found table.now n }
    ensures span { span.new ≡ start_and_length (line_span table.now n) }
    ensures part { spanned span.new table.now ≡ line_part table.now n }
{
    match makrothel::line_span(table, n) {
        Some(line) => {
            *span = [line.start as u64, line.length as u64];
            1
        }
        None => {
            *span = [0, 0];
            0
        }
    }
}

// `solve`: returns the number; the count and the place are in the lent array, and the output is as `solve` leaves it.
#[unsafe(no_mangle)]
pub extern "C" fn makrothel_solve(
    table: &[u8],
    budget: Count,
    out: &mut [u8],
    numbers: &mut [u64; 2],
) -> u32
    ensures number { result ≡ (handed (answer table.now budget out.old).says).number }
    ensures numbers { numbers.new ≡ count_and_place (handed (answer table.now budget out.old).says) }
    ensures output { out.new ≡ (answer table.now budget out.old).output }
{
    let a = makrothel::solve(table, budget, out);
    *numbers = [u64::from(a.count), a.place as u64];
    a.number
}
