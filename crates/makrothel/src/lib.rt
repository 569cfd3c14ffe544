// The public calls.
#![tactic(auto)]

ghost use Rattle.std.specs.Prelude.{◌≡◌, ◌*◌, ◌≤◌, length};
ghost use Rattle.bounds.specs.Bounds.{set_bytes, max_variables};
ghost use Rattle.answer.specs.Handed.{handed};
ghost use Rattle.table.specs.Reading.{reading};
ghost use Rattle.walk.specs.Step.{outcome_of};
ghost use Rattle.makrothel.specs.Answer.{read_as, read_answer, line_span, SpanIs, line_part, BeginsIn};
ghost use Rattle.makrothel.specs.Solve.{outcome_as, answered, answer};

use answer::{Answer, Handed};
use bounds::Count;
use table::Header;
use walk::{Going, State};

// What the reader answers: 0 or the number of a refusal, its place, and the counts, zeros when refused; `inclusions` is q, the count of role
// rows.
#[derive(Clone, Copy)]
pub struct ReadAnswer {
    pub number: u32,
    pub place: usize,
    pub constants: u32,
    pub roles: u32,
    pub variables: u32,
    pub restrictions: u32,
    pub lines: u32,
    pub inclusions: u32,
}

// What the reader hands back under an answer and these counts.
fn read_as(a: Answer, counts: Header) -> ReadAnswer
    ensures { result ≡ read_as a counts }
{
    let told = Handed::from(a);
    ReadAnswer {
        number: told.number,
        place: told.place,
        constants: u32::from(counts.c),
        roles: u32::from(counts.r),
        variables: u32::from(counts.v),
        restrictions: u32::from(counts.e),
        lines: u32::from(counts.m),
        inclusions: u32::from(counts.q),
    }
}

// Reads a table: every byte string is answered. With a refusal the counts that are handed back are zeros.
pub fn read(table: &[u8]) -> ReadAnswer
    ensures { result ≡ read_answer (reading table.now) }
{
    match table::check(table) {
        Ok(readable) => read_as(Answer::Solved(0), readable.header()),
        Err(why) => read_as(why, Header::default()),
    }
}

// Where a line lies in its table: the byte where it begins, and its length.
#[derive(Clone, Copy, Debug, PartialEq, Eq)]
pub struct Span {
    pub start: usize,
    pub length: usize,
}

// Where line n lies; in an unreadable table, and from line m on, nowhere.
pub fn line_span(table: &[u8], n: u32) -> Option<Span>
    ensures { SpanIs table.now n result }
{
    let Ok(readable) = table::check(table) else {
        return None;
    };
    if u32::from(readable.header().m) <= n {
        return None;
    }
    let start = readable.line_start(n as usize);
    Some(Span {
        start,
        length: readable.left_count(start) + 2,
    })
}

// Line n as a part of the table, from its left count to its right code; an empty part where there is none.
pub fn line<'a>(table: &'a [u8], n: u32) -> &'a [u8]
    ensures part { result.now ≡ line_part table.now n }
    ensures place { BeginsIn result table.entry (line_span table.now n).start }
{
    match line_span(table, n) {
        Some(span) => &table[span.start..span.start + span.length],
        None => &table[..0],
    }
}

// What the solver answers: number, count and place.
pub type SolveAnswer = Handed;

// The answer to the end of a walk; only a walk that found an assignment writes.
fn finish(state: &State, out: &mut [u8]) -> Answer
    requires { (state.now.sets.chosen ≤ max_variables) × (set_bytes * state.now.sets.chosen ≤ length out.old) }
    ensures { answered result out.new ≡ outcome_as set_bytes (outcome_of state.now) out.old }
{
    match state.going {
        Going::Solved => {
            output::put_all(out, &state.sets.set[..state.sets.chosen]);
            Answer::Solved(state.count)
        }
        Going::Over => Answer::Nothing(state.count),
        Going::On => Answer::Budget(state.count),
    }
}

// The answer to a table, or its refusal.
fn answer_to(table: &[u8], budget: Count, out: &mut [u8]) -> Answer
    ensures { answered result out.new ≡ answer table.now budget out.old }
{
    let readable = match table::check(table) {
        Ok(readable) => readable,
        Err(why) => return why,
    };
    let needed = bounds::SET_BYTES * usize::from(readable.header().v);
    if out.len() < needed {
        return Answer::OutputShort(needed);
    }
    finish(&walk::walk(readable, budget), out)
}

// Solves a table: every byte string, every budget and every output length is answered.
pub fn solve(table: &[u8], budget: Count, out: &mut [u8]) -> SolveAnswer
    ensures numbers { result ≡ handed (answer table.now budget out.old).says }
    ensures output { out.new ≡ (answer table.now budget out.old).output }
{
    Handed::from(answer_to(table, budget, out))
}
