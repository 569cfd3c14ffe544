// Answers a stream of questions, a line of text for each. A question is a kind (1 read, 2 line, 3 solve), a number in four bytes, the
// length of the output in two, the length of the table in two, little-endian, and the table.
#![tactic(auto)]

ghost use Rattle.std.specs.Prelude.{◌≡◌, ◌≤◌, length, IfSome, OnOk, OnErr, Err};
ghost use Rattle.std.specs.Io.KnownBytes.{Appends, Consumes, IsAtEnd};
ghost use Rattle.input.specs.Part.{AppendsPart, ConsumesPart};
ghost use Rattle.batch.specs.declared.Stop.TheVariants.{End, Cut, Failed};
ghost use Rattle.batch.specs.Question.{most, cut_line, room_of, question_of, read_reply, line_reply, solve_reply, reply};

use bounds::Count;
use std::io;
use std::io::{Read, Write};

// How long a table and an output may be.
const MOST: usize = 1024;

// The bytes before a table.
const HEAD: usize = 9;

// Room for a line.
const LINE: usize = 4096;

// What is asked of a table: the reader's answer, a line by its number, or the solver's answer under a budget and with room for an output.
#[derive(Clone, Copy)]
pub enum Ask {
    Read,
    Line(u32),
    Solve { budget: Count, room: usize },
}

// A question, but for its table.
#[derive(Clone, Copy)]
pub struct Question {
    pub ask: Ask,
    pub length: usize,
}

// Why no more questions are answered: the stream is at its end, no whole question stands there, or a call failed.
#[derive(Drop)]
pub enum Stop {
    End,
    Cut,
    Failed(io::Error),
}

impl From<io::Error> for Stop {
    ghost from_gives = { λ e why. why ≡ Failed e };

    fn from(e: io::Error) -> Stop {
        Stop::Failed(e)
    }
}

// What the nine bytes before a table ask: nothing where there is no such kind, or the table is too long.
#[tactic(auto, using(crate::proofs::Laws::number_of_two, crate::proofs::Laws::number_of_four))]
fn question_of(head: &[u8; HEAD]) -> Option<Question>
    ensures value { result ≡ question_of head.now }
    ensures few { IfSome result (λ q. (q.length ≤ most) × (room_of q.ask ≤ most)) }
{
    let [kind, n0, n1, n2, n3, r0, r1, l0, l1] = *head;
    let number = u32::from_le_bytes([n0, n1, n2, n3]);
    let room = usize::from(u16::from_le_bytes([r0, r1])).min(MOST);
    let length = usize::from(u16::from_le_bytes([l0, l1]));
    let ask = match kind {
        1 => Ask::Read,
        2 => Ask::Line(number),
        3 => Ask::Solve {
            budget: number,
            room,
        },
        _ => return None,
    };
    if length <= MOST {
        Some(Question { ask, length })
    } else {
        None
    }
}

#[tactic(auto, using(text::specs::AppendLaws::fitting_length))]
fn read_reply<'a>(table: &[u8], line: &'a mut [u8; LINE]) -> &'a [u8]
    ensures { result.now ≡ read_reply table.now }
{
    let a = makrothel::read(table);
    // By `as`, since there is no `From<u32>` of a `usize`.
    let end = text::read_line(
        &[
            a.number as usize,
            a.place,
            a.constants as usize,
            a.roles as usize,
            a.variables as usize,
            a.restrictions as usize,
            a.lines as usize,
            a.inclusions as usize,
        ],
        line,
    );
    &line[..end]
}

#[tactic(auto, using(text::specs::AppendLaws::fitting_length))]
fn line_reply<'a>(table: &[u8], n: u32, line: &'a mut [u8; LINE]) -> &'a [u8]
    requires { length table.now ≤ most }
    ensures { result.now ≡ line_reply table.now n }
{
    let end = text::hex_line(makrothel::line(table, n), line);
    &line[..end]
}

#[tactic(auto, using(text::specs::AppendLaws::fitting_length))]
fn solve_reply<'a>(
    table: &[u8],
    budget: Count,
    output: &mut [u8],
    line: &'a mut [u8; LINE],
) -> &'a [u8]
    requires { length output.old ≤ most }
    ensures { result.now ≡ solve_reply table.now budget output.old }
{
    let a = makrothel::solve(table, budget, output);
    let end = text::solve_line(a, output, line);
    &line[..end]
}

// The answer to a question, as a line.
fn reply_to<'a>(ask: Ask, table: &[u8], line: &'a mut [u8; LINE]) -> &'a [u8]
    requires { (room_of ask ≤ most) × (length table.now ≤ most) }
    ensures { result.now ≡ reply ask table.now }
{
    match ask {
        Ask::Read => read_reply(table, line),
        Ask::Line(n) => line_reply(table, n, line),
        Ask::Solve { budget, room } => {
            let mut output = [0xAA; MOST];
            solve_reply(table, budget, &mut output[..room], line)
        }
    }
}

// Says that the stream is cut short.
fn cut<W: Write>(output: &mut W) -> io::Result<()>
    ensures ok { OnOk result (Appends (W.contents output.old) (W.contents output.new) cut_line) }
    ensures err { OnErr result (AppendsPart (W.contents output.old) (W.contents output.new) cut_line) }
{
    input::write_full(output, b"cut\n")
}

// Reads a whole table, or finds the stream cut short; where a table is due, no stream has ended well.
fn read_table<R: Read>(input: &mut R, table: &mut [u8]) -> Result<(), Stop>
    ensures ok { OnOk result (Consumes (R.remaining input.old) (R.remaining input.new) table.new) }
    ensures end { result ≡ Err Cut → IsAtEnd (R.remaining input.new) }
    ensures whole { result ≡ Err End → ⊥ }
    ensures err { OnErr result (ConsumesPart (R.remaining input.old) (R.remaining input.new) table.new) }
{
    if input::read_full(input, table)? < table.len() {
        return Err(Stop::Cut);
    }
    Ok(())
}

// Reads a question and answers it.
fn answer_one<R: Read, W: Write>(input: &mut R, output: &mut W) -> Result<(), Stop> {
    let mut head = [0; HEAD];
    match input::read_full(input, &mut head)? {
        0 => return Err(Stop::End),
        HEAD => {}
        _ => return Err(Stop::Cut),
    }
    let q = question_of(&head).ok_or(Stop::Cut)?;
    let mut table = [0; MOST];
    let table = &mut table[..q.length];
    read_table(input, table)?;
    let mut line = [0; LINE];
    input::write_full(output, reply_to(q.ask, table, &mut line))?;
    Ok(())
}

// A proved loop has to end, and nothing says that a stream does: it ends after 2^64 - 1 questions, which no run reaches.
fn main(rt: HostRuntime) -> io::Result<()> {
    let mut input = rt.stdin();
    let mut output = rt.stdout();
    for _ in 0..u64::MAX {
        match answer_one(&mut input, &mut output) {
            Ok(()) => {}
            Err(Stop::End) => break,
            Err(Stop::Cut) => return cut(&mut output),
            Err(Stop::Failed(e)) => return Err(e),
        }
    }
    Ok(())
}
