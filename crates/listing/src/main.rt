// Reads a table from standard input, solves it and writes the answer as text.
#![tactic(auto)]

ghost use Rattle.std.specs.Prelude.{◌≡◌, OnOk, OnErr, IfSome};
ghost use Rattle.std.specs.Io.KnownBytes.{Appends};
ghost use Rattle.input.specs.Part.{AppendsPart};
ghost use Rattle.listing.specs.Report.{report_text};

use bounds::Count;
use std::io;
use std::io::{Read, Write};

// One byte more than the longest readable table has, so that a longer input is answered as a longer one.
const MOST: usize = table::LONGEST + 1;

const BUDGET: Count = 1_000_000;

// The answer to a table as text, at the start of the buffer.
#[tactic(auto, using(text::specs::AppendLaws::fitting_length))]
fn report<'a>(table: &[u8], buffer: &'a mut [u8; text::LISTING_ROOM]) -> &'a [u8]
    ensures { result.now ≡ report_text table.now }
{
    let mut output = [0; output::ROOM];
    let a = makrothel::solve(table, BUDGET, &mut output);
    let end = text::listing(table, a, &output, buffer);
    &buffer[..end]
}

// Reads a table, solves it and writes the answer as text. A write that fails leaves a beginning of the text. Where a read fails, none of it is written.
fn run<R: Read, W: Write>(input: &mut R, output: &mut W) -> io::Result<()>
    ensures text { OnOk result (IfSome (R.remaining input.old) (λ xs. Appends (W.contents output.old) (W.contents output.new) (report_text xs))) }
    ensures err { OnErr result (IfSome (R.remaining input.old) (λ xs. AppendsPart (W.contents output.old) (W.contents output.new) (report_text xs))) }
{
    let mut table = [0; MOST];
    let n = input::read_full(input, &mut table)?;
    let mut buffer = [0; text::LISTING_ROOM];
    let text = report(&table[..n], &mut buffer);
    input::write_full(output, text)
}

fn main(rt: HostRuntime) -> io::Result<()> {
    run(&mut rt.stdin(), &mut rt.stdout())
}
