// Where the names of a text stand: for each name of a group the byte where its first declaration begins, and the byte behind it, in the order of
// the names' numbers.
#![tactic(auto)]

ghost use Rattle.std.specs.Prelude.{◌≡◌, length, slice_set};
ghost use Rattle.owl_name.specs.Declarations.{group_number};
ghost use Rattle.owl_span.specs.Span.{SpansDone};

use owl_name::{Group, Walk};
use spell::Span;

// Where name k stands, if there is room for it.
fn store(out: &mut [Span], k: usize, span: Span)
    ensures { out.new ≡ slice_set out.old k span }
{
    if k < out.len() {
        out[k] = span;
    }
}

// Where the names of a group stand; returns how many names there are.
pub fn spans(s: &[u8], group: Group, out: &mut [Span]) -> usize
    ensures { SpansDone s.now (group_number group) out.new result × (length out.new ≡ length out.old) }
{
    let mut count = 0;
    for stop in Walk::new(s) {
        if owl_name::is_first(s, group, &stop) {
            let span = Span {
                from: stop.place,
                to: stop.end,
            };
            store(out, count, span);
            count += 1;
        }
    }
    count
}
