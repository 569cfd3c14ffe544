// The output: each variable's set number, little-endian, in the part that starts at its number times the bytes of one; written, and
// read back.
#![tactic(auto)]

ghost use Rattle.std.specs.Prelude.{◌≡◌, ◌+◌, ◌*◌, ◌^◌, ◌≤◌, ◌<◌, length};
ghost use Rattle.bounds.specs.Bounds.{set_bytes};
ghost use Rattle.output.specs.Written.{number_at, widest, set_in, written};

use bounds::SetNumber;

// An output with room for every variable.
pub const ROOM: usize = bounds::SET_BYTES * bounds::MAX_VARIABLES;

// The most bytes of a number that is read.
const WIDEST: usize = 8;

// The set numbers of the first variables, each from its own offset on.
pub fn put_all(out: &mut [u8], sets: &[SetNumber])
    requires { set_bytes * length sets.now ≤ length out.old }
    ensures { out.new ≡ written sets.now out.old }
{
    for (i, set) in sets.iter().enumerate() {
        let at = bounds::SET_BYTES * i;
        out[at..at + bounds::SET_BYTES].copy_from_slice(&set.to_le_bytes());
    }
}

// The number in `width` bytes, little-endian.
pub fn number_at(bytes: &[u8], at: usize, width: usize) -> u64
    requires { (width ≤ widest) × (at + width ≤ length bytes.now) }
    ensures { (result ≡ number_at width bytes.now at) × (result < 256 ^ width) }
{
    let mut word = [0; WIDEST];
    word[..width].copy_from_slice(&bytes[at..at + width]);
    u64::from_le_bytes(word)
}

// The set number of variable x, read back.
pub fn set_in(out: &[u8], x: usize) -> SetNumber
    requires { set_bytes * x + set_bytes ≤ length out.now }
    ensures { result ≡ set_in out.now x }
{
    number_at(out, bounds::SET_BYTES * x, bounds::SET_BYTES)
}
