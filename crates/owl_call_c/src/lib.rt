// The call for C, for the runs. A lent slice passes as a pointer and then a length, a lent array as a pointer.
#![tactic(auto)]

ghost use Rattle.owl_call_c.specs.C.{OwlIn};

// Returns the number; the count and the place are in the lent array, and the buffer is as `owl` leaves it.
#[unsafe(no_mangle)]
pub extern "C" fn makrothel_owl(text: &[u8], out: &mut [u8], numbers: &mut [u64; 2]) -> u32
    ensures { OwlIn text.now out.old result numbers.new out.new }
{
    let a = owl_call::owl(text, out);
    *numbers = [a.count as u64, a.place as u64];
    a.number
}
