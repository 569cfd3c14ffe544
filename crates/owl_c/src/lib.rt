// The check of a text, for C. A lent slice passes as a pointer and then a length, a lent array as a pointer.
#![tactic(auto)]

ghost use Rattle.std.specs.Prelude.{◌≡◌};
ghost use Rattle.owl.specs.Grammar.{checked};
ghost use Rattle.owl_c.specs.C.{place_alone};

// Returns the number; the place is in the lent array.
#[tactic(auto, unfolding(crate::specs::C::place_alone))]
#[unsafe(no_mangle)]
pub extern "C" fn makrothel_owl_check(text: &[u8], place: &mut [u64; 1]) -> u32
    ensures number { result ≡ (checked text.now).number }
    ensures place { place.new ≡ place_alone (checked text.now) }
{
    match owl_text::check(text) {
        Ok(()) => {
            *place = [0];
            0
        }
        Err(refusal) => {
            *place = [refusal.place as u64];
            refusal.reason as u32
        }
    }
}
