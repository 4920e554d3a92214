// Walsh's order of bounded compositions (document 01, "Walsh's order"). The order and its laws are in specs/ and proofs/; what runs here says which
// way a part's values go: rising, or falling where the sum to the right is odd.
#![tactic(auto)]

ghost use Rattle.std.specs.Prelude.{◌≡◌};
ghost use Rattle.walsh.specs.Order.{is_odd};
ghost use Rattle.walsh.specs.Step.{first_value};

// Document 02, request (i): the kind that gains a unit and the kind that loses one, counted from 1; 0 and 0 where there is no step. (No `Option`: the document
// and C write the two numbers, and specs/Transition speaks of them.)
#[derive(Clone, Copy, Debug, PartialEq, Eq)]
pub struct Transition {
    pub gain: u32,
    pub loss: u32,
}

pub fn is_odd(t: usize) -> bool
    ensures { result ≡ is_odd t }
{
    t % 2 == 1
}

// The first of the values lo..hi.
pub fn first_value(lo: usize, hi: usize, falling: bool) -> usize
    ensures { result ≡ first_value lo hi falling }
{
    if falling { hi } else { lo }
}
