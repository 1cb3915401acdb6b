// The numbered states, in fixed arrays.
ghost use Rattle.std.specs.Prelude.{◌≡◌, ◌≤◌, length, replicate};

// `sets` goes by state, and then by item, 9 * rule + dot. `gotos` is flat: where a state leads by a code stands at 88 * state + code, which is where the definitions of `grammar` look for it in one list.
// Two arrays and not one of states, since those definitions and their proofs read sets and gotos as two lists.
// No option stands for nowhere: any number that is no state's is read as nowhere, by the one test that a goto needs anyway, and 255 is such a number.
#[derive(Drop)]
pub struct States {
    pub count: usize,
    pub sets: [[bool; 873]; 96],
    pub gotos: [u8; 8448],
    ghost few: { count ≤ 96 },
    ghost setslength: { length sets ≡ 96 },
    ghost gotoslength: { length gotos ≡ 8448 },
}

impl States {
    // No states yet.
    pub(crate) fn new() -> States {
        States {
            count: 0,
            sets: [[false; 873]; 96],
            gotos: [0; 8448],
        }
    }
}
