// The rules of a grammar within the limits and with all codes in range, in fixed arrays.
ghost use Rattle.std.specs.Prelude.{◌≡◌, ℕ, ◌+◌, ◌*◌, ◌<◌, ◌≤◌, All, length, slice_index};

// `left` and `size` go by rule number, and rule 0, which is the start alone, has no left side. They are two arrays, since all lengths are read before the first left side: limits come before ranges.
// `right` goes by item: at 9 * rule + dot is the code behind the dot, or 0 at the end, which is the end mark and in no right side. All right sides lie in this one array, since sets of items and the proofs speak of that place.
#[derive(Clone, Copy)]
pub struct Rules {
    pub terminals: u8,
    pub nonterminals: u8,
    pub count: u8,
    pub left: [u8; 97],
    pub size: [u8; 97],
    pub right: [u8; 873],
    ghost terminals1: { 1 ≤ terminals },
    ghost terminals63: { terminals ≤ 63 },
    ghost nonterminals1: { 1 ≤ nonterminals },
    ghost nonterminals24: { nonterminals ≤ 24 },
    ghost count1: { 1 ≤ count },
    ghost count96: { count ≤ 96 },
    ghost leftlength: { length left ≡ 97 },
    ghost sizelength: { length size ≡ 97 },
    ghost rightlength: { length right ≡ 873 },
    ghost short: { (r : ℕ) → slice_index size r ≤ 8 },
    ghost lefts: { (r : ℕ) → 1 ≤ r → r ≤ count → terminals < slice_index left r },
    ghost leftsbelow: { (r : ℕ) → slice_index left r ≤ terminals + nonterminals },
    ghost inside: { (r d : ℕ) → r ≤ count → d < slice_index size r → 1 ≤ slice_index right (9 * r + d) },
    ghost ended: { (r d : ℕ) → slice_index size r ≤ d → d < 9 → slice_index right (9 * r + d) ≤ 0 },
    ghost past: { (r : ℕ) → count < r → slice_index size r ≡ 0 },
    ghost below: { (i : ℕ) → slice_index right i ≤ terminals + nonterminals },
    ghost firstsize: { slice_index size 0 ≡ 1 },
    ghost firstcode: { slice_index right 0 ≡ terminals + 1 },
}

impl Rules {
    ghost use Rattle.tables.specs.Arrays.{codes_at};

    // The codes on the right of a rule. A rule is asked for by its number, so what reads by one asks that it is a rule's.
    pub(crate) fn codes(&self, r: usize) -> &[u8]
        requires { r ≤ 96 }
        ensures codes { result.now ≡ codes_at self.now r }
        ensures below { All (λ code. code < 88) result.now }
    {
        &self.right[9 * r..9 * r + usize::from(self.size[r])]
    }
}
