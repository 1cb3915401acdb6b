// A designer's line, in fixed arrays.
ghost use Rattle.std.specs.Prelude.{◌≡◌, ◌+◌, ◌≤◌, length};

use super::status::Status;

// `states` has its top at depth - 1. Each state but the first came with a word or a noted rule, so
// that 1025 places suffice.
// The three arrays with their counts are how the project lays out a line in fixed memory.
#[derive(Clone, Copy)]
pub struct Line {
    pub(crate) states: [u8; 1025],
    pub(crate) depth: usize,
    pub(crate) words: [u8; 256],
    pub(crate) count: usize,
    pub(crate) rules: [u8; 768],
    pub(crate) steps: usize,
    pub(crate) status: Status,
    ghost stateslength: { length states ≡ 1025 },
    ghost wordslength: { length words ≡ 256 },
    ghost ruleslength: { length rules ≡ 768 },
    ghost count256: { count ≤ 256 },
    ghost steps768: { steps ≤ 768 },
    ghost depth1: { 1 ≤ depth },
    ghost deep: { depth ≤ 1 + count + steps },
}
