// The cells of one state as they are filled, by rising rule.
ghost use Rattle.std.specs.Prelude.{◌≡◌, ◌<◌, ◌≤◌, IfErr, IfOk};
ghost use Rattle.grammar.specs.Refusals.{conflict};
ghost use Rattle.tables.specs.BuildRefusals.{told};
ghost use Rattle.tables.specs.Rows.{entered, reduced};
ghost use Rattle.tables.specs.declared.conflict.Conflict.{Conflict};

use super::build_refusal::BuildRefusal;
use super::conflict::{Conflict, lowest};
use gather::WordSet;
use grammar::Action;

// By word: the first action of each cell. And the lowest word with two, with its first two.
#[derive(Clone, Copy)]
pub struct Row {
    pub cells: [Option<Action>; 64],
    pub conflict: Option<Conflict>,
}

impl Row {
    // Enters the reduction by a rule at a word, where nothing else is, or notes the conflict.
    fn enter(&mut self, word: u8, rule: u8)
        requires { word < 64 }
        ensures { self.new ≡ entered word rule self.old }
    {
        let second = Action::Reduce(rule);
        let cell = &mut self.cells[usize::from(word)];
        match *cell {
            None => *cell = Some(second),
            Some(first) => {
                let more = Conflict {
                    word,
                    first,
                    second,
                };
                self.conflict = lowest(self.conflict, more);
            }
        }
    }

    // Enters the reduction by a rule at the words of its lookahead below `words`.
    pub(crate) fn reduce(&mut self, rule: u8, lookahead: WordSet, words: u8)
        requires { words ≤ 64 }
        ensures { self.new ≡ reduced lookahead rule words self.old }
    {
        // By number: the set is asked by the word, and a conflict tells it.
        for word in 0..words {
            if lookahead.has(usize::from(word)) {
                self.enter(word, rule);
            }
        }
    }

    // The cells, or the conflict, as one of this state.
    pub(crate) fn settled(self, state: u8) -> Result<[Option<Action>; 64], BuildRefusal>
        ensures cells { IfOk result (λ cells. (self.conflict ≡ None) × (cells ≡ self.cells)) }
        ensures conflict { IfErr result (λ e.
            (k : Conflict)
            × (self.conflict ≡ Some k)
            × (told e ≡ conflict state k.word k.first k.second)) }
    {
        match self.conflict {
            None => Ok(self.cells),
            Some(conflict) => Err(BuildRefusal::Conflict {
                state,
                word: conflict.word,
                first: conflict.first,
                second: conflict.second,
            }),
        }
    }
}
