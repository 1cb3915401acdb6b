use std::fmt;

// What a table tells the machine to do in a state, at a word or the end mark.
#[derive(Clone, Copy, PartialEq, Eq, Debug)]
pub enum Action {
    // go on to this state, with the word taken
    Shift(u8),
    // the line is a sentence
    Accept,
    // put the rule's left side in the place of its right side
    Reduce(u8),
}

impl fmt::Display for Action {
    ghost use Rattle.std.specs.Prelude.{Some};
    ghost use Rattle.grammar.specs.Texts.{action_text};

    ghost output = { λ a. Some (action_text a) };

    fn fmt<W: fmt::Write>(&self, f: &mut fmt::Formatter<W>) -> fmt::Result {
        match self {
            Action::Shift(state) => write!(f, "shift {state}"),
            Action::Accept => write!(f, "accept"),
            Action::Reduce(rule) => write!(f, "reduce {rule}"),
        }
    }
}
