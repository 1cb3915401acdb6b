ghost use Rattle.grammar.specs.Grammar.{Grammar};
ghost use Rattle.sheet.specs.Readings.{code_told, left_told, length_told};
ghost use Rattle.std.specs.Prelude.{◌≡◌, length};

// A rule sheet, by the grammar that it means. Reading changes nothing.
pub trait RuleSheet {
    ghost meaning: { Self → Grammar };

    // The number of terminals.
    fn terminals(&self) -> u16
        ensures { result ≡ (meaning self.now).terminals };

    // The number of nonterminals.
    fn nonterminals(&self) -> u16
        ensures { result ≡ (meaning self.now).nonterminals };

    // The number of rules.
    fn rules(&self) -> u16
        ensures { result ≡ length (meaning self.now).rules };

    // A rule's left side; rules are numbered from 1.
    fn left(&self, rule: u16) -> Option<u16>
        ensures { result ≡ left_told (meaning self.now) rule };

    // How many codes a rule has on its right.
    fn length(&self, rule: u16) -> Option<u16>
        ensures { result ≡ length_told (meaning self.now) rule };

    // The code at a place of a rule's right side, from 0.
    fn code(&self, rule: u16, place: u16) -> Option<u16>
        ensures { result ≡ code_told (meaning self.now) rule place };
}
