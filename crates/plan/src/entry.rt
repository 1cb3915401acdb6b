// The entry of a judged line: the designer, the number of words, the number of rules, the words and
// the rules.
ghost use Rattle.bounded.specs.BoundedList.{listed};
ghost use Rattle.plan.specs.Entries.{entry};
ghost use Rattle.std.specs.Prelude.{◌≡◌, ◌+◌, ◌++◌, ◌≤◌, length};

use bounded::BoundedList;

// At most 3 numbers, 256 words and 768 rules.
pub(crate) type Entry = BoundedList<u16, 1027>;

// The entry of a line with these words and rules.
pub(crate) fn entry_of(designer: u8, words: &[u8], rules: &[u8]) -> Entry
    requires words { length words.now ≤ 256 }
    requires rules { length rules.now ≤ 768 }
    ensures { listed result ≡ entry designer words.now rules.now }
{
    let mut entry = Entry::new(0);
    let head = [u16::from(designer), words.len() as u16, rules.len() as u16];
    let pushed = entry.extend_from_slice(&head);
    prove!(pushed.is_ok());
    append(&mut entry, words);
    append(&mut entry, rules);
    entry
}

// Puts the codes behind what the entry has, which leaves room for them.
fn append(entry: &mut Entry, codes: &[u8])
    requires { length (listed entry.old) + length codes.now ≤ 1027 }
    ensures { listed entry.new ≡ listed entry.old ++ codes.now }
{
    for code in codes {
        let pushed = entry.push(u16::from(*code));
        prove!(pushed.is_ok());
    }
}
