// Spellings by first appearance, each a part of a text.
ghost use Rattle.std.specs.Iterator.{IsFinite};
ghost use Rattle.std.specs.List.{slice_get};
ghost use Rattle.std.specs.Prelude.{◌≡◌, ◌<◌, ◌≤◌, IfSome, length, []};
ghost use Rattle.written.specs.NamesOf.{word_code_told};
ghost use Rattle.written.specs.Spelled.{Collects, Noted, bytes_of, place_in, spelled};

use bounded::{BoundedList, Full};

// Up to 63 different spellings.
#[derive(Clone, Copy)]
pub struct Spellings<'a> {
    items: BoundedList<&'a [u8], 63>,
}

impl<'a> Spellings<'a> {
    // No spelling yet.
    pub(crate) fn new() -> Spellings<'a>
        ensures { spelled result ≡ [] }
    {
        Spellings {
            items: BoundedList::new(b""),
        }
    }

    // The spellings that come, each once; full where there are more than 63.
    pub(crate) fn distinct<I: Iterator<Item = &'a [u8]>>(all: I) -> Result<Spellings<'a>, Full>
        requires can { I.can_next all }
        requires ends { IsFinite (I.remaining all) }
        ensures { Collects I.next_gives all result }
    {
        let mut out = Spellings::new();
        for spelling in all {
            out.note(spelling)?;
        }
        Ok(out)
    }

    pub(crate) fn len(&self) -> usize
        ensures value { result ≡ length (spelled self.now) }
        ensures few { result ≤ 63 }
    {
        self.items.len()
    }

    // The spelling with this number, from 0.
    pub(crate) fn get(&self, i: usize) -> Option<&'a [u8]>
        ensures { bytes_of result ≡ slice_get (spelled self.now) i }
    {
        self.items.get(i)
    }

    // The number of the spelling, from 0, if it is there.
    fn position(&self, spelling: &[u8]) -> Option<usize>
        ensures value { result ≡ place_in (spelled self.now) spelling.now }
        ensures few { IfSome result (λ i. i < 63) }
    {
        self.items
            .as_slice()
            .iter()
            .position(|item| spelling == *item)
    }

    // The number of the spelling, from 1 as codes are, if it is there.
    pub(crate) fn number(&self, spelling: &[u8]) -> Option<u16>
        ensures value { result ≡ word_code_told (spelled self.now) spelling.now }
        ensures few { IfSome result (λ n. n ≤ 63) }
    {
        self.position(spelling).map(|at| 1 + at as u16)
    }

    // One more spelling, unless it is there already.
    fn note(&mut self, spelling: &'a [u8]) -> Result<(), Full>
        ensures { Noted result (spelled self.old) spelling.entry.now (spelled self.new) }
    {
        if self.position(spelling).is_some() {
            return Ok(());
        }
        self.items.push(spelling)
    }
}
