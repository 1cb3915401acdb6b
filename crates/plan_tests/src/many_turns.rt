// Long runs of turns at random on two plans with slips in common, each answer compared with an account.
use super::account::{Account, ROOM};
use super::fixtures::{tables_of, told};
use super::language::Language;
use book::{Book, NumberPage};
use line::TurnRefusal;
use plan::{Plan, Slip};
use std::mem::replace;
use std::process::Abort;

// Numbers by shifting and mixing the bits of the last one.
#[derive(Drop)]
struct Random {
    last: u32,
}

impl Random {
    fn next(&mut self) -> u32 {
        self.last ^= self.last << 13;
        self.last ^= self.last >> 17;
        self.last ^= self.last << 5;
        self.last
    }

    // Mostly one of the eight; now and then a designer who has no line.
    fn designer(&mut self) -> u8 {
        let designer = (self.next() % 256) as u8;
        if self.next() % 32 == 0 {
            designer
        } else {
            designer % 8
        }
    }
}

// A plan with its account, and by number the refusals that came.
#[derive(Drop)]
struct Tried<'a> {
    plan: Plan<NumberPage<'a>>,
    account: Account,
    refused: [bool; 16],
}

impl<'a> Tried<'a> {
    fn open(rt: &impl Abort, language: Language, memory: &'a mut [u16]) -> Tried<'a> {
        Tried {
            plan: Plan::open(tables_of(rt, language.sheet()), NumberPage::open(memory)),
            account: Account::new(language),
            refused: [false; 16],
        }
    }

    // Remembers a refusal.
    fn refuse(&mut self, refusal: TurnRefusal) {
        if let Some(refused) = self.refused.get_mut(usize::from(refusal.number())) {
            *refused = true;
        }
    }

    // Whether refusals of all these numbers came.
    fn all_came(&self, numbers: &[usize]) -> bool {
        numbers
            .iter()
            .all(|number| self.refused.get(*number) == Some(&true))
    }

    // Brings a word, and tells whether it was taken.
    fn word(&mut self, rt: &impl Abort, designer: u8, word: u16) -> bool {
        let answer = self.plan.word(designer, word);
        assert_eq!(rt;
            answer,
            self.account.word(designer, word),
            "word {word} of designer {designer}"
        );
        if let Err(refusal) = answer {
            self.refuse(refusal);
        }
        answer.is_ok()
    }

    // Brings a word again and again until it is refused.
    fn words(&mut self, rt: &impl Abort, designer: u8, word: u16, times: u32) {
        for _ in 0..times {
            if !self.word(rt, designer, word) {
                return;
            }
        }
    }

    fn clear(&mut self, rt: &impl Abort, designer: u8) {
        assert_eq!(rt;
            self.plan.clear(designer),
            self.account.freshen(designer, false),
            "clear of designer {designer}"
        );
    }

    // Judges a line, and gives out its slip if there is one.
    fn judge(&mut self, rt: &impl Abort, designer: u8) -> Option<Slip> {
        let wanted = self.account.judge(designer);
        match self.plan.judge(designer) {
            Ok(slip) => {
                assert_eq!(rt; Ok(told(&slip)), wanted, "judging of designer {designer}");
                Some(slip)
            }
            Err(refusal) => {
                assert_eq!(rt; Err(refusal), wanted, "judging of designer {designer}");
                self.refuse(refusal);
                None
            }
        }
    }

    // Books a slip, and gives it back if it is refused.
    fn book(&mut self, rt: &impl Abort, slip: Slip) -> Option<Slip> {
        let tells = told(&slip);
        let wanted = self.account.book(slip.designer());
        match self.plan.book(slip) {
            Ok(count) => {
                assert_eq!(rt; Ok(count), wanted, "booking of {tells:?}");
                None
            }
            Err((refusal, slip)) => {
                assert_eq!(rt; Err(refusal), wanted, "booking of {tells:?}");
                assert_eq!(rt; told(&slip), tells);
                self.refuse(refusal);
                Some(slip)
            }
        }
    }

    // Withdraws a slip, and gives it back if it is refused.
    fn withdraw(&mut self, rt: &impl Abort, slip: Slip) -> Option<Slip> {
        let tells = told(&slip);
        let wanted = self.account.freshen(slip.designer(), true);
        match self.plan.withdraw(slip) {
            Ok(()) => {
                assert_eq!(rt; Ok(()), wanted, "withdrawal of {tells:?}");
                None
            }
            Err((refusal, slip)) => {
                assert_eq!(rt; Err(refusal), wanted, "withdrawal of {tells:?}");
                assert_eq!(rt; told(&slip), tells);
                Some(slip)
            }
        }
    }

    // A turn with a slip if there is one; else a line is judged for one.
    fn with_slip(
        &mut self,
        rt: &impl Abort,
        random: &mut Random,
        slip: Option<Slip>,
    ) -> Option<Slip> {
        match slip {
            None => self.judge(rt, random.designer()),
            Some(slip) if random.next() % 8 == 0 => self.withdraw(rt, slip),
            Some(slip) => self.book(rt, slip),
        }
    }

    // A turn without a slip.
    fn without_slip(&mut self, rt: &impl Abort, random: &mut Random) {
        let designer = random.designer();
        let word = (random.next() % 5) as u16;
        match random.next() % 32 {
            0 => self.clear(rt, designer),
            1 | 2 => self.words(rt, designer, word, random.next() % 999),
            _ => {
                self.word(rt, designer, word);
            }
        }
    }

    // Whether the page holds just what was booked.
    fn is_written(&self) -> bool {
        self.plan.page().numbers() == self.account.numbers()
            && self.plan.page().free() as usize == self.account.free()
    }
}

// Puts a slip into an empty place.
fn put(rt: &impl Abort, place: &mut Option<Slip>, slip: Option<Slip>) {
    match replace(place, slip) {
        None => {}
        Some(_slip) => panic!(rt; "a slip is there"),
    }
}

// One turn on either plan, which may have a slip of the other.
fn turn(
    rt: &impl Abort,
    random: &mut Random,
    tried: &mut Tried<'_>,
    slips: &mut [Option<Slip>; 8],
) {
    if random.next() % 4 != 0 {
        tried.without_slip(rt, random);
        return;
    }
    let place = &mut slips[(random.next() % 8) as usize];
    let slip = tried.with_slip(rt, random, place.take());
    put(rt, place, slip);
}

// Withdraws a slip on the one plan or on the other: as many lines are judged as slips are out.
fn spend(rt: &impl Abort, here: &mut Tried<'_>, there: &mut Tried<'_>, slip: Option<Slip>) {
    let slip = slip.and_then(|slip| here.withdraw(rt, slip));
    let slip = slip.and_then(|slip| there.withdraw(rt, slip));
    match slip {
        None => {}
        Some(_slip) => panic!(rt; "a slip is out without a line"),
    }
}

// One of two plans.
fn either<'x, 'a>(
    here: &'x mut Tried<'a>,
    there: &'x mut Tried<'a>,
    first: bool,
) -> &'x mut Tried<'a> {
    if first { here } else { there }
}

// Many turns, after which these refusals have come and both pages hold what was booked.
fn run(rt: &impl Abort, language: Language, seed: u32, refusals: &[usize]) {
    let (mut one, mut other) = ([77; ROOM], [77; ROOM]);
    let mut here = Tried::open(rt, language, &mut one);
    let mut there = Tried::open(rt, language, &mut other);
    let mut slips = [None, None, None, None, None, None, None, None];
    let mut random = Random { last: seed };
    for _ in 0..12000 {
        let first = random.next() % 2 == 0;
        let tried = either(&mut here, &mut there, first);
        turn(rt, &mut random, tried, &mut slips);
    }
    let [a, b, c, d, e, f, g, h] = slips;
    spend(rt, &mut here, &mut there, a);
    spend(rt, &mut here, &mut there, b);
    spend(rt, &mut here, &mut there, c);
    spend(rt, &mut here, &mut there, d);
    spend(rt, &mut here, &mut there, e);
    spend(rt, &mut here, &mut there, f);
    spend(rt, &mut here, &mut there, g);
    spend(rt, &mut here, &mut there, h);
    assert!(rt; here.is_written() && there.is_written());
    assert!(rt; here.all_came(refusals) && there.all_came(refusals));
}

#[test]
fn turns_on_edits(rt: HostRuntime) {
    run(&rt, Language::Edits, 2463534242, &[9, 10, 11, 12, 14, 15]);
}

#[test]
fn turns_on_pairs(rt: HostRuntime) {
    run(&rt, Language::Pairs, 88675123, &[9, 10, 11, 12, 14, 15]);
}

// Lines of 192 words and more are not judged, for their steps; no word of the sheet is refused for another cause than a full line.
#[test]
fn turns_on_orders(rt: HostRuntime) {
    run(&rt, Language::Orders, 521288629, &[9, 10, 11, 12, 13, 15]);
}
