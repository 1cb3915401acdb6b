ghost use Rattle.std.specs.Prelude.{◌≡◌, ◌+◌, ◌<◌, ◌≤◌, ◌^◌, length, MatchOption};
ghost use Rattle.sheet.specs.Packing.{bodies, body, contents, packed};
ghost use Rattle.sheet.specs.Packs.{Narrow, NarrowPlaces, Packs, PacksNot, rule_at};

use super::rule_sheet::RuleSheet;

// Sheet and list come beside each other, since each function writes a part of the list of its own.
// Rules and codes are asked for only where there are such, so a reading is never none here.
// What is read by `i` is the rule after rule i: `i < rules` says that there is one, and `i < 65535` that its number has 16 bits.

// Packs any sheet into the front of a lent list, and tells how many numbers that took.
// A packing that does not fit is not begun.
pub fn pack<S: RuleSheet>(sheet: &S, out: &mut [u16]) -> Option<usize>
    ensures answer { MatchOption result (PacksNot (S.RuleSheet.meaning sheet.now) out.old out.new) (λ n. Packs (S.RuleSheet.meaning sheet.now) out.old out.new n) }
{
    let size = packed_size(sheet)?;
    if out.len() < size {
        return None;
    }
    put(sheet, &mut out[..size]);
    Some(size)
}

// How long the packing is, if each place has at most 16 bits. A sheet is read by rule numbers, so the loop counts them.
fn packed_size<S: RuleSheet>(sheet: &S) -> Option<usize>
    ensures { MatchOption result (Narrow (packed (S.RuleSheet.meaning sheet.now)) → ⊥) (λ n. (n ≡ length (packed (S.RuleSheet.meaning sheet.now))) × NarrowPlaces (S.RuleSheet.meaning sheet.now)) }
{
    let rules = sheet.rules();
    let mut at = 3 + usize::from(rules);
    for i in 0..rules {
        if at > 65535 {
            return None;
        }
        at += 2 + usize::from(sheet.length(i + 1)?);
    }
    Some(at)
}

// Writes the packing over a list of its length.
fn put<S: RuleSheet>(sheet: &S, out: &mut [u16])
    requires whole { length out.old ≡ length (packed (S.RuleSheet.meaning sheet.now)) }
    requires narrow { NarrowPlaces (S.RuleSheet.meaning sheet.now) }
    ensures { out.new ≡ packed (S.RuleSheet.meaning sheet.now) }
{
    let (counts, rest) = out.split_at_mut(3);
    counts.copy_from_slice(&[sheet.terminals(), sheet.nonterminals(), sheet.rules()]);
    let (places, behind) = rest.split_at_mut(usize::from(sheet.rules()));
    put_contents(sheet, places);
    put_bodies(sheet, behind);
}

// Writes the place of each body.
fn put_contents<S: RuleSheet>(sheet: &S, out: &mut [u16])
    requires whole { length out.old ≡ length (S.RuleSheet.meaning sheet.now).rules }
    requires narrow { NarrowPlaces (S.RuleSheet.meaning sheet.now) }
    requires small { length out.old < 2 ^ 16 }
    ensures { out.new ≡ contents (3 + length (S.RuleSheet.meaning sheet.now).rules) (S.RuleSheet.meaning sheet.now).rules }
{
    let mut at = 3 + out.len();
    for (i, place) in out.iter_mut().enumerate() {
        let Some(length) = sheet.length(i as u16 + 1) else {
            return;
        };
        *place = at as u16;
        at += 2 + usize::from(length);
    }
}

// Writes the bodies, one behind another. A sheet is read by rule numbers, so the loop counts them.
fn put_bodies<S: RuleSheet>(sheet: &S, out: &mut [u16])
    requires whole { length out.old ≡ length (bodies (S.RuleSheet.meaning sheet.now).rules) }
    ensures { out.new ≡ bodies (S.RuleSheet.meaning sheet.now).rules }
{
    let mut at = 0;
    for i in 0..sheet.rules() {
        let Some(length) = sheet.length(i + 1) else {
            return;
        };
        let end = at + 2 + usize::from(length);
        put_body(sheet, i, &mut out[at..end]);
        at = end;
    }
}

// Writes the body of the rule after rule i.
fn put_body<S: RuleSheet>(sheet: &S, i: u16, out: &mut [u16])
    requires within { i < length (S.RuleSheet.meaning sheet.now).rules }
    requires small { i < 65535 }
    requires whole { length out.old ≡ length (body (rule_at (S.RuleSheet.meaning sheet.now) i)) }
    ensures { out.new ≡ body (rule_at (S.RuleSheet.meaning sheet.now) i) }
{
    let (Some(left), Some(length)) = (sheet.left(i + 1), sheet.length(i + 1)) else {
        return;
    };
    let (head, codes) = out.split_at_mut(2);
    head.copy_from_slice(&[left, length]);
    put_codes(sheet, i, codes);
}

// Writes the codes of the rule after rule i.
fn put_codes<S: RuleSheet>(sheet: &S, i: u16, out: &mut [u16])
    requires within { i < length (S.RuleSheet.meaning sheet.now).rules }
    requires small { i < 65535 }
    requires whole { length out.old ≡ length (rule_at (S.RuleSheet.meaning sheet.now) i).right }
    requires narrow { length out.old < 2 ^ 16 }
    ensures { out.new ≡ (rule_at (S.RuleSheet.meaning sheet.now) i).right }
{
    for (k, place) in out.iter_mut().enumerate() {
        let Some(code) = sheet.code(i + 1, k as u16) else {
            return;
        };
        *place = code;
    }
}
