// Reads a rule sheet into arrays, if it is within the limits and all codes are in range.
ghost use Rattle.std.specs.Prelude.{◌≡◌, suc, ◌+◌, ◌≤◌, MatchResult, length};
ghost use Rattle.grammar.specs.Grammar.{AllCodes, right_side};
ghost use Rattle.grammar.specs.Outcome.{Within};
ghost use Rattle.grammar.specs.Refusals.{range};
ghost use Rattle.tables.specs.Admitted.{Admitted};
ghost use Rattle.tables.specs.BuildRefusals.{told};
ghost use Rattle.tables.specs.SheetArrays.{Lengths, Measured};

use super::build_refusal::BuildRefusal;
use super::rules::Rules;
use sheet::RuleSheet;

// Rules and codes are asked for only where there are such, so none is never told; a sheet that
// told none there would be refused.

// The lengths of the right sides by rule, with that of rule 0, of a sheet within the limits.
fn lengths<S: RuleSheet>(sheet: &S) -> Result<[u8; 97], BuildRefusal>
    ensures { Measured (S.RuleSheet.meaning sheet.now) result }
{
    let terminals = sheet.terminals();
    let nonterminals = sheet.nonterminals();
    let rules = sheet.rules();
    if terminals == 0 || nonterminals == 0 || rules == 0 {
        return Err(BuildRefusal::Limits);
    }
    if terminals > 63 || nonterminals > 24 || rules > 96 {
        return Err(BuildRefusal::Limits);
    }
    let mut size = [0; 97];
    size[0] = 1;
    // A sheet is asked for its rules by their numbers.
    for rule in 1..rules + 1 {
        let Some(length) = sheet.length(rule) else {
            return Err(BuildRefusal::Limits);
        };
        if length > 8 {
            return Err(BuildRefusal::Limits);
        }
        size[usize::from(rule)] = length as u8;
    }
    Ok(size)
}

// Writes the codes of a rule; refused if one is not from 1 to `top`.
fn codes<S: RuleSheet>(sheet: &S, rule: u16, top: u16, right: &mut [u8]) -> Result<(), BuildRefusal>
    requires rule { 1 ≤ rule }
    requires size { (length right.old ≡ length (right_side (S.RuleSheet.meaning sheet.now) rule)) × (length right.old ≤ 8) }
    requires top { (top ≡ (S.RuleSheet.meaning sheet.now).terminals + (S.RuleSheet.meaning sheet.now).nonterminals) × (top ≤ 87) }
    ensures { let G = S.RuleSheet.meaning sheet.now in
        MatchResult result
        (λ _. (right.new ≡ right_side G rule) × AllCodes G (right_side G rule))
        (λ e. (told e ≡ range rule) × (AllCodes G (right_side G rule) → ⊥)) }
{
    for (place, held) in right.iter_mut().enumerate() {
        let Some(code) = sheet.code(rule, place as u16) else {
            return Err(BuildRefusal::Range { rule });
        };
        if code == 0 || code > top {
            return Err(BuildRefusal::Range { rule });
        }
        *held = code as u8;
    }
    Ok(())
}

// The rules with these lengths; refused with the lowest that has a code out of range.
fn sides<S: RuleSheet>(sheet: &S, size: [u8; 97]) -> Result<Rules, BuildRefusal>
    requires within { Within (S.RuleSheet.meaning sheet.now) }
    requires lengths { Lengths (S.RuleSheet.meaning sheet.now) (suc (length (S.RuleSheet.meaning sheet.now).rules)) size }
    ensures { Admitted (S.RuleSheet.meaning sheet.now) result }
{
    let terminals = sheet.terminals();
    let top = terminals + sheet.nonterminals();
    let mut left = [0; 97];
    let mut right = [0; 873];
    right[0] = terminals as u8 + 1;
    // By rule numbers, as above.
    for rule in 1..sheet.rules() + 1 {
        let Some(side) = sheet.left(rule) else {
            return Err(BuildRefusal::Range { rule });
        };
        if side <= terminals || side > top {
            return Err(BuildRefusal::Range { rule });
        }
        let r = usize::from(rule);
        left[r] = side as u8;
        codes(
            sheet,
            rule,
            top,
            &mut right[9 * r..9 * r + usize::from(size[r])],
        )?;
    }
    Ok(Rules {
        terminals: terminals as u8,
        nonterminals: (top - terminals) as u8,
        count: sheet.rules() as u8,
        left,
        size,
        right,
    })
}

// The rules of a sheet. Limits are looked at before ranges, and the lowest rule out of range is told.
pub(crate) fn read<S: RuleSheet>(sheet: &S) -> Result<Rules, BuildRefusal>
    ensures { Admitted (S.RuleSheet.meaning sheet.now) result }
{
    let size = lengths(sheet)?;
    sides(sheet, size)
}
