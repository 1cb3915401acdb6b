// What is told of a sheet that has no tables, and of a state of one that has.
use super::reason::Reason;
use super::state::State;
use std::alloc::Global;
use std::process::Abort;
use std::test::Fail;
use tables::Tables;
use written::WrittenSheet;

fn is_refused(rt: &impl Abort, heap: Global, text: &str, told: &str) -> Result<(), Fail> {
    let mut sheet = WrittenSheet::new();
    assert_eq!(rt; sheet.open(text.as_bytes()), Ok(()), "{text}");
    let mut tables = Tables::new();
    let refusal = tables.build(&sheet).err().ok_or("has tables")?;
    let sheet = &sheet;
    let reason = Reason { sheet, refusal };
    assert_eq!(rt;
        format!(in heap; "{refusal}\n{reason}")?.as_str(),
        told,
        "{text}"
    );
    Ok(())
}

#[test]
fn two_reductions(rt: HostRuntime) -> Result<(), Fail> {
    is_refused(
        &rt,
        rt.alloc(),
        r#"s : x "a" | "b" x "c" | y "c" | "b" y "a" ; x : "d" ; y : "d" ;"#,
        r#"7 2 1 reduce 5 reduce 6
in state 2, on "a" there are two actions, reduce 5 and reduce 6, by these items:
  x : "d" .
  y : "d" .
"#,
    )
}

#[test]
fn a_shift_and_a_reduction(rt: HostRuntime) -> Result<(), Fail> {
    is_refused(
        &rt,
        rt.alloc(),
        r#"e : e "plus" e | "n" ;"#,
        r#"7 4 1 shift 3 reduce 1
in state 4, on "plus" there are two actions, shift 3 and reduce 1, by these items:
  e : e . "plus" e
  e : e "plus" e .
"#,
    )
}

// Two items ask for the shift, and the item of a third action is not told.
#[test]
fn a_shift_by_two_items(rt: HostRuntime) -> Result<(), Fail> {
    is_refused(
        &rt,
        rt.alloc(),
        r#"s : "x" "y" | "x" "y" "z" | a "y" | b "y" ; a : "x" ; b : "x" ;"#,
        r#"7 1 2 shift 5 reduce 5
in state 1, on "y" there are two actions, shift 5 and reduce 5, by these items:
  s : "x" . "y"
  s : "x" . "y" "z"
  a : "x" .
"#,
    )
}

#[test]
fn accept_and_a_reduction(rt: HostRuntime) -> Result<(), Fail> {
    is_refused(
        &rt,
        rt.alloc(),
        r#"s : s | "a" ;"#,
        r#"7 2 0 accept reduce 1
in state 2, on end there are two actions, accept and reduce 1, by these items:
  : s . end
  s : s .
"#,
    )
}

#[test]
fn useless_nonterminals(rt: HostRuntime) -> Result<(), Fail> {
    is_refused(
        &rt,
        rt.alloc(),
        r#"line : line "size" ;"#,
        "5 2\nline derives no line of words\n",
    )?;
    is_refused(
        &rt,
        rt.alloc(),
        r#"line : "size" ; edit : "move" ;"#,
        "5 4\nedit derives no line of words, or is not reached from line\n",
    )
}

// 95 words in twelve right sides that share no state: one for each word, and two more.
#[test]
fn too_many_states(rt: HostRuntime) -> Result<(), Fail> {
    is_refused(
        &rt,
        rt.alloc(),
        r#"s : "a""a""a""a""a""a""a""a" | "b""b""b""b""b""b""b""b" | "c""c""c""c""c""c""c""c"
| "d""d""d""d""d""d""d""d" | "e""e""e""e""e""e""e""e" | "f""f""f""f""f""f""f""f"
| "g""g""g""g""g""g""g""g" | "h""h""h""h""h""h""h""h" | "i""i""i""i""i""i""i""i"
| "j""j""j""j""j""j""j""j" | "k""k""k""k""k""k""k""k" | "l""l""l""l""l""l""l" ;"#,
        "6\nthe sheet needs more than 96 states\n",
    )
}

fn tells_state(
    rt: &impl Abort,
    heap: Global,
    text: &str,
    number: usize,
    told: &str,
) -> Result<(), Fail> {
    let mut sheet = WrittenSheet::new();
    let mut tables = Tables::new();
    assert_eq!(rt; sheet.open(text.as_bytes()), Ok(()), "{text}");
    assert_eq!(rt; tables.build(&sheet), Ok(()), "{text}");
    let state = State {
        sheet: &sheet,
        tables: &tables,
        number,
    };
    assert_eq!(rt; state.to_string(heap)?.as_str(), told, "{text}");
    Ok(())
}

#[test]
fn a_state(rt: HostRuntime) -> Result<(), Fail> {
    tells_state(
        &rt,
        rt.alloc(),
        r#"line : edit tail ; edit : "move" "wall" ; tail : "size" tail | ;"#,
        3,
        r#"state 3
  line : edit . tail
  tail : . "size" tail
  tail : .
  on end reduce 4
  on "size" shift 5
  goto tail 6
"#,
    )
}
