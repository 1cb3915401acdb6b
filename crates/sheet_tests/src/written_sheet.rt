// What opening a written sheet tells.
use std::alloc::{AllocError, Global};
use std::process::Abort;
use std::test::Fail;
use written::WrittenRefusal::{Form, Limits};
use written::{WrittenRefusal, WrittenSheet};

fn opened(text: &[u8]) -> Result<(), WrittenRefusal> {
    let mut sheet = WrittenSheet::new();
    sheet.open(text)
}

// Each text, with what its opening tells.
fn all_told(rt: &impl Abort, cases: &[(&str, Result<(), WrittenRefusal>)]) {
    for (text, answer) in cases {
        assert_eq!(rt; opened(text.as_bytes()), *answer, "{}", *text);
    }
}

#[test]
fn what_cannot_stand_is_told(rt: HostRuntime) {
    all_told(
        &rt,
        &[
            ("?", Err(Form { place: 0 })),
            (":", Err(Form { place: 0 })),
            ("\"a\" : ;", Err(Form { place: 0 })),
            ("li9ne : ;", Err(Form { place: 2 })),
            ("line edit : ;", Err(Form { place: 5 })),
            ("line ; ", Err(Form { place: 5 })),
            ("line | ;", Err(Form { place: 5 })),
            ("line \"a\" ;", Err(Form { place: 5 })),
            ("line : 9 ;", Err(Form { place: 7 })),
            ("line : : ;", Err(Form { place: 7 })),
            ("line : edit : ;", Err(Form { place: 12 })),
            ("a:b:c;", Err(Form { place: 3 })),
            ("a : ; ;", Err(Form { place: 6 })),
            ("a : \"\" ;", Err(Form { place: 5 })),
            ("a : \"b c\" ;", Err(Form { place: 6 })),
            ("a : \"b\nc\" ;", Err(Form { place: 6 })),
        ],
    );
}

#[test]
fn other_bytes_stand_nowhere(rt: HostRuntime) {
    all_told(
        &rt,
        &[
            ("\0", Err(Form { place: 0 })),
            ("a\0: \"b\" ;", Err(Form { place: 1 })),
            ("a\t: \"b\" ;", Err(Form { place: 1 })),
            ("a : \"b\" ;\r\n", Err(Form { place: 9 })),
            ("a : \u{e9} ;", Err(Form { place: 4 })),
            ("a : \"\u{e9}\" ;", Err(Form { place: 5 })),
            ("a : \"b\t\" ;", Err(Form { place: 6 })),
            ("a : \"\0\" ;", Err(Form { place: 5 })),
            ("a : \"\x7f\" ;", Err(Form { place: 5 })),
            ("a : \"!#~\" ;\n", Ok(())),
        ],
    );
}

#[test]
fn an_early_end_is_told_as_the_length(rt: HostRuntime) {
    all_told(
        &rt,
        &[
            ("line", Err(Form { place: 4 })),
            ("line \n", Err(Form { place: 6 })),
            ("line :", Err(Form { place: 6 })),
            ("line : \n ", Err(Form { place: 9 })),
            ("line : edit", Err(Form { place: 11 })),
            ("line : edit  ", Err(Form { place: 13 })),
            ("line : \"", Err(Form { place: 8 })),
            ("line : \"mo", Err(Form { place: 10 })),
            ("line : \"move\"", Err(Form { place: 13 })),
            ("line : \"move\" |", Err(Form { place: 15 })),
            ("a : \"b\" ; c", Err(Form { place: 11 })),
        ],
    );
}

#[test]
fn names_come_behind_the_form_and_before_the_limits(rt: HostRuntime) {
    all_told(
        &rt,
        &[
            ("a : b \"c\" ;", Err(Form { place: 4 })),
            ("a : a \"c\" d e ;", Err(Form { place: 10 })),
            ("a : \"b\" b ;", Err(Form { place: 8 })),
            ("a : \"b\" A ;", Err(Form { place: 8 })),
            ("a : b ; ?", Err(Form { place: 8 })),
            ("a : ? b ;", Err(Form { place: 4 })),
            ("a : b ;", Err(Form { place: 4 })),
            ("", Err(Limits)),
            (" \n", Err(Limits)),
            ("a : ;", Err(Limits)),
            ("a : b ; b : a | ;", Err(Limits)),
            ("a:b|\"c\";b:a\"d\";", Ok(())),
        ],
    );
}

// A text of a front, some parts and an end. In each part `#` stands for two letters of its own.
#[derive(Clone, Copy)]
struct Pattern<'a> {
    front: &'a str,
    part: &'a str,
    end: &'a str,
}

fn put_part(text: &mut Vec<u8>, part: &[u8], i: u8) -> Result<(), AllocError> {
    for b in part {
        if *b == b'#' {
            text.push(b'a' + i / 26)?;
            text.push(b'a' + i % 26)?;
        } else {
            text.push(*b)?;
        }
    }
    Ok(())
}

// What is told where there are so many parts.
fn told_with(
    heap: Global,
    pattern: Pattern<'_>,
    parts: u8,
) -> Result<Result<(), WrittenRefusal>, AllocError> {
    let mut text = Vec::new(heap);
    put_part(&mut text, pattern.front.as_bytes(), 0)?;
    // The number of a part is written into it.
    for i in 0..parts {
        put_part(&mut text, pattern.part.as_bytes(), i)?;
    }
    put_part(&mut text, pattern.end.as_bytes(), 0)?;
    Ok(opened(&text))
}

// The most parts that open, and what one more tells.
fn most(
    rt: &impl Abort,
    heap: Global,
    pattern: Pattern<'_>,
    parts: u8,
    past: WrittenRefusal,
) -> Result<(), Fail> {
    assert_eq!(rt;
        told_with(heap, pattern, parts)?,
        Ok(()),
        "{}",
        pattern.part
    );
    assert_eq!(rt;
        told_with(heap, pattern, parts.saturating_add(1))?,
        Err(past),
        "{}",
        pattern.part
    );
    Ok(())
}

#[test]
fn limits_on_both_sides(rt: HostRuntime) -> Result<(), Fail> {
    let heap = rt.alloc();
    most(
        &rt,
        heap,
        Pattern {
            front: "a:",
            part: "\"#\"|",
            end: ";",
        },
        63,
        Limits,
    )?;
    most(
        &rt,
        heap,
        Pattern {
            front: "",
            part: "#:\"b\";",
            end: "",
        },
        24,
        Limits,
    )?;
    most(
        &rt,
        heap,
        Pattern {
            front: "a:\"b\"",
            part: "|",
            end: ";",
        },
        95,
        Limits,
    )?;
    most(
        &rt,
        heap,
        Pattern {
            front: "a:",
            part: "\"b\"",
            end: ";",
        },
        8,
        Limits,
    )?;
    most(
        &rt,
        heap,
        Pattern {
            front: "a:\"b\"|",
            part: "a ",
            end: ";",
        },
        8,
        Limits,
    )?;
    most(
        &rt,
        heap,
        Pattern {
            front: "",
            part: "a",
            end: ":\"b\";",
        },
        24,
        Form { place: 24 },
    )?;
    most(
        &rt,
        heap,
        Pattern {
            front: "a:\"",
            part: "b",
            end: "\";",
        },
        24,
        Form { place: 27 },
    )
}

#[test]
fn form_and_names_come_before_limits(rt: HostRuntime) -> Result<(), Fail> {
    let heap = rt.alloc();
    let words = Pattern {
        front: "a:",
        part: "\"#\"|",
        end: ";?",
    };
    assert_eq!(rt;
        told_with(heap, words, 64)?,
        Err(Form { place: 323 }),
        "a fault behind too many words"
    );
    let name = Pattern {
        front: "a:",
        part: "\"#\"|",
        end: "b;",
    };
    assert_eq!(rt;
        told_with(heap, name, 64)?,
        Err(Form { place: 322 }),
        "a name behind too many words"
    );
    let long = Pattern {
        front: "a:",
        part: "b",
        end: ";",
    };
    assert_eq!(rt;
        told_with(heap, long, 24)?,
        Err(Form { place: 2 }),
        "24 letters that head nothing"
    );
    assert_eq!(rt;
        told_with(heap, long, 25)?,
        Err(Form { place: 26 }),
        "a 25th letter"
    );
    Ok(())
}
