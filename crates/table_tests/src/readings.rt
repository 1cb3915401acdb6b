// What tables tell inside their numbers and outside.
use super::table::{SAMPLE, built, written};
use tables::Tables;

// The items of each state of sheet A: a rule and a dot.
static ITEMS: [&[(usize, usize)]; 8] = [
    &[(0, 0), (1, 0), (2, 0)],
    &[(2, 1)],
    &[(0, 1)],
    &[(1, 1), (3, 0), (4, 0)],
    &[(2, 2)],
    &[(3, 0), (3, 1), (4, 0)],
    &[(1, 2)],
    &[(3, 2)],
];

fn has_just(tables: &Tables, state: usize, items: &[(usize, usize)]) -> bool {
    (0..98).all(|rule| {
        (0..10).all(|dot| tables.has_item(state, rule, dot) == items.contains(&(rule, dot)))
    })
}

#[test]
fn states_have_their_items(rt: HostRuntime) {
    let tables = built(&rt, &written(&rt, SAMPLE));
    for (state, items) in ITEMS.iter().enumerate() {
        assert!(rt; has_just(&tables, state, items), "state {state}");
    }
    for state in [8, 95, 96, usize::MAX] {
        assert!(rt; has_just(&tables, state, &[]), "state {state}");
    }
    assert!(rt; !tables.has_item(0, usize::MAX, 0) && !tables.has_item(0, 0, usize::MAX));
}

#[test]
fn rules_have_their_left_sides_and_lengths(rt: HostRuntime) {
    let tables = built(&rt, &written(&rt, SAMPLE));
    assert_eq!(rt;
        (tables.terminals(), tables.nonterminals(), tables.rules()),
        (3, 3, 4)
    );
    for (rule, left, length) in [(1, 4, 2), (2, 5, 2), (3, 6, 2), (4, 6, 0)] {
        assert_eq!(rt;
            (tables.left(rule), tables.length(rule)),
            (Some(left), Some(length)),
            "rule {rule}"
        );
    }
    for rule in [0, 5, 96, 97, usize::MAX] {
        assert_eq!(rt;
            (tables.left(rule), tables.length(rule)),
            (None, None),
            "rule {rule}"
        );
    }
}

// Where all states lie in one array, 90 of state 0 would be 2 of state 1.
#[test]
fn outside_there_are_no_cells_and_gotos(rt: HostRuntime) {
    let tables = built(&rt, &written(&rt, SAMPLE));
    for code in [0, 7, 87, 88, 90, 7680, usize::MAX] {
        assert_eq!(rt; tables.goto(0, code), None, "code {code}");
    }
    for word in [4, 5, 63, 64, 66, usize::MAX] {
        assert_eq!(rt; tables.cell(0, word), None, "word {word}");
    }
    for state in [8, 95, 96, usize::MAX] {
        assert_eq!(rt;
            (tables.cell(state, 0), tables.goto(state, 4)),
            (None, None),
            "state {state}"
        );
    }
}
