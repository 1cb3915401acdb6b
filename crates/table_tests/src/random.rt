// Random grammars.
use super::table::lines_hold;
use std::test::Fail;

static LINES: [&str; 41] = [
    // build, though a follow of the nonterminal alone would not do
    r#"a:"y"b"z"|b|"z"a a"w";b:"x"a|"y""w"|"y"a b; => 16 states, 14464"#,
    r#"a:d"y"|b;b:"x"c e"x";c:"y""x";d:;e:"x"d; => 13 states, 8533"#,
    r#"a:b"w""z""z"|"x"b"x""w";b:"z""w"b b|"x"; => 15 states, 8861"#,
    r#"a:"x"b|"z""y"|b"z"|a b"z";b:"y""z""y"|"x"; => 14 states, 49317"#,
    r#"a:a"w"||"y"b"z"|b"x"|b;b:"z""w""y"|"y"; => 12 states, 64398"#,
    r#"a:b"x"b|a"z"b|"z"b;b:|"y""x"; => 11 states, 21324"#,
    r#"a:"x"|a d a"x"|"y""x"e;b:"y";c:b d"w"|b"w";d:"w";e:d c"y"; => 18 states, 8493"#,
    r#"a:b"x";b:c"w"|"w""y"|b c"y";c:"w"; => 11 states, 34163"#,
    r#"a:b b b|"z"b|a b"x";b:b"x"|"w""x"; => 12 states, 9374"#,
    // build, though a follow by the state that the nonterminal leads to would not do
    r#"a:b b"y"b|c"y";b:"x"c;c:"x""y""y"|"y"; => 16 states, 59944"#,
    r#"a:"z""x"|b"z"c;b:c"x""y";c:"x"|d;d:"z""x"; => 14 states, 44742"#,
    r#"a:d c"x"|"y";b:;c:"y"e e|d"x"c|"x"c b"y";d:"y"b;e:d; => 19 states, 25441"#,
    r#"a:"y"e|c"y""x";b:;c:e"x""y";d:"y"b|"z"a c"z";e:d; => 17 states, 27195"#,
    r#"a:e e|e d|a"y""x";b:"x""y";c:;d:"x"b;e:"x"c; => 13 states, 1332"#,
    // build, with several nonterminals that derive the empty list
    r#"a:"z""x"|c;b:c"x"c;c:b"w"|; => 9 states, 51887"#,
    r#"a:"x"b"y"|"y"c"y""x";b:d"x""x";c:e e"x""x";d:|"y"a;e:; => 18 states, 60068"#,
    r#"a:|"z"b|"z""y""y""x";b:"z"d;c:;d:"x"c"z""y"; => 13 states, 10897"#,
    r#"a:|"y"b"z""x"|"x"b;b:"y"a|; => 10 states, 54371"#,
    r#"a:|d b|d"w";b:;c:"y"e;d:c"w""z"|"w""w";e:c"x"d|"w"; => 16 states, 50909"#,
    r#"a:e;b:"x";c:"y";d:b c"x"b;e:|d"x"; => 11 states, 25337"#,
    r#"a:b"x"c|"y""x""x"a;b:;c:d"z"|"x"c a"x";d:"y"d|; => 17 states, 33676"#,
    r#"a:d"z"|"x""x";b:c"x""z"b|;c:"x""y"a;d:"x"|b|"y"; => 15 states, 56474"#,
    // build, with many fewer states than LR(1)
    r#"a:"z""z"d"x";b:e e e d|"y""x";c:"x"b;d:b"z"c;e:c"z"|c d; => 20 states, 41105"#,
    r#"a:b"x"b|c d"y"d;b:"z""x";c:d d|a;d:b|"z"|"y"b"x"; => 18 states, 64031"#,
    r#"a:"y"e e;b:"y"c|c c;c:"x""y";d:"y""y"b;e:"z""y"b|d b; => 19 states, 62219"#,
    r#"a:b b c|"x"a|"y"|b c"y""y"|c;b:"y"c|"x"c;c:"y""x""y""y"; => 21 states, 43017"#,
    // are LR(1), and have a conflict where states are joined
    r#"a:b"z"|c"w"|"x"b"w"|"x"c"y"|"y"b"z";b:d"x";c:d"x"|"w";d:"w"; => 7 15 2 reduce 6 reduce 7"#,
    r#"a:"x"b"y"|"x"c|"y"d|"z"b|"z"c"x";b:d"x";c:d"x";d:"w"; => 7 13 0 reduce 6 reduce 7"#,
    r#"a:b|c"w"|"y"c"y"|"y"d"z";b:"x"|"y"b;c:"x"|"y"b;d:; => 7 2 1 reduce 5 reduce 7"#,
    r#"a:b|b"y"|c"x"|"y"b"z"|"y"c;b:d"x";c:d"x"|"w";d:"x"; => 7 12 0 reduce 6 reduce 7"#,
    r#"a:"x"b"w"|"x"c|"y"c|"z"b"y"|"z"c"w";b:d"x";c:d"x";d:; => 7 13 2 reduce 6 reduce 7"#,
    // have other conflicts
    r#"a:"y"|"y"c"x";b:d"x";c:e"y"b;d:"y""x"|"y";e:"x"; => 7 8 2 shift 11 reduce 6"#,
    r#"a:a|"z""w"|a b|"y";b:a|"z""y"a"y"|"y"b"x"; => 7 3 0 accept reduce 1"#,
    r#"a:d|"w"e b;b:e d;c:e|"x"e c;d:"y""x""w""z";e:a d|e c; => 7 12 1 shift 1 reduce 4"#,
    r#"a:"x""y"|"x""x"|"y"c;b:"y""x";c:c c"x""x"|b"y"a a|b"x"; => 7 8 2 shift 6 reduce 3"#,
    r#"a:"x""z"|a"y"b|a b;b:d;c:"x""y""z"|"z"c|d;d:"z""x""y"|"z"c; => 7 13 2 shift 15 reduce 8"#,
    r#"a:"y"d|"y"c"y";b:b d|"x";c:"y"|b|a;d:|"x"; => 7 3 1 shift 3 reduce 5"#,
    r#"a:"x""x"b;b:"x"b|"x"|; => 7 4 0 reduce 3 reduce 4"#,
    // are of no use in part
    r#"a:"x"c;b:"x"d a|b;c:|"x""x";d:a a|a b b"x"|"x";e:"x""x"a; => 5 3"#,
    r#"a:;b:;c:"w""z";d:d c b|"w""y";e:"x""w"; => 5 6"#,
    r#"a:"y";b:;c:"x"e d"x"|e;d:"x"b;e:a"x"; => 5 4"#,
];

#[test]
fn grammars_come_to_their_outcomes(rt: HostRuntime) -> Result<(), Fail> {
    lines_hold(&rt, rt.alloc(), &LINES)
}
