//! What the tokens and faults of texts are, and where; the expected values were made by another program.

use crate::{LexFault, LexKind, TokenKind, lex, number_value, place, token_text};
use std::alloc::Global;
use std::fmt::Write;
use std::process::Abort;
use std::test::Fail;

// The text of tokens, as `Kind@at+len` each.
fn shown(rt: &impl Abort, alloc: Global, text: &[u8]) -> Result<String, Fail> {
    assert!(rt; text.len() < 1_048_577);
    let mut out = String::new(alloc);
    match lex(alloc, text) {
        Ok(tokens) => {
            for token in &tokens {
                let (kind, at, len) = (token.kind, token.at, token.len);
                write!(out, "{kind:?}@{at}+{len} ")?;
            }
        }
        Err(LexFault::Fault { at, kind }) => {
            assert!(rt; at as usize <= text.len());
            let (line, column) = place(text, at);
            write!(out, "{kind:?} {at} {line}:{column}")?;
        }
        Err(LexFault::Memory) => write!(out, "memory")?,
    }
    Ok(out)
}

#[test]
fn tokens_of_texts(rt: HostRuntime) -> Result<(), Fail> {
    let rows: [(&[u8], &str); 25] = [
        (b"", ""),
        (b" \t\r\n", ""),
        (
            b"type var array init unsafe",
            "TypeWord@0+4 VarWord@5+3 ArrayWord@9+5 InitWord@15+4 UnsafeWord@20+6 ",
        ),
        (
            b"invariant transition requires",
            "InvariantWord@0+9 TransitionWord@10+10 RequiresWord@21+8 ",
        ),
        (
            b"forall_other case not proc",
            "ForallOtherWord@0+12 CaseWord@13+4 NotWord@18+3 ProcWord@22+4 ",
        ),
        (
            b"bool int True False _ __ _1 types",
            "BoolWord@0+4 IntWord@5+3 Name@9+4 Name@14+5 Underscore@20+1 Name@22+2 Name@25+2 Name@28+5 ",
        ),
        (
            b"{}()[]|:;.,",
            "BraceOpen@0+1 BraceClose@1+1 ParenOpen@2+1 ParenClose@3+1 BracketOpen@4+1 BracketClose@5+1 Bar@6+1 Colon@7+1 Semicolon@8+1 Dot@9+1 Comma@10+1 ",
        ),
        (
            b":==<><<=>>=",
            "Assign@0+2 Equal@2+1 NotEqual@3+2 Less@5+1 LessOrEqual@6+2 Greater@8+1 GreaterOrEqual@9+2 ",
        ),
        (
            b"&&||+-*?",
            "And@0+2 Or@2+2 Plus@4+1 Minus@5+1 Star@6+1 Question@7+1 ",
        ),
        (b"|||", "Or@0+2 Bar@2+1 "),
        (b"<>=", "NotEqual@0+2 Equal@2+1 "),
        (b":=:", "Assign@0+2 Colon@2+1 "),
        (b"a(*(*x*)y*)b", "Name@0+1 Name@11+1 "),
        (b"(**)a(***)", "Name@4+1 "),
        (b"((* *)*)", "ParenOpen@0+1 Star@6+1 ParenClose@7+1 "),
        (b"x-1", "Name@0+1 Minus@1+1 Number@2+1 "),
        (b"007 1000000000", "Number@0+3 Number@4+10 "),
        (b"0000000000000001", "Number@0+16 "),
        (b"12ab", "Number@0+2 Name@2+2 "),
        (b"a1_2", "Name@0+4 "),
        (b"(* \xc3\xa9 \x00 *)z", "Name@10+1 "),
        (b"a\n\n b", "Name@0+1 Name@4+1 "),
        (b"X:=?", "Name@0+1 Assign@1+2 Question@3+1 "),
        (b"*)", "Star@0+1 ParenClose@1+1 "),
        (
            b"aaaaaaaaaaaaaaaaaaaaaaaaaaaaaaaaaaaaaaaaaaaaaaaaaaaaaaaaaaaaaaaa",
            "Name@0+64 ",
        ),
    ];
    for (text, expected) in rows {
        let found = shown(&rt, rt.alloc(), text)?;
        assert_eq!(rt; found.as_str(), expected, "{text:?}");
    }
    Ok(())
}

#[test]
fn faults_of_texts(rt: HostRuntime) -> Result<(), Fail> {
    let rows: [(&[u8], &str); 23] = [
        (b"#", "L1 0 1:1"),
        (b"a & b", "L1 2 1:3"),
        (b"a |& b", "L1 3 1:4"),
        (b"x $", "L1 2 1:3"),
        (b"(* a", "L2 0 1:1"),
        (b"(*)", "L2 0 1:1"),
        (b"(* (* *)", "L2 0 1:1"),
        (b"a\n (*\n(* *) ", "L2 3 2:2"),
        (b"(*) *) (*", "L2 7 1:8"),
        (b"1000000001", "L3 0 1:1"),
        (
            b"var X : int\ninit { }\nunsafe { X = 1000000001 }",
            "L3 34 3:14",
        ),
        (b"01000000001", "L3 0 1:1"),
        (b"99999999999999999999999999", "L3 0 1:1"),
        (
            b"aaaaaaaaaaaaaaaaaaaaaaaaaaaaaaaaaaaaaaaaaaaaaaaaaaaaaaaaaaaaaaaaa",
            "L4 0 1:1",
        ),
        (
            b"\n\n  _________________________________________________________________",
            "L4 4 3:3",
        ),
        (b"ok \xc3\xa9", "L1 3 1:4"),
        (b"a\tb\r\n@", "L1 5 2:1"),
        (b"10000000000 @", "L3 0 1:1"),
        (b"@ (*", "L1 0 1:1"),
        (b"(* *) ! (*", "L1 6 1:7"),
        (b"'", "L1 0 1:1"),
        (b"\x00", "L1 0 1:1"),
        (b"a&", "L1 1 1:2"),
    ];
    for (text, expected) in rows {
        let found = shown(&rt, rt.alloc(), text)?;
        assert_eq!(rt; found.as_str(), expected, "{text:?}");
    }
    Ok(())
}

#[test]
fn texts_and_values_of_tokens(rt: HostRuntime) -> Result<(), Fail> {
    let text = b"alpha := 0042";
    let tokens = lex(rt.alloc(), text)?;
    assert_eq!(rt; tokens.len(), 3);
    assert_eq!(rt; token_text(text, tokens[0]), b"alpha".as_slice());
    let digits = token_text(text, tokens[2]);
    assert_eq!(rt; digits, b"0042".as_slice());
    assert_eq!(rt; number_value(digits), Some(42));
    assert_eq!(rt; number_value(b"1000000000"), Some(1_000_000_000));
    assert_eq!(rt; number_value(b"1000000001"), None);
    Ok(())
}
