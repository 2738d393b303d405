//! What texts are sentences, and where the others stop being the front of one; another program made the expected values.

use crate::{ParseFault, parse};
use cub_lexer::{lex, place};
use std::alloc::Global;
use std::fmt::Write;
use std::process::Abort;
use std::test::Fail;

// The number of declarations and of what follows `init`, or the code and the place of the fault.
fn shown(rt: &impl Abort, alloc: Global, text: &[u8]) -> Result<String, Fail> {
    assert!(rt; text.len() < 1_048_577);
    let mut out = String::new(alloc);
    let tokens = lex(alloc, text)?;
    assert!(rt; tokens.len() < 1_048_577);
    match parse(alloc, tokens.as_slice()) {
        Ok(tree) => {
            let (decls, rests) = (tree.decls.len(), tree.rests.len());
            write!(out, "decls {decls} rests {rests}")?;
        }
        Err(ParseFault::Fault { token, kind }) => {
            let at = match tokens.get(token as usize) {
                Some(token) => token.at,
                None => text.len() as u32,
            };
            assert!(rt; at as usize <= text.len());
            let (line, column) = place(text, at);
            write!(out, "{kind:?} {line}:{column}")?;
        }
        Err(ParseFault::Memory) => write!(out, "memory")?,
    }
    Ok(out)
}

#[test]
fn trees_and_faults_of_texts(rt: HostRuntime) -> Result<(), Fail> {
    let rows: [(&[u8], &str); 72] = [
        (
            b"var X : int\ninit { X = 0 }\ntransition step () requires { } { X := X + 1 }\n",
            "decls 1 rests 1",
        ),
        (
            b"type t = Idle | Crit\narray A[proc] : t\ninit (z) { A[z] = Idle }\nunsafe (x y) { A[x] = Crit && A[y] = Crit }\ntransition enter (i) requires { A[i] = Idle } { A[i] := Crit }\n",
            "decls 2 rests 2",
        ),
        (
            b"type t = Idle | Ready\nvar Done : bool\narray A[proc] : t\ninit (z) { A[z] = Idle && Done = False }\nunsafe { Done = True }\ntransition give (i j) requires { A[i] = Idle && A[j] = Idle } { A[i] := Ready }\ntransition finish (i) requires { A[i] = Ready && forall_other j. A[j] = Ready } { Done := True }\n",
            "decls 3 rests 3",
        ),
        (
            b"type t = Off | Tok\nvar X : int\narray A[proc] : t\ninit (z) { A[z] = Off && X = 1 }\nunsafe { X = 0 }\ntransition step (i) requires { A[i] = Tok } { A[i] := Off; X := X - 1 }\n",
            "decls 3 rests 2",
        ),
        (
            b"var X : proc\ninit { }\nunsafe (x y) { X <> x && X <> y }\n",
            "decls 1 rests 1",
        ),
        (
            b"type b = U | V\narray A[proc] : b\narray B[proc] : b\narray C[proc] : b\ninit (z) { }\nunsafe (i) { A[i] <> B[i] && B[i] <> C[i] && A[i] <> C[i] }\n",
            "decls 4 rests 1",
        ),
        (
            b"type t = P | Q | R\nvar X : t\ninit { X = P }\nunsafe { X = R }\ntransition go () requires { } { X := case | X = P : Q | X = P : R | _ : X }\n",
            "decls 2 rests 2",
        ),
        (
            b"type msg = Empty | ReqShared | ReqExcl\ntype cache = Invalid | Shared | Exclusive\nvar ExGntd : bool\nvar CurCmd : msg\nvar CurPtr : proc\narray Cache[proc] : cache\narray ShrSet[proc] : bool\ninit (z) { Cache[z] = Invalid && ShrSet[z] = False && ExGntd = False && CurCmd = Empty }\nunsafe (x y) { Cache[x] = Exclusive && Cache[y] <> Invalid }\ntransition req_shared (n)\n  requires { CurCmd = Empty && Cache[n] = Invalid }\n  { CurCmd := ReqShared; CurPtr := n; }\ntransition req_excl (n)\n  requires { CurCmd = Empty && Cache[n] <> Exclusive }\n  { CurCmd := ReqExcl; CurPtr := n; }\ntransition inv_excl (n)\n  requires { ShrSet[n] = True && CurCmd = ReqExcl }\n  { ExGntd := False; Cache[n] := Invalid; ShrSet[n] := False; }\ntransition inv_shared (n)\n  requires { ShrSet[n] = True && CurCmd = ReqShared && ExGntd = True }\n  { ExGntd := False; Cache[n] := Shared; ShrSet[n] := True; }\ntransition gnt_shared (n)\n  requires { CurPtr = n && CurCmd = ReqShared && ExGntd = False }\n  { CurCmd := Empty; ShrSet[n] := True; Cache[n] := Shared; }\ntransition gnt_excl (n)\n  requires { CurCmd = ReqExcl && CurPtr = n && ShrSet[n] = False\n             && forall_other j. ShrSet[j] = False }\n  { CurCmd := Empty; ExGntd := True; ShrSet[n] := True; Cache[n] := Exclusive; }\n",
            "decls 7 rests 7",
        ),
        (b"", "P1 1:1"),
        (b"type t = Idle |", "P1 1:16"),
        (b"init {\n", "P1 2:1"),
        (b"init { }", "decls 0 rests 0"),
        (b"init { } init", "P1 1:10"),
        (b"type t = A init { }", "decls 1 rests 0"),
        (b"type t = | A | B init { ; }", "decls 1 rests 0"),
        (b"type t = A B init { }", "P1 1:12"),
        (b"var X : t init (z) { X = 0 ; }", "decls 1 rests 0"),
        (b"var X : { }", "P1 1:9"),
        (b"array A[proc] : int init { }", "decls 1 rests 0"),
        (b"array A[int] : int init { }", "P1 1:9"),
        (b"init { X }", "decls 0 rests 0"),
        (b"init { X = }", "P1 1:12"),
        (b"init { X = 1 && }", "P1 1:17"),
        (b"init { X = 1 = 2 }", "P1 1:14"),
        (b"init { - X = 1 }", "P1 1:10"),
        (b"init { -1 + X * 2 - A[z] <= 7 }", "decls 0 rests 0"),
        (b"init { A[z][y] = 1 }", "P1 1:12"),
        (b"init { not not X || (Y && Z) }", "decls 0 rests 0"),
        (b"init { () }", "P1 1:9"),
        (b"init { (X }", "P1 1:11"),
        (b"init { X ) }", "P1 1:10"),
        (b"init (a b c) { }", "decls 0 rests 0"),
        (b"init (a, b) { }", "P1 1:8"),
        (
            b"init { forall_other j. A[j] = 1 && B || C }",
            "decls 0 rests 0",
        ),
        (b"init { forall_other j A }", "P1 1:23"),
        (b"init { X ; ; }", "P1 1:12"),
        (b"init { } unsafe", "P1 1:16"),
        (
            b"init { } unsafe (x) { X } invariant { Y }",
            "decls 0 rests 2",
        ),
        (b"init { } transition t () { }", "decls 0 rests 1"),
        (b"init { } transition t { X := 1 }", "decls 0 rests 1"),
        (b"init { } transition t { X := 1; }", "decls 0 rests 1"),
        (b"init { } transition t { X := 1; ; }", "P1 1:33"),
        (b"init { } transition t { ; }", "P1 1:25"),
        (b"init { } transition t { X := 1 Y := 2 }", "P1 1:32"),
        (b"init { } transition t { X := ? }", "decls 0 rests 1"),
        (
            b"init { } transition t { X := case | _ : 1 }",
            "decls 0 rests 1",
        ),
        (
            b"init { } transition t { X := case | A = 1 : ? | B : 2 | _ : X }",
            "decls 0 rests 1",
        ),
        (b"init { } transition t { X := case | A : 1 }", "P1 1:43"),
        (b"init { } transition t { X := case _ : 1 }", "P1 1:35"),
        (
            b"init { } transition t { X := case | _ : 1 | A : 2 }",
            "P1 1:43",
        ),
        (
            b"init { } transition t { A[i] := case | i = j && B : C | _ : A[i]; X := 1 }",
            "decls 0 rests 1",
        ),
        (
            b"init { } transition t requires { X } requires { Y } { }",
            "P1 1:38",
        ),
        (b"init { } transition t requires (x) { X } { }", "P1 1:32"),
        (b"init { } transition (x) { }", "P1 1:21"),
        (b"init { } unsafe { } ,", "P1 1:21"),
        (b"unsafe { }", "P1 1:1"),
        (b"init { X ? }", "P1 1:10"),
        (b"init { 1 }", "decls 0 rests 0"),
        (b"init { _ }", "P1 1:8"),
        (
            b"init { (((((((((((((((((((((((((((((((((((((((((((((((((((((((((((((((((",
            "P2 1:72",
        ),
        (
            b"init { ((((((((((((((((((((((((((((((((((((((((((((((((((((((((((((((((X)))))))))))))))))))))))))))))))))))))))))))))))))))))))))))))))) }",
            "decls 0 rests 0",
        ),
        (
            b"init { not not not not not not not not not not not not not not not not not not not not not not not not not not not not not not not not not not not not not not not not not not not not not not not not not not not not not not not not not not not not not not not not X }",
            "decls 0 rests 0",
        ),
        (
            b"init { not not not not not not not not not not not not not not not not not not not not not not not not not not not not not not not not not not not not not not not not not not not not not not not not not not not not not not not not not not not not not not not not not X }",
            "P2 1:264",
        ),
        (
            b"init { (((((((((((((((((((((((((((((((((((((((((((((((((((((((((((((((()",
            "P1 1:72",
        ),
        (
            b" init { (((((((((((((((((((((((((((((((((((((((((((((((((((((((((((((((( not X",
            "P2 1:74",
        ),
        (
            b"init { not (not (not (not (not (not (not (not (not (not (not (not (not (not (not (not (not (not (not (not (not (not (not (not (not (not (not (not (not (not (not (not (forall_other j. X",
            "P2 1:168",
        ),
        (
            b"init { not (not (not (not (not (not (not (not (not (not (not (not (not (not (not (not (not (not (not (not (not (not (not (not (not (not (not (not (not (not (not (not (X)))))))))))))))))))))))))))))))) }",
            "decls 0 rests 0",
        ),
        (
            b"init (a a a a a a a a a a a a a a a a a a a a a a a a a a a a a a a a a a a a a a a a a a a a a a a a a a a a a a a a a a a a a a a a a a a a a a ) { }",
            "decls 0 rests 0",
        ),
        (b"init { X ( }", "P1 1:10"),
        (
            b"init { forall_other j. forall_other j. forall_other j. forall_other j. forall_other j. forall_other j. forall_other j. forall_other j. forall_other j. forall_other j. forall_other j. forall_other j. forall_other j. forall_other j. forall_other j. forall_other j. forall_other j. forall_other j. forall_other j. forall_other j. forall_other j. forall_other j. forall_other j. forall_other j. forall_other j. forall_other j. forall_other j. forall_other j. forall_other j. forall_other j. forall_other j. forall_other j. forall_other j. forall_other j. forall_other j. forall_other j. forall_other j. forall_other j. forall_other j. forall_other j. forall_other j. forall_other j. forall_other j. forall_other j. forall_other j. forall_other j. forall_other j. forall_other j. forall_other j. forall_other j. forall_other j. forall_other j. forall_other j. forall_other j. forall_other j. forall_other j. forall_other j. forall_other j. forall_other j. forall_other j. forall_other j. forall_other j. forall_other j. forall_other j. X }",
            "decls 0 rests 0",
        ),
        (
            b"init { forall_other j. forall_other j. forall_other j. forall_other j. forall_other j. forall_other j. forall_other j. forall_other j. forall_other j. forall_other j. forall_other j. forall_other j. forall_other j. forall_other j. forall_other j. forall_other j. forall_other j. forall_other j. forall_other j. forall_other j. forall_other j. forall_other j. forall_other j. forall_other j. forall_other j. forall_other j. forall_other j. forall_other j. forall_other j. forall_other j. forall_other j. forall_other j. forall_other j. forall_other j. forall_other j. forall_other j. forall_other j. forall_other j. forall_other j. forall_other j. forall_other j. forall_other j. forall_other j. forall_other j. forall_other j. forall_other j. forall_other j. forall_other j. forall_other j. forall_other j. forall_other j. forall_other j. forall_other j. forall_other j. forall_other j. forall_other j. forall_other j. forall_other j. forall_other j. forall_other j. forall_other j. forall_other j. forall_other j. forall_other j. forall_other j. X }",
            "P2 1:1032",
        ),
        (
            b"init { ((((((((((((((((((((((((((((((((((((((((((((((((((((((((((((((((X ( }",
            "P1 1:74",
        ),
    ];
    for (text, expected) in rows {
        let found = shown(&rt, rt.alloc(), text)?;
        assert_eq!(rt; found.as_str(), expected, "{text:?}");
    }
    Ok(())
}
