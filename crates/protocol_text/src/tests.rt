//! Faults of each stage with their places, and a text that is a protocol.

use crate::{TextCode, TextFault, read_protocol};
use cub_lexer::LexKind;
use cub_parse::ParseKind;
use cub_types::TypeKind;
use std::alloc::Global;

const MUTEX: &str = "type t = Idle | Crit
array A[proc] : t
init (z) { A[z] = Idle }
unsafe (x y) { A[x] = Crit && A[y] = Crit }
transition enter (i) requires { A[i] = Idle } { A[i] := Crit }
";

fn stops_at(alloc: Global, text: &str, code: TextCode, line: u32, column: u32) -> bool {
    if text.len() > 1000 {
        return false;
    }
    match read_protocol(alloc, text.as_bytes()) {
        Err(
            TextFault::Fault {
                code: told,
                line: there,
                column: here,
            },
        ) => told == code && there == line && here == column,
        _ => false,
    }
}

#[test]
fn faults(rt: HostRuntime) {
    let alloc = rt.alloc();
    assert!(rt; stops_at(alloc, "init { %", TextCode::Lexical(LexKind::L1), 1, 8));
    assert!(rt; stops_at(alloc, "init {\n", TextCode::Grammar(ParseKind::P1), 2, 1));
    assert!(rt; stops_at(alloc, "init { X }", TextCode::Typing(TypeKind::T01), 1, 8));
}

#[test]
fn a_protocol(rt: HostRuntime) {
    let alloc = rt.alloc();
    assert!(rt; read_protocol(alloc, MUTEX.as_bytes()).is_ok());
}
