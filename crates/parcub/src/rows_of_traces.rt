//! Traces that `check` finds: with crashes, with picks, with process globals that need further processes. Each replays. They
//! were computed apart from this program.

use crate::tabled::is_answered;
use std::test::Fail;

// Two crashes before one step.
const TWO_CRASHES: &str = "type t = Idle | Ready | Gone
var Done : bool
array A[proc] : t
init (z) { A[z] = Idle && Done = False }
unsafe (x) { Done = True && A[x] = Gone }
transition give (i j k) requires { A[i] = Idle && A[j] = Idle && A[k] = Idle } { A[i] := Ready }
transition go (i) requires { A[i] = Ready && forall_other j. A[j] = Ready } { A[i] := Gone }
transition finish (i) requires { A[i] = Gone && forall_other j. A[j] <> Ready } { Done := True }
";

const TWO_CRASHES_TRACE: &str = "UNSAFE WITH CRASHES
trace 1
processes 3
Done = False
A[#1] = Idle
A[#2] = Idle
A[#3] = Idle
step give(#1 #2 #3)
crash #2
crash #3
step go(#1)
step finish(#1)
unsafe 1 (#1)
plain 2 #2
end
";

// The first fault of the steps alone is at the second step.
const SECOND_STEP: &str = "type t = P | Q | R
array A[proc] : t
array B[proc] : bool
init (z) { A[z] = P && B[z] = False }
unsafe (x) { A[x] = R && B[x] }
transition first (i j) requires { A[i] = P && A[j] = P } { A[j] := Q; A[i] := Q }
transition alone (i) requires { A[i] = Q && forall_other j. B[j] || A[j] = R } { B[i] := True }
transition top (i) requires { B[i] && forall_other k. A[k] <> P && A[k] <> Q || B[k] } { A[i] := R }
";

const SECOND_STEP_TRACE: &str = "UNSAFE WITH CRASHES
trace 1
processes 2
A[#1] = P
A[#2] = P
B[#1] = False
B[#2] = False
step first(#1 #2)
crash #2
step alone(#1)
step top(#1)
unsafe 1 (#1)
plain 2 #2
end
";

// Picks of values and of processes.
const VALUES: &str = "type t = P | Q | R
var W : proc
var V : proc
var F : t
array A[proc] : t
init (z) { A[z] = P && F = P }
unsafe (x y) { A[x] = R && A[y] = R && W = y && F = Q }
transition choose () requires { F = P } { W := ?; V := ?; F := Q }
transition put (i) requires { W = i && V <> i } { A[i] := ?; F := case | A[i] = P : ? | _ : F; W := V }
";

const VALUES_TRACE: &str = "UNSAFE
trace 2
processes 2
W = #2
V = #1
F = P
A[#1] = P
A[#2] = P
step put(#2) with F = P && A[#2] = R
step choose() with W = #1 && V = #2
step put(#1) with F = P && A[#1] = R
step choose() with W = #2
unsafe 1 (#1 #2)
end
";

// A pick before which a process has crashed.
const PICK_THEN_CRASH: &str = "type t = P | Q | R
var W : proc
array A[proc] : t
array B[proc] : bool
init (z) { A[z] = P && B[z] = False }
unsafe (x) { A[x] = R }
transition mark (i j) requires { A[i] = P && not B[j] && W = j } { A[i] := Q; B[j] := ?; W := ? }
transition last (i) requires { W = i && A[i] = Q && forall_other j. A[j] = Q } { A[i] := R }
";

const PICK_THEN_CRASH_TRACE: &str = "UNSAFE WITH CRASHES
trace 2
processes 2
W = #2
A[#1] = P
A[#2] = P
B[#1] = False
B[#2] = False
step mark(#1 #2) with W = #1
crash #2
step last(#1)
unsafe 1 (#1)
plain 2 #2
end
";

// Process globals that need further processes.
const FURTHER: &str = "var X : proc
var Y : proc
var Z : proc
init { }
unsafe (x) { X <> x && Y <> x && X <> Y && Z <> Y && Z <> X }
";

const FURTHER_TRACE: &str = "UNSAFE
trace 1
processes 3
X = #2
Y = #3
Z = #1
unsafe 1 (#1)
end
";

// Globals of one class, and one beside the places.
const CLASSES: &str = "type t = P | Q
var X : proc
var Y : proc
var Z : proc
array A[proc] : t
array N[proc] : int
init (z) { A[z] = P && X = Y && Z <> X && N[z] >= 3 }
unsafe (x y) { A[x] = Q && A[y] = Q && Y <> x && Y <> y && N[y] > N[x] }
transition set (i) requires { A[i] = P && X <> i } { A[i] := Q; X := i }
transition count (i) requires { Z = i && N[i] < 5 } { N[i] := N[i] + 1 }
";

const CLASSES_TRACE: &str = "UNSAFE
trace 1
processes 3
X = #3
Y = #3
Z = #1
A[#1] = P
A[#2] = P
A[#3] = P
N[#1] = 4
N[#2] = 3
N[#3] = 4
step set(#1)
step set(#2)
unsafe 1 (#2 #1)
end
";

// Integers that no literal mentions, sums, a case for all cells.
const INTEGERS: &str = "type t = P | Q
var X : int
var Y : int
var U : int
array A[proc] : t
array N[proc] : int
init (z) { X >= 7 && Y <= X - 2 && A[z] = P && N[z] <= X }
unsafe (x y) { A[x] = Q && A[y] = P && N[x] >= N[y] + 4 && Y >= 0 }
transition grow (i) requires { A[i] = P && N[i] < X + 3 } { N[k] := case | k = i : X + 5 | A[k] = Q : N[k] | _ : N[k] + 1; A[k] := case | k = i : Q | _ : A[k]; Y := case | X < Y : Y | _ : X + 9 }
";

const INTEGERS_TRACE: &str = "UNSAFE
trace 1
processes 2
X = 7
Y = 5
U = 7
A[#1] = P
A[#2] = P
N[#1] = 7
N[#2] = 7
step grow(#2)
unsafe 1 (#2 #1)
end
";

// A start cube at once.
const AT_ONCE: &str = "type t = P | Q
var W : proc
array A[proc] : t
init (z) { }
unsafe (x y z) { A[x] = Q && A[y] = P && W <> x && W <> y && W <> z }
transition t () requires { } { }
";

const AT_ONCE_TRACE: &str = "UNSAFE
trace 1
processes 4
W = #4
A[#1] = P
A[#2] = Q
A[#3] = P
A[#4] = P
unsafe 1 (#2 #1 #3)
end
";

// A pick and a crash of a third process.
const THIRD: &str = "type t = L0 | L1 | L2
var F0 : bool
array A[proc] : t
init (z) { A[z] = L0 && F0 = False }
unsafe (x) { A[x] = L2 && F0 = True }
transition t0 (i) requires { A[i] = L0 && forall_other o. A[o] <> L0 } { A[i] := L1; F0 := ? }
transition t1 (i) requires { A[i] = L0 } { A[i] := L1 }
transition t2 (i j k) requires { A[i] = L1 && A[j] <> L1 && forall_other o. A[o] <> L0 || A[o] <> L2 } { A[i] := L2; A[j] := L0 }
";

const THIRD_TRACE: &str = "UNSAFE WITH CRASHES
trace 2
processes 3
F0 = False
A[#1] = L0
A[#2] = L0
A[#3] = L0
step t1(#2)
step t2(#2 #3 #1)
crash #1
step t0(#3) with F0 = True
unsafe 1 (#2)
plain 3 #1
end
";

// A counter, two arrays, a crash in between.
const COUNTER: &str = "type t = L0 | L1 | L2
var F0 : bool
var P : proc
var N : int
array A[proc] : t
init (z) { A[z] = L0 && F0 = False && N = 0 }
unsafe (x) { A[x] = L2 && F0 = True }
transition t0 (i j) requires { A[i] = L0 && P = j && P = i && N = 1 } { A[i] := L1 }
transition t1 (i) requires { A[i] = L0 && P <> i && forall_other o. P <> o } { A[i] := L1; P := i; N := 0 }
transition t2 (i) requires { A[i] = L0 && P <> i } { A[i] := L1; P := i; F0 := ? }
transition t3 (i) requires { A[i] = L1 && P <> i && forall_other o. P = o } { A[i] := L2; P := i; F0 := True }
transition t4 (i) requires { A[i] = L1 && N < 2 && forall_other o. A[o] = L1 } { A[i] := L2 }
";

const COUNTER_TRACE: &str = "UNSAFE WITH CRASHES
trace 2
processes 2
F0 = False
P = #2
N = 0
A[#1] = L0
A[#2] = L0
step t2(#1) with F0 = True
crash #2
step t4(#1)
unsafe 1 (#1)
plain 2 #2
end
";

// The protocol, the status of `check`, the trace, and what `replay` says of it.
const ROWS: [(&str, u8, &str, &str); 10] = [
    (
        TWO_CRASHES,
        2,
        TWO_CRASHES_TRACE,
        "REPLAYS steps 3 crashes 2\n",
    ),
    (
        SECOND_STEP,
        2,
        SECOND_STEP_TRACE,
        "REPLAYS steps 3 crashes 1\n",
    ),
    (VALUES, 1, VALUES_TRACE, "REPLAYS steps 4 crashes 0\n"),
    (
        PICK_THEN_CRASH,
        2,
        PICK_THEN_CRASH_TRACE,
        "REPLAYS steps 2 crashes 1\n",
    ),
    (FURTHER, 1, FURTHER_TRACE, "REPLAYS steps 0 crashes 0\n"),
    (CLASSES, 1, CLASSES_TRACE, "REPLAYS steps 2 crashes 0\n"),
    (INTEGERS, 1, INTEGERS_TRACE, "REPLAYS steps 1 crashes 0\n"),
    (AT_ONCE, 1, AT_ONCE_TRACE, "REPLAYS steps 0 crashes 0\n"),
    (THIRD, 2, THIRD_TRACE, "REPLAYS steps 3 crashes 1\n"),
    (COUNTER, 2, COUNTER_TRACE, "REPLAYS steps 2 crashes 1\n"),
];

#[test]
fn traces(rt: HostRuntime) -> Result<(), Fail> {
    let alloc = rt.alloc();
    let none = ([].as_slice(), [].as_slice());
    for (protocol, status, trace, replayed) in ROWS {
        is_answered(&rt, alloc, "check p", (protocol, ""), none, status, trace)?;
        is_answered(
            &rt,
            alloc,
            "replay p t",
            (protocol, trace),
            none,
            0,
            replayed,
        )?;
    }
    Ok(())
}
