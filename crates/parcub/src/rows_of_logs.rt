//! Whole logs of the search, as journals tell them: the nodes with their origins and renamings, what is expanded, and where
//! it ends. Each was computed apart from this program.

use crate::tabled::is_answered;
use std::alloc::Global;
use std::process::Abort;
use std::test::Fail;

// A directory protocol: covered nodes, renamings, numbers left out.
const DIRECTORY: &str = "type msg = Empty | ReqShared | ReqExcl
type cache = Invalid | Shared | Exclusive
var ExGntd : bool
var CurCmd : msg
var CurPtr : proc
array Cache[proc] : cache
array ShrSet[proc] : bool
init (z) { Cache[z] = Invalid && ShrSet[z] = False && ExGntd = False && CurCmd = Empty }
unsafe (x y) { Cache[x] = Exclusive && Cache[y] <> Invalid }
transition req_shared (n) requires { CurCmd = Empty && Cache[n] = Invalid } { CurCmd := ReqShared; CurPtr := n; }
transition req_excl (n) requires { CurCmd = Empty && Cache[n] <> Exclusive } { CurCmd := ReqExcl; CurPtr := n; }
transition inv_excl (n) requires { ShrSet[n] = True && CurCmd = ReqExcl } { ExGntd := False; Cache[n] := Invalid; ShrSet[n] := False; }
transition inv_shared (n) requires { ShrSet[n] = True && CurCmd = ReqShared && ExGntd = True } { ExGntd := False; Cache[n] := Shared; ShrSet[n] := True; }
transition gnt_shared (n) requires { CurPtr = n && CurCmd = ReqShared && ExGntd = False } { CurCmd := Empty; ShrSet[n] := True; Cache[n] := Shared; }
transition gnt_excl (n) requires { CurCmd = ReqExcl && CurPtr = n && ShrSet[n] = False && forall_other j. ShrSet[j] = False } { CurCmd := Empty; ExGntd := True; ShrSet[n] := True; Cache[n] := Exclusive; }
";

const DIRECTORY_LOG: &str = "UNKNOWN cubes
journal 1
budget 12 6
root 1 (#1 #2): cube 2: Cache[#1] = Exclusive && Cache[#2] in {Shared,Exclusive}
expand 1
new 5 (#1 #2): cube 2: ExGntd = True && CurCmd = ReqShared && Cache[#1] = Exclusive && ShrSet[#2] = True
new 7 (#1 #2): cube 2: ExGntd = False && CurCmd = ReqShared && Cache[#1] = Exclusive && CurPtr = #2
new 9 (#2 #1): cube 2: CurCmd = ReqExcl && Cache[#1] in {Shared,Exclusive} && ShrSet[#1] = False && ShrSet[#2] = False && CurPtr = #2
expand 2
new 1 (#2 #1): cube 2: ExGntd = True && CurCmd = Empty && Cache[#1] = Invalid && Cache[#2] = Exclusive && ShrSet[#1] = True
new 2 (#3 #1 #2): cube 3: ExGntd = True && CurCmd = Empty && Cache[#1] = Invalid && Cache[#2] = Exclusive && ShrSet[#3] = True
expand 3
new 1 (#2 #1): cube 2: ExGntd = False && CurCmd = Empty && Cache[#1] = Invalid && Cache[#2] = Exclusive
expand 4
new 1 (#2 #1): cube 2: CurCmd = Empty && Cache[#1] in {Invalid,Shared} && Cache[#2] in {Shared,Exclusive} && ShrSet[#1] = False && ShrSet[#2] = False
new 2 (#1 #2): cube 2: CurCmd = ReqExcl && Cache[#1] in {Shared,Exclusive} && ShrSet[#1] = False && ShrSet[#2] = True && CurPtr = #2
expand 5
expand 6
expand 7
expand 8
new 1 (#1 #2 #3): cube 3: ExGntd = False && CurCmd = ReqShared && Cache[#1] in {Invalid,Shared} && Cache[#2] in {Shared,Exclusive} && ShrSet[#1] = False && ShrSet[#2] = False && CurPtr = #3
expand 9
new 1 (#2 #1): cube 2: CurCmd = Empty && Cache[#1] in {Invalid,Shared} && Cache[#2] in {Shared,Exclusive} && ShrSet[#1] = True && ShrSet[#2] = False
full 10 needs 2
end
";

// Branches joined for all processes, literals that fail, integers of two arrays.
const JOINED: &str = "type t = P | Q | R
var X : int
var F : t
array A[proc] : t
array N[proc] : int
init (z) { A[z] = P && X = 0 && F = P && N[z] = 0 }
unsafe (x y) { A[x] = R && A[y] = Q && N[y] >= 2 }
transition move (i) requires { X <= N[i] } { A[k] := case | k = i && A[k] = Q : R | A[k] = P && F <> P : Q | _ : A[k]; N[j] := case | A[j] = A[i] : X + 1 | _ : N[j] - 2; F := case | F = P : Q | A[i] = R && X > 3 : F | _ : R }
";

const JOINED_LOG: &str = "UNKNOWN cubes
journal 1
budget 11 6
root 1 (#2 #1): cube 2: A[#1] = Q && A[#2] = R && 0 - N[#1] <= -2
expand 1
new 1 (#1 #2): cube 2: F in {Q,R} && A[#1] = P && A[#2] = R && 0 - X <= -1 && X - N[#1] <= 0
new 3 (#1 #2): cube 2: F in {Q,R} && A[#1] = P && A[#2] = Q && 0 - N[#1] <= -4 && X - N[#2] <= 0
new 4 (#1 #2): cube 2: F in {Q,R} && A[#1] = P && A[#2] = R && 0 - N[#1] <= -4 && X - N[#2] <= 0
new 7 (#1 #2): cube 2: A[#1] = Q && A[#2] = Q && 0 - X <= -1 && X - N[#2] <= 0
new 14 (#1 #2 #3): cube 3: F in {Q,R} && A[#1] = P && A[#2] = R && A[#1] <> A[#3] && 0 - N[#1] <= -4 && X - N[#3] <= 0
expand 2
new 1 (#1 #2): cube 2: F = P && A[#1] = P && A[#2] = R && 0 - X <= -1 && X - N[#1] <= 0
new 5 (#1 #2): cube 2: F = P && A[#1] = P && A[#2] = Q && 0 - X <= -1 && X - N[#1] <= -2 && X - N[#2] <= 0
expand 3
new 1 (#1 #2): cube 2: F = P && A[#1] = P && A[#2] = Q && 0 - X <= -3 && X - N[#1] <= 0 && X - N[#2] <= -2
new 4 (#1 #2 #3): cube 3: F = P && A[#1] = P && A[#2] = Q && A[#2] = A[#3] && 0 - N[#1] <= -6 && X - N[#3] <= 0
new 5 (#1 #2 #3): cube 3: F = P && A[#1] = P && A[#2] = Q && A[#1] <> A[#3] && A[#2] <> A[#3] && 0 - N[#1] <= -6 && X - N[#2] <= -2 && X - N[#3] <= 0
full 4 needs 2
end
";

// Joined branches of two updates of one array, and of a global.
const TWO_UPDATES: &str = "type t = P | Q | R
var X : int
var F : t
array A[proc] : t
init (z) { A[z] = P && X = 0 && F = P }
unsafe (x y) { A[x] = R && A[y] = R && X >= 2 }
transition step (i j) requires { A[i] <> A[j] && F = Q } { A[i] := case | F = P : Q | A[j] = Q : R | _ : A[j]; A[j] := case | F = Q && X > 1 : R | _ : A[i]; X := case | A[i] = P : X + 1 | A[j] = P : 0 | _ : X }
transition turn () requires { X <> 1 || F = P } { F := case | F = P : Q | X > 4 : R | _ : P }
";

const TWO_UPDATES_LOG: &str = "UNKNOWN cubes
journal 1
budget 9 6
root 1 (#1 #2): cube 2: A[#1] = R && A[#2] = R && 0 - X <= -2
expand 1
new 1 (#1 #2): cube 2: F = Q && A[#1] = P && A[#2] = Q && 0 - X <= -2
new 3 (#1 #2): cube 2: F = Q && A[#1] = P && A[#2] = R && 0 - X <= -2
new 7 (#2 #1): cube 2: F = Q && A[#1] = Q && A[#2] in {Q,R} && A[#1] <> A[#2] && 0 - X <= -2
new 13 (#1 #3 #2): cube 3: F = Q && A[#1] = P && A[#2] = Q && A[#3] = R && 0 - X <= -1
new 17 (#1 #2 #3): cube 3: F = Q && A[#1] = P && A[#2] = R && A[#3] = R && 0 - X <= -1
new 77 (#2 #1 #3): cube 3: F = Q && A[#1] = R && A[#2] in {Q,R} && A[#3] in {Q,R} && A[#2] <> A[#3] && 0 - X <= -2
full 2 needs 3
end
";

// Nondeterministic values of globals and of cells, some behind a condition.
const VALUES: &str = "type t = P | Q | R
var W : proc
var V : proc
var F : t
array A[proc] : t
array B[proc] : bool
init (z) { A[z] = P && F = P && B[z] = False }
unsafe (x) { W = V && A[x] = R && F = R }
transition choose () requires { F <> P && forall_other j. A[j] <> Q || B[j] } { W := ?; V := case | F = Q : ? | _ : V; B[k] := case | A[k] = P : False | _ : ? }
transition put (i j) requires { W = i && V = j && A[j] = Q } { A[i] := ?; F := case | A[i] = P : ? | _ : Q }
transition own (i) requires { V = i && F = P } { A[i] := Q; V := i; W := ? }
";

const VALUES_LOG: &str = "UNKNOWN cubes
journal 1
budget 30 6
root 1 (#1): cube 1: F = R && A[#1] = R && W = V
expand 1
new 2 (#1): cube 1: F = R && A[#1] = R && V = #1
new 3 (#1 #2): cube 2: F = R && A[#1] = R && A[#2] in {P,R} && V = #2
new 4 (#1 #2): cube 2: F = R && A[#1] = R && B[#2] = True && V = #2
expand 2
expand 3
expand 4
new 5 (#1 #2): cube 2: A[#1] = P && A[#2] = Q && B[#2] = True && W = #1 && V = #2
expand 5
new 2 (#1 #2): cube 2: F = Q && A[#1] = P && A[#2] = Q && B[#2] = True && W = #1
new 3 (#1 #2): cube 2: F = Q && A[#1] = P && A[#2] = Q && B[#2] = True && V = #2
new 4 (#1 #2): cube 2: F = Q && A[#1] = P && A[#2] = Q && B[#2] = True
new 6 (#1 #2): cube 2: F = R && A[#1] = P && A[#2] = Q && B[#2] = True && V = #2
new 13 (#2 #1): cube 2: A[#1] = Q && B[#1] = True && W = #2 && V = #1
new 14 (#1 #2): cube 2: F = P && A[#1] = P && B[#2] = True && W = #1 && V = #2
new 15 (#1 #2): cube 2: F = P && A[#1] = P && B[#2] = True && V = #2
expand 8
new 5 (#1 #2 #3): cube 3: A[#1] = P && A[#2] = Q && A[#3] = Q && B[#2] = True && W = #1 && V = #3
new 6 (#2 #3 #1): cube 3: A[#1] = Q && A[#2] = Q && A[#3] in {Q,R} && B[#1] = True && W = #3 && V = #2
new 7 (#1 #2 #3): cube 3: A[#1] = P && A[#2] = P && A[#3] = Q && B[#2] = True && W = #2 && V = #3
new 8 (#1 #3 #2): cube 3: A[#1] = P && A[#2] = Q && A[#3] in {Q,R} && B[#3] = True && W = #3 && V = #2
expand 9
expand 10
new 2 (#1 #2): cube 2: F = Q && A[#1] = Q && A[#2] in {P,R} && B[#1] = True && W = #2
new 3 (#1 #2): cube 2: F = Q && A[#1] = Q && A[#2] in {P,R} && B[#1] = True && V = #1
new 4 (#1 #2): cube 2: F = Q && A[#1] = Q && A[#2] in {P,R} && B[#1] = True
new 6 (#1 #2): cube 2: F = R && A[#1] = Q && A[#2] in {P,R} && B[#1] = True && V = #1
new 8 (#1 #2): cube 2: F = Q && A[#1] = Q && B[#1] = True && B[#2] = True && W = #2
new 9 (#1 #2): cube 2: F = Q && A[#1] = Q && B[#1] = True && B[#2] = True && V = #1
new 10 (#1 #2): cube 2: F = Q && A[#1] = Q && B[#1] = True && B[#2] = True
new 12 (#1 #2): cube 2: F = R && A[#1] = Q && B[#1] = True && B[#2] = True && V = #1
new 14 (#1 #2): cube 2: F = P && B[#1] = True && W = #2 && V = #1
new 15 (#2 #1): cube 2: F = P && B[#2] = True && V = #2
expand 13
new 13 (#2 #3 #1): cube 3: A[#1] = Q && A[#2] = Q && B[#1] = True && W = #3 && V = #2
new 14 (#1 #2 #3): cube 3: F = P && A[#1] = P && A[#2] = Q && B[#2] = True && W = #1 && V = #3
new 15 (#1 #2 #3): cube 3: F = P && A[#1] = P && A[#2] = Q && B[#2] = True && V = #3
full 15 needs 3
end
";

// Picks of one new process by two globals.
const PICKS: &str = "type t = P | Q
var W : proc
var V : proc
var K : bool
array A[proc] : t
init (z) { A[z] = P && K = True }
unsafe (x) { W = V && A[x] = Q && W <> x && not K }
transition both () requires { forall_other j. A[j] = Q || K } { W := ?; V := ? }
transition one (i) requires { V = i } { A[i] := case | W = i : ? | _ : P; W := i }
transition two (i j) requires { A[i] = Q && W = j } { K := False; W := ?; A[j] := Q }
";

const PICKS_LOG: &str = "UNKNOWN cubes
journal 1
budget 9 6
root 1 (#1): cube 1: K = False && A[#1] = Q && W = V && W <> #1
expand 1
new 2 (#1 #2): cube 2: K = False && A[#1] = Q && A[#2] = Q && W = #2
new 3 (#1 #2): cube 2: K = False && A[#1] = Q && A[#2] = Q && V = #2
new 4 (#1 #2): cube 2: K = False && A[#1] = Q && A[#2] = Q
new 5 (#1 #2): cube 2: K = False && A[#1] = Q && V = #2
new 7 (#1 #2): cube 2: A[#1] = Q && W = V && W = #2
new 9 (#1 #2 #3): cube 3: A[#1] = Q && W = #2 && V = #3
new 10 (#2 #1): cube 2: A[#1] = Q && W = #2 && V = #1
expand 4
new 8 (#1 #2): cube 2: A[#1] = Q && W = #2
expand 5
full 9 needs 3
end
";

// Universal guards of two alternatives.
const GUARDS: &str = "type t = P | Q | R
array A[proc] : t
array B[proc] : bool
init (z) { A[z] = P && B[z] = False }
unsafe (x y z) { A[x] = R && A[y] = R && B[z] = True }
transition up (i) requires { A[i] = P && forall_other j. A[j] = P || B[j] } { A[i] := Q }
transition top (i j) requires { A[i] = Q && A[j] <> R && forall_other k. A[k] <> Q && B[k] = B[i] || A[k] = A[j] } { A[i] := R; B[j] := True }
";

const GUARDS_LOG: &str = "UNKNOWN cubes
journal 1
budget 11 6
root 1 (#1 #2 #3): cube 3: A[#1] = R && A[#2] = R && B[#3] = True
expand 1
new 4 (#1 #3 #2): cube 3: A[#1] = Q && A[#2] in {P,Q} && A[#3] = R && B[#1] = B[#3]
expand 2
new 1 (#1 #2 #3): cube 3: A[#1] = P && A[#2] = P && A[#3] = R && B[#3] = True && B[#1] = B[#3]
new 2 (#1 #2 #3): cube 3: A[#1] = P && A[#2] in {P,Q} && A[#3] = R && B[#2] = True && B[#3] = True && B[#1] = B[#3]
new 6 (#2 #1 #3): cube 3: A[#1] = P && A[#2] = Q && A[#3] = Q && B[#3] = True && B[#1] = B[#3]
new 7 (#2 #1 #3): cube 3: A[#2] = Q && A[#3] = Q && B[#3] = True && A[#1] = A[#2]
new 8 (#2 #1 #3): cube 3: A[#2] = Q && A[#3] = Q && A[#1] = A[#2] && B[#2] = B[#3]
expand 3
new 5 (#1 #2 #3): cube 3: A[#1] = P && A[#2] = P && A[#3] = Q && B[#3] = True && B[#2] = B[#3]
new 6 (#1 #2 #3): cube 3: A[#1] = P && A[#2] = P && A[#3] = Q && B[#3] = True
expand 4
new 9 (#1 #3 #2): cube 3: A[#1] = P && A[#2] = Q && A[#3] in {P,Q} && B[#2] = True && B[#1] = B[#2]
full 6 needs 2
end
";

// Roots that are more than the budget, without the one that no state meets.
const ROOTS: &str = "var X : int
var Y : int
init { X = 0 && Y = 0 }
unsafe { X < 0 && X > 0 }
unsafe { X = 3 }
unsafe { Y = 4 && X <= 9 }
unsafe { Y = X + 7 }
transition step () requires { } { X := X + 1; Y := X }
";

const ROOTS_LOG: &str = "UNKNOWN cubes
journal 1
budget 2 6
full roots needs 3
end
";

// Goals that no state meets or that an earlier one covers; a budget that a start cube passes.
const GOALS: &str = "type t = P | Q | R
array A[proc] : t
init (z) { A[z] = P }
unsafe (x) { A[x] = P && A[x] = Q }
unsafe (x y) { A[x] = R && A[y] = R }
unsafe (x y z) { A[x] = R && A[y] <> P && A[z] = R && A[y] <> Q }
unsafe (x y z) { A[x] = Q && A[y] = R && A[z] = Q }
transition c (i) requires { A[i] = Q && forall_other j. A[j] = P || A[j] = R } { A[i] := R }
transition b (i j) requires { A[i] = Q && A[j] = R } { A[i] := R; A[j] := Q }
transition a (i) requires { A[i] = P } { A[i] := Q }
";

const GOALS_LOG: &str = "UNKNOWN cubes
journal 1
budget 5 6
root 2 (#1 #2): cube 2: A[#1] = R && A[#2] = R
root 4 (#1 #3 #2): cube 3: A[#1] = Q && A[#2] = Q && A[#3] = R
expand 1
new 1 (#1 #2): cube 2: A[#1] = Q && A[#2] = R
expand 3
new 5 (#1 #2): cube 2: A[#1] = P && A[#2] = R
expand 4
new 1 (#1 #2): cube 2: A[#1] = P && A[#2] = Q
full 5 needs 1
end
";

// Guards that crashes can make true.
const CRASHES: &str = "type t = Idle | Want | In | Out
var Turn : proc
array A[proc] : t
init (z) { A[z] = Idle }
unsafe (x y) { A[x] = Out && A[y] = In && Turn <> x }
transition ask (i) requires { A[i] = Idle } { A[i] := Want; Turn := i }
transition go (i) requires { A[i] = Want && forall_other j. A[j] = Idle } { A[i] := In }
transition turn (i j) requires { A[i] = Want && Turn = j && A[j] <> In && forall_other k. A[k] <> In } { A[i] := In; A[j] := Out }
transition out (i) requires { A[i] = In } { A[i] := Out }
";

const CRASHES_LOG: &str = "UNKNOWN cubes
journal 1
budget 7 6
root 1 (#2 #1): cube 2: A[#1] = In && A[#2] = Out && Turn <> #2
expand 1
new 1 (#3 #1 #2): cube 3: A[#1] = Idle && A[#2] = In && A[#3] = Out
new 2 (#1 #2 #3): cube 3: A[#1] = Want && A[#2] = Out && A[#3] in {Idle,Want,Out} && Turn = #3
new 3 (#1 #2): cube 2: A[#1] = In && A[#2] = In && Turn <> #2
expand 2
new 2 (#1 #2 #3): cube 3: A[#1] = Idle && A[#2] = Want && A[#3] in {Idle,Want,Out} && Turn = #3
new 4 (#1 #2 #3): cube 3: A[#1] = Idle && A[#2] = In && A[#3] = In
full 3 needs 2
end
";

// A cube of 8 places is expanded; those of 9 and 11 are left.
const WIDE: &str = "type f = S0 | S1 | S2 | S3
type t = Q | A1 | A2 | A3 | A4 | B1 | B2 | B3 | B4 | C1 | C2 | C3
var F : f
array A[proc] : t
init (z) { A[z] = Q && F = S0 }
unsafe (a b c d) { A[a] = A4 && A[b] = A3 && A[c] = A2 && A[d] = A1 && F = S3 }
transition one (i j k) requires { F = S2 && A[i] = B3 && A[j] = B2 && A[k] = B1 } { F := S3 }
transition two (i) requires { F = S1 && A[i] = B4 && forall_other l. A[l] <> C3 } { F := S2 }
transition three (i) requires { F = S0 && A[i] = C1 } { F := S1 }
transition four (i j k) requires { F = S0 && A[k] = C3 && A[i] = C2 && A[j] = C2 && forall_other l. A[l] <> C3 } { F := S1 }
";

const WIDE_LOG: &str = "UNKNOWN width
journal 1
budget 4096 8
root 1 (#4 #3 #2 #1): cube 4: F = S3 && A[#1] = A1 && A[#2] = A2 && A[#3] = A3 && A[#4] = A4
expand 1
new 1 (#1 #2 #3 #4 #7 #6 #5): cube 7: F = S2 && A[#1] = A1 && A[#2] = A2 && A[#3] = A3 && A[#4] = A4 && A[#5] = B1 && A[#6] = B2 && A[#7] = B3
expand 2
new 1 (#1 #2 #3 #4 #5 #6 #7 #8): cube 8: F = S1 && A[#1] = A1 && A[#2] = A2 && A[#3] = A3 && A[#4] = A4 && A[#5] = B1 && A[#6] = B2 && A[#7] = B3 && A[#8] = B4
expand 3
new 1 (#1 #2 #3 #4 #5 #6 #7 #8 #9): cube 9: F = S0 && A[#1] = A1 && A[#2] = A2 && A[#3] = A3 && A[#4] = A4 && A[#5] = B1 && A[#6] = B2 && A[#7] = B3 && A[#8] = B4 && A[#9] = C1
new 2 (#1 #2 #3 #4 #5 #6 #7 #8 #9 #10 #11): cube 11: F = S0 && A[#1] = A1 && A[#2] = A2 && A[#3] = A3 && A[#4] = A4 && A[#5] = B1 && A[#6] = B2 && A[#7] = B3 && A[#8] = B4 && A[#9] = C2 && A[#10] = C2 && A[#11] = C3
wide 4
end
";

// A cube of 7 places where 6 are the most.
const SIX_LOG: &str = "UNKNOWN width
journal 1
budget 4096 6
root 1 (#4 #3 #2 #1): cube 4: F = S3 && A[#1] = A1 && A[#2] = A2 && A[#3] = A3 && A[#4] = A4
expand 1
new 1 (#1 #2 #3 #4 #7 #6 #5): cube 7: F = S2 && A[#1] = A1 && A[#2] = A2 && A[#3] = A3 && A[#4] = A4 && A[#5] = B1 && A[#6] = B2 && A[#7] = B3
wide 2
end
";

const FINITE: [(&str, &str, &str); 4] = [
    ("check p --cubes 12", DIRECTORY, DIRECTORY_LOG),
    ("check p --cubes 11", GUARDS, GUARDS_LOG),
    ("check p --cubes 5", GOALS, GOALS_LOG),
    ("check p --cubes 7", CRASHES, CRASHES_LOG),
];

const UPDATED: [(&str, &str, &str); 3] = [
    ("check p --cubes 11", JOINED, JOINED_LOG),
    ("check p --cubes 9", TWO_UPDATES, TWO_UPDATES_LOG),
    ("check p --cubes 2", ROOTS, ROOTS_LOG),
];

const PICKING: [(&str, &str, &str); 2] = [
    ("check p --cubes 30", VALUES, VALUES_LOG),
    ("check p --cubes 9", PICKS, PICKS_LOG),
];

const WIDTHS: [(&str, &str, &str); 2] = [
    ("check p --width 8", WIDE, WIDE_LOG),
    ("check p", WIDE, SIX_LOG),
];

fn are_logs(rt: &impl Abort, alloc: Global, rows: &[(&str, &str, &str)]) -> Result<(), Fail> {
    let none = ([].as_slice(), [].as_slice());
    for (words, protocol, journal) in rows {
        is_answered(rt, alloc, words, (protocol, ""), none, 3, journal)?;
    }
    Ok(())
}

#[test]
fn directories_and_guards(rt: HostRuntime) -> Result<(), Fail> {
    are_logs(&rt, rt.alloc(), &FINITE)
}

#[test]
fn updates(rt: HostRuntime) -> Result<(), Fail> {
    are_logs(&rt, rt.alloc(), &UPDATED)
}

#[test]
fn picks(rt: HostRuntime) -> Result<(), Fail> {
    are_logs(&rt, rt.alloc(), &PICKING)
}

#[test]
fn widths(rt: HostRuntime) -> Result<(), Fail> {
    are_logs(&rt, rt.alloc(), &WIDTHS)
}
