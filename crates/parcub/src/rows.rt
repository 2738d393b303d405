//! The worked rows: words, a protocol, another text, and the status and the text of their answer. Each was computed apart from this
//! program.

use crate::tabled::is_answered;
use std::alloc::Global;
use std::process::Abort;
use std::test::Fail;

// Words, the texts of `p` and `t`, the status, and what is written.
type Row = (&'static str, &'static str, &'static str, u8, &'static str);

const LOCK: &str = "type t = Idle | Crit
array A[proc] : t
init (z) { A[z] = Idle }
unsafe (x y) { A[x] = Crit && A[y] = Crit }
transition enter (i) requires { A[i] = Idle } { A[i] := Crit }
";

const GUARDED_LOCK: &str = "type t = Idle | Crit
array A[proc] : t
init (z) { A[z] = Idle }
unsafe (x y) { A[x] = Crit && A[y] = Crit }
transition enter (i) requires { A[i] = Idle && forall_other j. A[j] = Idle } { A[i] := Crit }
";

const BARRIER: &str = "type t = Idle | Ready
var Done : bool
array A[proc] : t
init (z) { A[z] = Idle && Done = False }
unsafe { Done = True }
transition give (i j) requires { A[i] = Idle && A[j] = Idle } { A[i] := Ready }
transition finish (i) requires { A[i] = Ready && forall_other j. A[j] = Ready } { Done := True }
";

const TOKENS: &str = "type t = Off | Tok
var X : int
array A[proc] : t
init (z) { A[z] = Off && X = 1 }
unsafe { X = 0 }
transition step (i) requires { A[i] = Tok } { A[i] := Off; X := X - 1 }
";

const BOOLS: &str = "type b = U | V
array A[proc] : b
array B[proc] : b
array C[proc] : b
init (z) { }
unsafe (i) { A[i] <> B[i] && B[i] <> C[i] && A[i] <> C[i] }
";

const FIRST_BRANCH: &str = "type t = P | Q | R
var X : t
init { X = P }
unsafe { X = R }
transition go () requires { } { X := case | X = P : Q | X = P : R | _ : X }
";

const DIRECTORY: &str = "type msg = Empty | ReqShared | ReqExcl
type cache = Invalid | Shared | Exclusive
var ExGntd : bool
var CurCmd : msg
var CurPtr : proc
array Cache[proc] : cache
array ShrSet[proc] : bool
init (z) { Cache[z] = Invalid && ShrSet[z] = False && ExGntd = False && CurCmd = Empty }
unsafe (x y) { Cache[x] = Exclusive && Cache[y] <> Invalid }
transition req_shared (n)
  requires { CurCmd = Empty && Cache[n] = Invalid }
  { CurCmd := ReqShared; CurPtr := n; }
transition req_excl (n)
  requires { CurCmd = Empty && Cache[n] <> Exclusive }
  { CurCmd := ReqExcl; CurPtr := n; }
transition inv_excl (n)
  requires { ShrSet[n] = True && CurCmd = ReqExcl }
  { ExGntd := False; Cache[n] := Invalid; ShrSet[n] := False; }
transition inv_shared (n)
  requires { ShrSet[n] = True && CurCmd = ReqShared && ExGntd = True }
  { ExGntd := False; Cache[n] := Shared; ShrSet[n] := True; }
transition gnt_shared (n)
  requires { CurPtr = n && CurCmd = ReqShared && ExGntd = False }
  { CurCmd := Empty; ShrSet[n] := True; Cache[n] := Shared; }
transition gnt_excl (n)
  requires { CurCmd = ReqExcl && CurPtr = n && ShrSet[n] = False
             && forall_other j. ShrSet[j] = False }
  { CurCmd := Empty; ExGntd := True; ShrSet[n] := True; Cache[n] := Exclusive; }
";

const MOVING_TURN: &str = "type t = Idle | Crit
var X : proc
array A[proc] : t
init (z) { A[z] = Idle }
unsafe (i j) { A[i] = Crit && A[j] = Crit }
transition enter (i) requires { X = i } { A[i] := Crit }
transition move () requires { } { X := ? }
";

const BELOW_ZERO: &str = "var X : int
init { X = 0 }
unsafe { X < 0 }
transition step () requires { } { X := X + 1 }
";

const MINUS_ONE: &str = "var X : int
init { X = 0 }
unsafe { X = 0 - 1 }
transition step () requires { } { X := X + 1 }
";

const LOCK_TRACE: &str = "UNSAFE
trace 1
processes 2
A[#1] = Idle
A[#2] = Idle
step enter(#2)
step enter(#1)
unsafe 1 (#1 #2)
end
";

const GUARDED_LOCK_CERTIFICATE: &str = "SAFE
certificate 1
cubes 1
cube 2: A[#1] = Crit && A[#2] = Crit
end
";

const BARRIER_TRACE: &str = "UNSAFE WITH CRASHES
trace 1
processes 2
Done = False
A[#1] = Idle
A[#2] = Idle
step give(#1 #2)
crash #2
step finish(#1)
unsafe 1 ()
plain 2 #2
end
";

const BOOLS_CERTIFICATE: &str = "SAFE
certificate 1
cubes 0
end
";

const DIRECTORY_CERTIFICATE: &str = "SAFE
certificate 1
cubes 15
cube 2: Cache[#1] = Exclusive && Cache[#2] in {Shared,Exclusive}
cube 2: ExGntd = True && CurCmd = ReqShared && Cache[#1] = Exclusive && ShrSet[#2] = True
cube 2: ExGntd = False && CurCmd = ReqShared && Cache[#1] = Exclusive && CurPtr = #2
cube 2: CurCmd = ReqExcl && Cache[#1] in {Shared,Exclusive} && ShrSet[#1] = False && ShrSet[#2] = False && CurPtr = #2
cube 2: ExGntd = True && CurCmd = Empty && Cache[#1] = Invalid && Cache[#2] = Exclusive && ShrSet[#1] = True
cube 3: ExGntd = True && CurCmd = Empty && Cache[#1] = Invalid && Cache[#2] = Exclusive && ShrSet[#3] = True
cube 2: ExGntd = False && CurCmd = Empty && Cache[#1] = Invalid && Cache[#2] = Exclusive
cube 2: CurCmd = Empty && Cache[#1] in {Invalid,Shared} && Cache[#2] in {Shared,Exclusive} && ShrSet[#1] = False && ShrSet[#2] = False
cube 2: CurCmd = ReqExcl && Cache[#1] in {Shared,Exclusive} && ShrSet[#1] = False && ShrSet[#2] = True && CurPtr = #2
cube 2: CurCmd = Empty && Cache[#1] in {Invalid,Shared} && Cache[#2] in {Shared,Exclusive} && ShrSet[#1] = True && ShrSet[#2] = False
cube 2: ExGntd = False && CurCmd = ReqShared && Cache[#1] in {Shared,Exclusive} && ShrSet[#1] = False && CurPtr = #2
cube 2: ExGntd = False && CurCmd = Empty && Cache[#1] = Invalid && Cache[#2] in {Shared,Exclusive} && ShrSet[#2] = False
cube 2: ExGntd = True && CurCmd = ReqShared && Cache[#1] in {Shared,Exclusive} && ShrSet[#1] = False && ShrSet[#2] = True && CurPtr = #2
cube 3: ExGntd = True && CurCmd = ReqShared && Cache[#1] in {Shared,Exclusive} && ShrSet[#1] = False && ShrSet[#2] = True && CurPtr = #3
cube 3: ExGntd = True && CurCmd = Empty && Cache[#1] = Invalid && Cache[#2] in {Shared,Exclusive} && ShrSet[#2] = False && ShrSet[#3] = True
end
";

const MOVING_TURN_TRACE: &str = "UNSAFE
trace 2
processes 2
X = #2
A[#1] = Idle
A[#2] = Idle
step enter(#2)
step move() with X = #1
step enter(#1)
unsafe 1 (#1 #2)
end
";

const BELOW_ZERO_LINES_CERTIFICATE: &str = "SAFE
certificate 2
cubes 1
cube 0: X - 0 <= -1
unsafe 1 by 1 ()
piece 1 of cube 1 by 1 ()
end
";

const SEARCHES: [Row; 33] = [
    (
        "check p",
        BELOW_ZERO,
        "",
        0,
        "SAFE\ncertificate 1\ncubes 1\ncube 0: X - 0 <= -1\nend\n",
    ),
    (
        "check p --cubes 1",
        BELOW_ZERO,
        "",
        0,
        "SAFE\ncertificate 1\ncubes 1\ncube 0: X - 0 <= -1\nend\n",
    ),
    (
        "check p --cubes 5",
        MINUS_ONE,
        "",
        3,
        "UNKNOWN cubes\njournal 1\nbudget 5 6\nroot 1 (): cube 0: 0 - X <= 1 && X - 0 <= -1\nexpand 1\nnew 1 (): cube 0: 0 - X <= 2 && X - 0 <= -2\nexpand 2\nnew 1 (): cube 0: 0 - X <= 3 && X - 0 <= -3\nexpand 3\nnew 1 (): cube 0: 0 - X <= 4 && X - 0 <= -4\nexpand 4\nnew 1 (): cube 0: 0 - X <= 5 && X - 0 <= -5\nfull 5 needs 1\nend\n",
    ),
    (
        "check p",
        "var X : int\ninit { X = 0 }\nunsafe { X = 3 }\ntransition step () requires { } { X := X + 1 }\n",
        "",
        1,
        "UNSAFE\ntrace 1\nprocesses 1\nX = 0\nstep step()\nstep step()\nstep step()\nunsafe 1 ()\nend\n",
    ),
    (
        "check p",
        "var X : int\ninit { X = 0 }\nunsafe { X = 0 }\ntransition step () requires { } { X := X + 1 }\n",
        "",
        1,
        "UNSAFE\ntrace 1\nprocesses 1\nX = 0\nunsafe 1 ()\nend\n",
    ),
    ("check p", LOCK, "", 1, LOCK_TRACE),
    ("check p", GUARDED_LOCK, "", 0, GUARDED_LOCK_CERTIFICATE),
    (
        "check p --workers 4",
        GUARDED_LOCK,
        "",
        0,
        GUARDED_LOCK_CERTIFICATE,
    ),
    ("check p", BARRIER, "", 2, BARRIER_TRACE),
    (
        "check p --width 3",
        TOKENS,
        "",
        3,
        "UNKNOWN width\njournal 1\nbudget 4096 3\nroot 1 (): cube 0: 0 - X <= 0 && X - 0 <= 0\nexpand 1\nnew 1 (#1): cube 1: A[#1] = Tok && 0 - X <= -1 && X - 0 <= 1\nexpand 2\nnew 1 (#1 #2): cube 2: A[#1] = Tok && A[#2] = Tok && 0 - X <= -2 && X - 0 <= 2\nexpand 3\nnew 1 (#1 #2 #3): cube 3: A[#1] = Tok && A[#2] = Tok && A[#3] = Tok && 0 - X <= -3 && X - 0 <= 3\nexpand 4\nnew 1 (#1 #2 #3 #4): cube 4: A[#1] = Tok && A[#2] = Tok && A[#3] = Tok && A[#4] = Tok && 0 - X <= -4 && X - 0 <= 4\nwide 5\nend\n",
    ),
    ("sample 2", "", "", 0, "sample 2: SAFE, cubes 2\n"),
    ("sample 3", "", "", 0, "sample 3: SAFE, cubes 5\n"),
    ("sample 10", "", "", 0, "sample 10: SAFE, cubes 54\n"),
    ("sample 20", "", "", 0, "sample 20: SAFE, cubes 209\n"),
    (
        "sample 10 --workers 4",
        "",
        "",
        0,
        "sample 10: SAFE, cubes 54\n",
    ),
    (
        "sample 10 --cubes 5",
        "",
        "",
        3,
        "sample 10: UNKNOWN cubes\n",
    ),
    (
        "check p",
        "var X : proc\ninit { }\nunsafe (x y) { X <> x && X <> y }\n",
        "",
        1,
        "UNSAFE\ntrace 1\nprocesses 3\nX = #3\nunsafe 1 (#1 #2)\nend\n",
    ),
    ("check p", BOOLS, "", 0, BOOLS_CERTIFICATE),
    (
        "check p",
        "var X : int\nvar Y : int\ninit { }\nunsafe { X * Y = 0 }\n",
        "",
        4,
        "REFUSED T06 at 4:12\n",
    ),
    (
        "check p",
        "var X : int\ninit { }\nunsafe { X = 1000000001 }\n",
        "",
        4,
        "REFUSED L3 at 3:14\n",
    ),
    (
        "check p",
        "var X : int\ninit { }\nunsafe { X = 1000000000 }\n",
        "",
        1,
        "UNSAFE\ntrace 1\nprocesses 1\nX = 1000000000\nunsafe 1 ()\nend\n",
    ),
    ("check p", "", "", 4, "REFUSED P1 at 1:1\n"),
    ("check p", "(* a", "", 4, "REFUSED L2 at 1:1\n"),
    (
        "check p",
        FIRST_BRANCH,
        "",
        0,
        "SAFE\ncertificate 1\ncubes 1\ncube 0: X = R\nend\n",
    ),
    (
        "check p --workers 4",
        DIRECTORY,
        "",
        0,
        DIRECTORY_CERTIFICATE,
    ),
    (
        "check p",
        "var X : int\ninit { X = 0 && X = 1 }\nunsafe { X = 0 }\n",
        "",
        0,
        "SAFE\ncertificate 1\ncubes 1\ncube 0: 0 - X <= 0 && X - 0 <= 0\nend\n",
    ),
    (
        "check p",
        "type t = P | Q | R\nvar X : t\ninit { X = P }\nunsafe { X = R }\ntransition go () requires { X = P } { X := Q }\ntransition back () requires { X = Q } { X := P }\n",
        "",
        0,
        "SAFE\ncertificate 1\ncubes 1\ncube 0: X = R\nend\n",
    ),
    (
        "check p",
        "var X : int\nvar Y : int\ninit { }\nunsafe { X <= Y && Y < X }\n",
        "",
        0,
        BOOLS_CERTIFICATE,
    ),
    (
        "check p",
        "var X : int\nvar Y : int\ninit { X = 1 && Y = 0 }\nunsafe { X <= Y && Y <= 0 && X <= 0 }\n",
        "",
        0,
        "SAFE\ncertificate 1\ncubes 1\ncube 0: X - Y <= 0 && Y - 0 <= 0\nend\n",
    ),
    (
        "check p",
        "type t = P | Q | R\nvar X : t\ninit { X = P }\nunsafe { X = R }\ntransition any () requires { X = P } { X := ? }\n",
        "",
        1,
        "UNSAFE\ntrace 2\nprocesses 1\nX = P\nstep any() with X = R\nunsafe 1 ()\nend\n",
    ),
    ("check p", MOVING_TURN, "", 1, MOVING_TURN_TRACE),
    (
        "check p --format 2",
        BELOW_ZERO,
        "",
        0,
        BELOW_ZERO_LINES_CERTIFICATE,
    ),
    (
        "check p --format 2",
        GUARDED_LOCK,
        "",
        0,
        "SAFE\ncertificate 2\ncubes 1\ncube 2: A[#1] = Crit && A[#2] = Crit\nunsafe 1 by 1 (#1 #2)\nend\n",
    ),
];

const VERIFIED: [Row; 13] = [
    (
        "verify p t",
        GUARDED_LOCK,
        GUARDED_LOCK_CERTIFICATE,
        0,
        "ACCEPTED cubes 1\n",
    ),
    (
        "verify p t",
        GUARDED_LOCK,
        BOOLS_CERTIFICATE,
        9,
        "REFUSED unsafe 1\n",
    ),
    (
        "verify p t",
        GUARDED_LOCK,
        "SAFE\ncertificate 1\ncubes 2\ncube 2: A[#1] = Crit && A[#2] = Crit\ncube 1: A[#1] = Idle\nend\n",
        9,
        "REFUSED start 2\n",
    ),
    (
        "verify p t",
        GUARDED_LOCK,
        "SAFE\ncertificate 1\ncubes 1\ncube 2: A[#1] = Crit && A[#2] = Crit\n",
        9,
        "REFUSED C6 at line 5\n",
    ),
    (
        "verify p t",
        MINUS_ONE,
        "SAFE\ncertificate 1\ncubes 1\ncube 0: 0 - X <= 1 && X - 0 <= -1\nend\n",
        9,
        "REFUSED piece 1 of cube 1\n",
    ),
    (
        "verify p t",
        DIRECTORY,
        DIRECTORY_CERTIFICATE,
        0,
        "ACCEPTED cubes 15\n",
    ),
    (
        "verify p t",
        FIRST_BRANCH,
        "SAFE\ncertificate 1\ncubes 2\ncube 0: true\nend\n",
        9,
        "REFUSED C6 at line 5\n",
    ),
    (
        "verify p t",
        FIRST_BRANCH,
        "SAFE\ncertificate 1\ncubes 1\ncube 9: true\nend\n",
        9,
        "REFUSED C4 at line 4\n",
    ),
    (
        "verify p t",
        FIRST_BRANCH,
        "SAFE\ncertificate 1\ncubes 1\ncube 0: X = R && X = R\nend\n",
        9,
        "REFUSED C5 at line 4\n",
    ),
    (
        "verify p t",
        BELOW_ZERO,
        BELOW_ZERO_LINES_CERTIFICATE,
        0,
        "ACCEPTED cubes 1\n",
    ),
    (
        "verify p t",
        BELOW_ZERO,
        "SAFE\ncertificate 2\ncubes 1\ncube 0: X - 0 <= -1\npiece 1 of cube 1 by 1 ()\nend\n",
        9,
        "REFUSED unsafe 1\n",
    ),
    (
        "verify p t",
        BELOW_ZERO,
        "SAFE\ncertificate 2\ncubes 1\ncube 0: X - 0 <= -1\nunsafe 1 by 1 ()\npiece 1 of cube 1 by 1 ()\npiece 2 of cube 1 by 1 ()\nend\n",
        9,
        "REFUSED extra 3\n",
    ),
    (
        "verify p t",
        BELOW_ZERO,
        "SAFE\ncertificate 2\ncubes 1\ncube 0: X - 0 <= -1\nunsafe 1 by 2 ()\npiece 1 of cube 1 by 1 ()\nend\n",
        9,
        "REFUSED C8 at line 5\n",
    ),
];

const REPLAYED: [Row; 15] = [
    (
        "replay p t",
        LOCK,
        LOCK_TRACE,
        0,
        "REPLAYS steps 2 crashes 0\n",
    ),
    (
        "replay p t",
        BARRIER,
        BARRIER_TRACE,
        0,
        "REPLAYS steps 2 crashes 1\n",
    ),
    (
        "replay p t",
        BARRIER,
        "UNSAFE WITH CRASHES\ntrace 1\nprocesses 2\nDone = False\nA[#1] = Idle\nA[#2] = Idle\nstep give(#1 #2)\nstep finish(#1)\nunsafe 1 ()\nplain 2 #2\nend\n",
        9,
        "REFUSED event 2: other #2\n",
    ),
    (
        "replay p t",
        BARRIER,
        "UNSAFE WITH CRASHES\ntrace 1\nprocesses 2\nDone = False\nA[#1] = Idle\nA[#2] = Idle\ncrash #2\nstep give(#1 #2)\ncrash #2\nstep finish(#1)\nunsafe 1 ()\nplain 2 #2\nend\n",
        9,
        "REFUSED event 2: dead #2\n",
    ),
    (
        "replay p t",
        BARRIER,
        "UNSAFE WITH CRASHES\ntrace 1\nprocesses 2\nDone = False\nA[#1] = Idle\nA[#2] = Idle\nstep give(#1 #1)\ncrash #2\nstep finish(#1)\nunsafe 1 ()\nplain 2 #2\nend\n",
        9,
        "REFUSED event 1: equal #1\n",
    ),
    (
        "replay p t",
        BARRIER,
        "UNSAFE WITH CRASHES\ntrace 1\nprocesses 2\nDone = False\nA[#1] = Idle\nA[#2] = Idle\nstep finish(#1)\nstep give(#1 #2)\ncrash #2\nstep finish(#1)\nunsafe 1 ()\nplain 2 #2\nend\n",
        9,
        "REFUSED event 1: guard\n",
    ),
    (
        "replay p t",
        LOCK,
        "UNSAFE WITH CRASHES\ntrace 1\nprocesses 2\nA[#1] = Idle\nA[#2] = Idle\nstep enter(#2)\nstep enter(#1)\nunsafe 1 (#1 #2)\nplain 1 #1\nend\n",
        9,
        "REFUSED heading\n",
    ),
    (
        "replay p t",
        LOCK,
        "UNSAFE\ntrace 1\nprocesses 2\nA[#1] = Crit\nA[#2] = Idle\nstep enter(#2)\nstep enter(#1)\nunsafe 1 (#1 #2)\nend\n",
        9,
        "REFUSED start #1\n",
    ),
    (
        "replay p t",
        LOCK,
        "UNSAFE\ntrace 1\nprocesses 2\nA[#1] = Idle\nA[#2] = Idle\nstep enter(#2)\nstep enter(#1)\nunsafe 1 (#1 #1)\nend\n",
        9,
        "REFUSED unsafe\n",
    ),
    (
        "replay p t",
        FIRST_BRANCH,
        "UNSAFE\ntrace 1\nprocesses 1\nX = P\nstep go()\nunsafe 1 ()\nend\n",
        9,
        "REFUSED unsafe\n",
    ),
    (
        "replay p t",
        LOCK,
        "UNSAFE\ntrace 1\nprocesses 2\nA[#1] = Idle\nA[#2] = Idle\nstep enter(#2)\nstep enter(#2)\nunsafe 1 (#1 #2)\nend\n",
        9,
        "REFUSED event 2: guard\n",
    ),
    (
        "replay p t",
        LOCK,
        "UNSAFE\ntrace 1\nprocesses 2\nA[#1] = Idle\nA[#2] = Idle\nstep enter(#1 #1)\nstep enter(#1)\nunsafe 1 (#1 #2)\nend\n",
        9,
        "REFUSED S4 at line 6\n",
    ),
    (
        "replay p t",
        LOCK,
        "UNSAFE\ntrace 1\nprocesses 129\nA[#1] = Idle\nA[#2] = Idle\nstep enter(#2)\nstep enter(#1)\nunsafe 1 (#1 #2)\nend\n",
        9,
        "REFUSED S2 at line 3\n",
    ),
    (
        "replay p t",
        MOVING_TURN,
        MOVING_TURN_TRACE,
        0,
        "REPLAYS steps 3 crashes 0\n",
    ),
    (
        "replay p t",
        MOVING_TURN,
        "UNSAFE\ntrace 2\nprocesses 2\nX = #2\nA[#1] = Idle\nA[#2] = Idle\nstep enter(#2) with X = #1\nstep move() with X = #1\nstep enter(#1)\nunsafe 1 (#1 #2)\nend\n",
        9,
        "REFUSED event 1: pick X\n",
    ),
];

const OTHERS: [Row; 11] = [
    (
        "print p",
        GUARDED_LOCK,
        "",
        0,
        "type t = Idle | Crit\narray A[proc] : t\ninit (_1) { A[_1] = Idle }\nunsafe (_1 _2) { A[_1] = Crit && A[_2] = Crit }\ntransition enter (_1) requires { (A[_1] = Idle) && forall_other _0. (A[_0] = Idle) } { A[_0] := case | _1 = _0 : Crit | _ : A[_0]; }\n",
    ),
    ("check f --workers 0", "", "", 5, "WORDS U7 at 4\n"),
    ("check f --workers 17", "", "", 5, "WORDS U7 at 4\n"),
    ("check f --cubes 9 --cubes 9", "", "", 5, "WORDS U8 at 5\n"),
    ("check", "", "", 5, "WORDS U3 at 2\n"),
    ("check f g", "", "", 5, "WORDS U4 at 3\n"),
    ("--help", "", "", 5, "WORDS U2 at 1\n"),
    ("print f --width=2", "", "", 5, "WORDS U9 at 3\n"),
    ("print p", "type t = Idle |", "", 4, "REFUSED P1 at 1:16\n"),
    (
        "print p",
        "init { (((((((((((((((((((((((((((((((((((((((((((((((((((((((((((((((((",
        "",
        4,
        "REFUSED P2 at 1:72\n",
    ),
    (
        "print p",
        "var X : int\ninit { }\nunsafe { X = 0 }\ntransition t () requires { } { X := ? }\n",
        "",
        4,
        "REFUSED T19 at 4:37\n",
    ),
];

fn are_answered(rt: &impl Abort, alloc: Global, rows: &[Row]) -> Result<(), Fail> {
    for row in rows {
        let (words, protocol, other, status, written) = *row;
        let none = ([].as_slice(), [].as_slice());
        is_answered(rt, alloc, words, (protocol, other), none, status, written)?;
    }
    Ok(())
}

#[test]
fn searches(rt: HostRuntime) -> Result<(), Fail> {
    are_answered(&rt, rt.alloc(), &SEARCHES)
}

#[test]
fn certificates(rt: HostRuntime) -> Result<(), Fail> {
    are_answered(&rt, rt.alloc(), &VERIFIED)
}

#[test]
fn traces(rt: HostRuntime) -> Result<(), Fail> {
    are_answered(&rt, rt.alloc(), &REPLAYED)
}

#[test]
fn words_and_texts(rt: HostRuntime) -> Result<(), Fail> {
    are_answered(&rt, rt.alloc(), &OTHERS)
}
