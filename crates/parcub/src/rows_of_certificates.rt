//! Certificates of both versions: accepted ones, each of their prefixes, and single changes, with the first fault or the first
//! obligation that fails. Each answer was computed apart from this program.

use crate::tabled::is_answered;
use std::alloc::Global;
use std::process::Abort;
use std::test::Fail;

const LOCK: &str = "type t = Idle | Want | Crit
var Turn : proc
var Held : int
array A[proc] : t
init (z) { A[z] = Idle && Held = 0 }
unsafe (x) { A[x] = Idle && A[x] = Crit }
unsafe (x y) { A[x] = Crit && A[y] = Crit }
transition ask (i) requires { A[i] = Idle } { A[i] := Want; Turn := i }
transition go (i) requires { A[i] = Want && Turn = i && Held < 1 } { A[i] := Crit; Held := 1 }
transition leave (i) requires { A[i] = Crit && forall_other j. A[j] <> Crit } { A[i] := Idle; Held := Held - 1 }
";

const FIRST: &str = "SAFE
certificate 1
cubes 3
cube 2: A[#1] = Crit && A[#2] = Crit
cube 2: A[#1] = Want && A[#2] = Crit && Turn = #1 && Held - 0 <= 0
cube 2: A[#1] = Idle && A[#2] = Crit && Held - 0 <= 0
end
";

const SECOND: &str = "SAFE
certificate 2
cubes 3
cube 2: A[#1] = Crit && A[#2] = Crit
cube 2: A[#1] = Want && A[#2] = Crit && Turn = #1 && Held - 0 <= 0
cube 2: A[#1] = Idle && A[#2] = Crit && Held - 0 <= 0
unsafe 2 by 1 (#1 #2)
piece 1 of cube 1 by 1 (#1 #2)
piece 2 of cube 1 by 2 (#1 #2)
piece 3 of cube 1 by 2 (#2 #1)
piece 4 of cube 1 by 1 (#1 #2)
piece 1 of cube 2 by 3 (#1 #2)
piece 1 of cube 3 by 3 (#1 #2)
end
";

// A protocol and its certificates for the prefixes.
const SMALL: &str = "type t = P | Q
array A[proc] : t
init (z) { A[z] = P }
unsafe (x) { A[x] = Q }
transition t (i) requires { A[i] = Q } { A[j] := Q }
";

const SMALL_FIRST: &str = "SAFE
certificate 1
cubes 1
cube 1: A[#1] = Q
end
";

const SMALL_SECOND: &str = "SAFE
certificate 2
cubes 1
cube 1: A[#1] = Q
unsafe 1 by 1 (#1)
piece 1 of cube 1 by 1 (#1)
piece 2 of cube 1 by 1 (#2)
end
";

// No step, and no goal that a state meets.
const STILL: &str = "type t = P | Q
var X : int
var F : t
array A[proc] : t
init (z) { X = 0 && A[z] = P }
unsafe { F = P && F = Q }
";

// Steps that move a bound, and with three processes.
const FURTHER: &str = "type t = P | Q
var X : int
array A[proc] : t
init (z) { X = 0 && A[z] = P }
unsafe (x) { X < -1000000000 && A[x] = Q }
transition more () requires { } { X := X + 1000000000 }
transition spread (i j k) requires { A[i] = Q && A[j] = Q && A[k] = P } { A[k] := Q }
";

// No start.
const NEVER: &str = "var B : bool
init { False }
unsafe { B }
transition t () requires { B } { B := ? }
";

// Each proper prefix: up to which length, and the answer.
const PREFIXES_OF_FIRST: [(usize, &str); 6] = [
    (5, "REFUSED C1 at line 1\n"),
    (19, "REFUSED C1 at line 2\n"),
    (27, "REFUSED C2 at line 3\n"),
    (32, "REFUSED C6 at line 4\n"),
    (45, "REFUSED C3 at line 4\n"),
    (49, "REFUSED C6 at line 5\n"),
];

// Each proper prefix: up to which length, and the answer.
const PREFIXES_OF_SECOND: [(usize, &str); 12] = [
    (5, "REFUSED C1 at line 1\n"),
    (19, "REFUSED C1 at line 2\n"),
    (27, "REFUSED C2 at line 3\n"),
    (32, "REFUSED C6 at line 4\n"),
    (45, "REFUSED C3 at line 4\n"),
    (52, "REFUSED C6 at line 5\n"),
    (64, "REFUSED C7 at line 5\n"),
    (70, "REFUSED C6 at line 6\n"),
    (92, "REFUSED C7 at line 6\n"),
    (98, "REFUSED C6 at line 7\n"),
    (120, "REFUSED C7 at line 7\n"),
    (124, "REFUSED C6 at line 8\n"),
];

// What stands once, what takes its place, and the answer.
const CHANGES_OF_FIRST: [(&str, &str, &str); 34] = [
    ("SAFE\n", "UNSAFE\n", "REFUSED C1 at line 1\n"),
    ("SAFE\n", "SAFE \n", "REFUSED C1 at line 1\n"),
    ("certificate 1", "certificate 3", "REFUSED C1 at line 2\n"),
    ("certificate 1", "certificate 01", "REFUSED C1 at line 2\n"),
    ("certificate 1\n", "", "REFUSED C1 at line 2\n"),
    ("cubes 3", "cubes 03", "REFUSED C2 at line 3\n"),
    ("cubes 3", "cubes -3", "REFUSED C2 at line 3\n"),
    ("cubes 3", "cube 3", "REFUSED C2 at line 3\n"),
    ("cubes 3", "cubes 3 ", "REFUSED C2 at line 3\n"),
    ("cubes 3", "cubes", "REFUSED C2 at line 3\n"),
    (
        "cubes 3",
        "cubes 99999999999999999999",
        "REFUSED C6 at line 7\n",
    ),
    ("cubes 3", "cubes 4", "REFUSED C6 at line 7\n"),
    ("cubes 3", "cubes 2", "REFUSED C6 at line 6\n"),
    ("cubes 3", "cubes 0", "REFUSED C6 at line 4\n"),
    (
        "cube 2: A[#1] = Idle",
        "cube 2:A[#1] = Idle",
        "REFUSED C3 at line 6\n",
    ),
    (
        "cube 2: A[#1] = Idle",
        "cube 02: A[#1] = Idle",
        "REFUSED C3 at line 6\n",
    ),
    (
        "cube 2: A[#1] = Idle",
        "cube 2: A[#1] == Idle",
        "REFUSED C3 at line 6\n",
    ),
    (" && Turn", " & Turn", "REFUSED C3 at line 5\n"),
    ("Turn = #1", "#1 = Turn", "REFUSED C3 at line 5\n"),
    ("Turn = #1", "Turn = 1", "REFUSED C3 at line 5\n"),
    (
        "Held - 0 <= 0\nend",
        "Held - 0 < 1\nend",
        "REFUSED C3 at line 6\n",
    ),
    (
        "Held - 0 <= 0\nend",
        "Held - 0 <= -0\nend",
        "REFUSED C3 at line 6\n",
    ),
    (
        "cube 2: A[#1] = Idle",
        "cube 2 : A[#1] = Idle",
        "REFUSED C3 at line 6\n",
    ),
    (
        "cube 2: A[#1] = Idle",
        "cubes 2: A[#1] = Idle",
        "REFUSED C6 at line 6\n",
    ),
    (
        "cube 2: A[#1] = Idle",
        " cube 2: A[#1] = Idle",
        "REFUSED C6 at line 6\n",
    ),
    ("A[#1] = Idle", "A[#3] = Idle", "REFUSED C4 at line 6\n"),
    ("A[#1] = Idle", "A[#0] = Idle", "REFUSED C4 at line 6\n"),
    ("A[#1] = Idle", "A[#1] = Nothing", "REFUSED C4 at line 6\n"),
    ("A[#1] = Idle", "A[#1] = True", "REFUSED C4 at line 6\n"),
    ("A[#1] = Idle", "B[#1] = Idle", "REFUSED C4 at line 6\n"),
    ("A[#1] = Idle", "A = Idle", "REFUSED C4 at line 6\n"),
    (
        "cube 2: A[#1] = Idle",
        "cube 1: A[#1] = Idle",
        "REFUSED C4 at line 6\n",
    ),
    (
        "cube 2: A[#1] = Idle",
        "cube 9: A[#1] = Idle",
        "REFUSED C4 at line 6\n",
    ),
    (
        "cube 2: A[#1] = Idle",
        "cube 8: A[#1] = Idle",
        "REFUSED piece 1 of cube 2\n",
    ),
];

const MORE_CHANGES_OF_FIRST: [(&str, &str, &str); 34] = [
    ("Turn = #1", "Turn = #3", "REFUSED C4 at line 5\n"),
    ("Turn = #1", "Turn = Idle", "REFUSED C4 at line 5\n"),
    ("Turn = #1", "Held = #1", "REFUSED C4 at line 5\n"),
    (
        "Held - 0 <= 0\nend",
        "Held - 0 <= 140000000000001\nend",
        "REFUSED C4 at line 6\n",
    ),
    (
        "Held - 0 <= 0\nend",
        "Held - 0 <= 140000000000000\nend",
        "REFUSED piece 2 of cube 3\n",
    ),
    (
        "Held - 0 <= 0\nend",
        "Held - Turn <= 0\nend",
        "REFUSED C4 at line 6\n",
    ),
    ("A[#1] = Idle", "A[#1] in {Idle}", "REFUSED C5 at line 6\n"),
    (
        "A[#1] = Idle",
        "A[#1] in {Want,Idle}",
        "REFUSED C5 at line 6\n",
    ),
    (
        "A[#1] = Idle",
        "A[#1] in {Idle,Want,Crit}",
        "REFUSED C5 at line 6\n",
    ),
    (
        "A[#1] = Idle",
        "A[#1] in {Idle,Idle}",
        "REFUSED C5 at line 6\n",
    ),
    (
        "A[#1] = Idle && A[#2] = Crit",
        "A[#2] = Crit && A[#1] = Idle",
        "REFUSED C5 at line 6\n",
    ),
    (
        "A[#1] = Idle && A[#2] = Crit",
        "A[#1] = Idle && A[#1] = Idle",
        "REFUSED C5 at line 6\n",
    ),
    (
        "Held - 0 <= 0\nend",
        "Held - 0 <= 0 && Held - 0 <= 1\nend",
        "REFUSED C5 at line 6\n",
    ),
    ("Turn = #1", "Turn = Turn", "REFUSED C5 at line 5\n"),
    ("end", "End", "REFUSED C6 at line 7\n"),
    ("end", "end ", "REFUSED C6 at line 7\n"),
    ("end\n", "end", "REFUSED C6 at line 7\n"),
    ("end\n", "end\n\n", "REFUSED C6 at line 8\n"),
    ("end\n", "end\nend\n", "REFUSED C6 at line 8\n"),
    ("end\n", "", "REFUSED C6 at line 7\n"),
    ("end", "cube 0: true", "REFUSED C6 at line 7\n"),
    ("end", "cube 0: A", "REFUSED C3 at line 7\n"),
    ("end", "cube 0: A = Idle", "REFUSED C4 at line 7\n"),
    ("end", "cube 0: Turn = Turn", "REFUSED C5 at line 7\n"),
    ("end", "unsafe 2 by 1 (#1 #2)", "REFUSED C6 at line 7\n"),
    (
        "A[#1] = Idle && A[#2] = Crit",
        "A[#1] = Idle && A[#2] in {Idle,Crit}",
        "REFUSED start 3\n",
    ),
    (
        "A[#1] = Idle && A[#2] = Crit",
        "A[#2] in {}",
        "REFUSED piece 1 of cube 2\n",
    ),
    (
        "A[#1] = Crit && A[#2] = Crit",
        "A[#1] = Crit && A[#2] = Crit && Turn = #1",
        "REFUSED unsafe 2\n",
    ),
    (
        "A[#1] = Crit && A[#2] = Crit\n",
        "A[#1] = Crit\n",
        "REFUSED piece 3 of cube 1\n",
    ),
    (" && Turn = #1", "", "ACCEPTED cubes 3\n"),
    (" && Turn = #1", " && Turn <> #2", "ACCEPTED cubes 3\n"),
    (
        "A[#1] = Idle && A[#2] = Crit && Held - 0 <= 0",
        "A[#1] = Idle && A[#2] = Crit && Held - 0 <= -1",
        "REFUSED piece 1 of cube 2\n",
    ),
    (
        "cube 2: A[#1] = Idle && A[#2] = Crit",
        "cube 1: A[#1] = Crit",
        "ACCEPTED cubes 3\n",
    ),
    (
        "A[#1] = Idle && A[#2] = Crit",
        "A[#1] = Crit && A[#2] = Idle",
        "ACCEPTED cubes 3\n",
    ),
];

// What stands once, what takes its place, and the answer.
const CHANGES_OF_SECOND: [(&str, &str, &str); 66] = [
    ("certificate 2", "certificate 1", "REFUSED C6 at line 7\n"),
    ("unsafe 2 by", "unsafe 02 by", "REFUSED C7 at line 7\n"),
    ("unsafe 2 by", "unsafe  2 by", "REFUSED C7 at line 7\n"),
    (
        "unsafe 2 by 1 (#1 #2)",
        "unsafe 2 by 1 (#1, #2)",
        "REFUSED C7 at line 7\n",
    ),
    (
        "unsafe 2 by 1 (#1 #2)",
        "unsafe 2 by 1 (#01 #2)",
        "REFUSED C7 at line 7\n",
    ),
    (
        "unsafe 2 by 1 (#1 #2)",
        "unsafe 2 by 1 (1 2)",
        "REFUSED C7 at line 7\n",
    ),
    (
        "unsafe 2 by 1 (#1 #2)",
        "unsafe 2 by 1",
        "REFUSED C7 at line 7\n",
    ),
    (
        "unsafe 2 by 1 (#1 #2)\npiece 1 of cube 1 by 1 (#1 #2)",
        "piece 1 of cube 1 by 1 (#1 #2)\nunsafe 2 by 1 (#1 #2)",
        "REFUSED C7 at line 8\n",
    ),
    (
        "unsafe 2 by 1 (#1 #2)\n",
        "unsafe 2 by 1 (#1 #2)\nunsafe 2 by 1 (#1 #2)\n",
        "REFUSED C7 at line 8\n",
    ),
    (
        "piece 4 of cube 1 by 1 (#1 #2)\n",
        "piece 4 of cube 1 by 1 (#1 #2)\npiece 4 of cube 1 by 2 (#1 #2)\n",
        "REFUSED C7 at line 12\n",
    ),
    (
        "piece 1 of cube 2 by",
        "piece 1 of cube 02 by",
        "REFUSED C7 at line 12\n",
    ),
    (
        "piece 3 of cube 1",
        "piece 1 of cube 1",
        "REFUSED C7 at line 10\n",
    ),
    (
        "piece 3 of cube 1",
        "piece -3 of cube 1",
        "REFUSED C7 at line 10\n",
    ),
    ("unsafe 2 by 1", "unsafe 2 by 4", "REFUSED C8 at line 7\n"),
    ("unsafe 2 by 1", "unsafe 2 by 0", "REFUSED C8 at line 7\n"),
    (
        "unsafe 2 by 1",
        "unsafe 2 by 18446744073709551617",
        "REFUSED C8 at line 7\n",
    ),
    ("unsafe 2 by", "unsafe 0 by", "REFUSED C8 at line 7\n"),
    ("unsafe 2 by", "unsafe 3 by", "REFUSED C8 at line 7\n"),
    (
        "unsafe 2 by 1 (#1 #2)",
        "unsafe 2 by 1 (#1)",
        "REFUSED C8 at line 7\n",
    ),
    (
        "unsafe 2 by 1 (#1 #2)",
        "unsafe 2 by 1 (#1 #2 #3)",
        "REFUSED C8 at line 7\n",
    ),
    (
        "unsafe 2 by 1 (#1 #2)",
        "unsafe 2 by 1 ()",
        "REFUSED C8 at line 7\n",
    ),
    (
        "unsafe 2 by 1 (#1 #2)",
        "unsafe 2 by 1 (#0 #2)",
        "REFUSED C8 at line 7\n",
    ),
    (
        "unsafe 2 by 1 (#1 #2)",
        "unsafe 2 by 1 (#1 #1)",
        "REFUSED C8 at line 7\n",
    ),
    (
        "unsafe 2 by 1 (#1 #2)",
        "unsafe 2 by 1 (#1 #3)",
        "REFUSED unsafe 2\n",
    ),
    (
        "unsafe 2 by 1 (#1 #2)",
        "unsafe 2 by 1 (#1 #11)",
        "REFUSED unsafe 2\n",
    ),
    (
        "unsafe 2 by 1 (#1 #2)",
        "unsafe 2 by 1 (#1 #12)",
        "REFUSED C8 at line 7\n",
    ),
    (
        "piece 1 of cube 3 by 3",
        "piece 0 of cube 3 by 3",
        "REFUSED C8 at line 13\n",
    ),
    (
        "piece 1 of cube 3 by 3",
        "piece 1 of cube 4 by 3",
        "REFUSED C8 at line 13\n",
    ),
    (
        "piece 1 of cube 3 by 3",
        "piece 1 of cube 3 by 4",
        "REFUSED C8 at line 13\n",
    ),
    (
        "unsafe 2 by 1 (#1 #2)\n",
        "cube 0: true\n",
        "REFUSED C6 at line 7\n",
    ),
    ("unsafe 2 by 1 (#1 #2)\n", "\n", "REFUSED C6 at line 7\n"),
    (
        "piece 4 of cube 1 by 1 (#1 #2)\n",
        "pieces 4 of cube 1 by 1 (#1 #2)\n",
        "REFUSED C6 at line 11\n",
    ),
    ("end\n", "end", "REFUSED C6 at line 14\n"),
    ("end\n", "", "REFUSED C6 at line 14\n"),
    ("end\n", "end\nend\n", "REFUSED C6 at line 15\n"),
    ("unsafe 2 by 1 (#1 #2)\n", "", "REFUSED unsafe 2\n"),
    (
        "piece 1 of cube 1 by 1 (#1 #2)\n",
        "",
        "REFUSED piece 1 of cube 1\n",
    ),
    (
        "piece 2 of cube 1 by 2 (#1 #2)\n",
        "",
        "REFUSED piece 2 of cube 1\n",
    ),
    (
        "piece 1 of cube 3 by 3 (#1 #2)\n",
        "",
        "REFUSED piece 1 of cube 3\n",
    ),
    (
        "piece 1 of cube 2 by 3 (#1 #2)\npiece 1 of cube 3 by 3 (#1 #2)\n",
        "",
        "REFUSED piece 1 of cube 2\n",
    ),
    (
        "unsafe 2 by 1 (#1 #2)\n",
        "unsafe 1 by 1 (#1 #2)\nunsafe 2 by 1 (#1 #2)\n",
        "REFUSED extra 1\n",
    ),
    (
        "unsafe 2 by 1 (#1 #2)",
        "unsafe 2 by 1 (#2 #1)",
        "ACCEPTED cubes 3\n",
    ),
    ("unsafe 2 by 1", "unsafe 2 by 2", "REFUSED unsafe 2\n"),
    (
        "piece 3 of cube 1 by 2 (#2 #1)",
        "piece 3 of cube 1 by 2 (#1 #2)",
        "REFUSED piece 3 of cube 1\n",
    ),
    (
        "piece 3 of cube 1 by 2 (#2 #1)",
        "piece 3 of cube 1 by 3 (#2 #1)",
        "REFUSED piece 3 of cube 1\n",
    ),
    (
        "piece 3 of cube 1 by 2 (#2 #1)",
        "piece 3 of cube 1 by 1 (#2 #1)",
        "REFUSED piece 3 of cube 1\n",
    ),
    (
        "piece 3 of cube 1 by 2 (#2 #1)",
        "piece 3 of cube 1 by 2 (#2 #2)",
        "REFUSED C8 at line 10\n",
    ),
    (
        "piece 3 of cube 1 by 2 (#2 #1)",
        "piece 3 of cube 1 by 2 (#2 #3)",
        "REFUSED piece 3 of cube 1\n",
    ),
    (
        "piece 4 of cube 1 by 1 (#1 #2)",
        "piece 4 of cube 1 by 1 (#2 #1)",
        "ACCEPTED cubes 3\n",
    ),
    (
        "piece 4 of cube 1 by 1 (#1 #2)",
        "piece 4 of cube 1 by 1 (#1 #3)",
        "REFUSED piece 4 of cube 1\n",
    ),
    (
        "piece 4 of cube 1 by 1 (#1 #2)",
        "piece 4 of cube 1 by 1 (#3 #2)",
        "REFUSED piece 4 of cube 1\n",
    ),
    (
        "piece 1 of cube 3 by 3 (#1 #2)\n",
        "piece 1 of cube 3 by 3 (#1 #2)\npiece 2 of cube 3 by 3 (#1 #2)\n",
        "REFUSED extra 8\n",
    ),
    (
        "piece 1 of cube 2 by 3 (#1 #2)\n",
        "piece 1 of cube 2 by 3 (#1 #2)\npiece 2 of cube 2 by 3 (#1 #2)\npiece 3 of cube 2 by 3 (#1 #2)\n",
        "REFUSED extra 7\n",
    ),
    (
        "piece 1 of cube 3 by 3 (#1 #2)\n",
        "piece 1 of cube 3 by 3 (#1 #2)\npiece 18446744073709551617 of cube 3 by 3 (#1 #2)\n",
        "REFUSED C8 at line 14\n",
    ),
    (
        "piece 1 of cube 3 by 3",
        "piece 18446744073709551616 of cube 3 by 3",
        "REFUSED piece 1 of cube 3\n",
    ),
    (
        "piece 1 of cube 3 by 3",
        "piece 18446744073709551617 of cube 3 by 3",
        "REFUSED C8 at line 13\n",
    ),
    (
        "piece 1 of cube 3 by 3",
        "piece 1 of cube 18446744073709551617 by 3",
        "REFUSED C8 at line 13\n",
    ),
    (
        "unsafe 2 by",
        "unsafe 18446744073709551618 by",
        "REFUSED C8 at line 7\n",
    ),
    (
        "piece 1 of cube 3 by 3",
        "piece 99999999999999999999999999999999999999991 of cube 3 by 3",
        "REFUSED C8 at line 13\n",
    ),
    (
        "Held - 0 <= 0\nunsafe",
        "Held - 0 <= 140000000000001\nunsafe",
        "REFUSED C4 at line 6\n",
    ),
    (
        "A[#1] = Crit && A[#2] = Crit",
        "A[#1] = Crit",
        "REFUSED piece 2 of cube 1\n",
    ),
    (
        "A[#1] = Idle && A[#2] = Crit",
        "A[#1] = Idle && A[#2] in {Idle,Crit}",
        "REFUSED start 3\n",
    ),
    (
        "A[#1] = Idle && A[#2] = Crit",
        "A[#1] = Idle && A[#2] in {Idle}",
        "REFUSED C5 at line 6\n",
    ),
    (
        "cube 2: A[#1] = Idle",
        "cube 9: A[#1] = Idle",
        "REFUSED C4 at line 6\n",
    ),
    ("cubes 3", "cubes 2", "REFUSED C6 at line 6\n"),
    ("cubes 3", "cubes 4", "REFUSED C6 at line 7\n"),
];

// Limits, and lists that are empty.
const ROWS: [(&str, &str, &str); 22] = [
    (
        STILL,
        "SAFE\ncertificate 1\ncubes 0\nend\n",
        "ACCEPTED cubes 0\n",
    ),
    (
        STILL,
        "SAFE\ncertificate 2\ncubes 0\nend\n",
        "ACCEPTED cubes 0\n",
    ),
    (
        STILL,
        "SAFE\ncertificate 2\ncubes 0\nunsafe 1 by 1 ()\nend\n",
        "REFUSED C8 at line 4\n",
    ),
    (
        STILL,
        "SAFE\ncertificate 1\ncubes 1\ncube 8: A[#8] = Q\nend\n",
        "ACCEPTED cubes 1\n",
    ),
    (
        STILL,
        "SAFE\ncertificate 1\ncubes 1\ncube 9: A[#8] = Q\nend\n",
        "REFUSED C4 at line 4\n",
    ),
    (
        STILL,
        "SAFE\ncertificate 1\ncubes 1\ncube 8: A[#9] = Q\nend\n",
        "REFUSED C4 at line 4\n",
    ),
    (
        STILL,
        "SAFE\ncertificate 1\ncubes 1\ncube 8: true\nend\n",
        "REFUSED start 1\n",
    ),
    (
        STILL,
        "SAFE\ncertificate 1\ncubes 2\ncube 0: 0 - X <= -140000000000000\ncube 0: X - 0 <= -140000000000000\nend\n",
        "ACCEPTED cubes 2\n",
    ),
    (
        STILL,
        "SAFE\ncertificate 1\ncubes 2\ncube 0: 0 - X <= -140000000000000\ncube 0: X - 0 <= -140000000000001\nend\n",
        "REFUSED C4 at line 5\n",
    ),
    (
        STILL,
        "SAFE\ncertificate 1\ncubes 2\ncube 0: F = P\ncube 0: 0 - X <= 140000000000001\nend\n",
        "REFUSED C4 at line 5\n",
    ),
    (
        STILL,
        "SAFE\ncertificate 1\ncubes 2\ncube 0: 0 - X <= -1\ncube 0: F = P\nend\n",
        "REFUSED start 2\n",
    ),
    (
        STILL,
        "SAFE\ncertificate 2\ncubes 3\ncube 0: 0 - X <= -1\ncube 1: A[#1] = Q\ncube 0: F in {}\nend\n",
        "ACCEPTED cubes 3\n",
    ),
    (
        FURTHER,
        "SAFE\ncertificate 1\ncubes 0\nend\n",
        "REFUSED unsafe 1\n",
    ),
    (
        FURTHER,
        "SAFE\ncertificate 1\ncubes 2\ncube 0: X - 0 <= -140000000000000\ncube 1: A[#1] = Q\nend\n",
        "ACCEPTED cubes 2\n",
    ),
    (
        FURTHER,
        "SAFE\ncertificate 1\ncubes 2\ncube 0: X - 0 <= -140000000000000\ncube 8: A[#8] = Q\nend\n",
        "REFUSED unsafe 1\n",
    ),
    (
        FURTHER,
        "SAFE\ncertificate 1\ncubes 2\ncube 8: A[#8] = Q\ncube 1: A[#1] = Q\nend\n",
        "ACCEPTED cubes 2\n",
    ),
    (
        FURTHER,
        "SAFE\ncertificate 1\ncubes 2\ncube 0: 0 - X <= -140000000000000\ncube 1: A[#1] = Q\nend\n",
        "REFUSED piece 1 of cube 1\n",
    ),
    (
        NEVER,
        "SAFE\ncertificate 1\ncubes 1\ncube 0: true\nend\n",
        "ACCEPTED cubes 1\n",
    ),
    (
        NEVER,
        "SAFE\ncertificate 1\ncubes 1\ncube 0: B = True\nend\n",
        "ACCEPTED cubes 1\n",
    ),
    (
        NEVER,
        "SAFE\ncertificate 1\ncubes 0\nend\n",
        "REFUSED unsafe 1\n",
    ),
    (
        NEVER,
        "SAFE\ncertificate 2\ncubes 1\ncube 0: B = True\nunsafe 1 by 1 ()\npiece 1 of cube 1 by 1 ()\nend\n",
        "ACCEPTED cubes 1\n",
    ),
    (
        NEVER,
        "SAFE\ncertificate 2\ncubes 1\ncube 0: B = True\nunsafe 1 by 1 ()\npiece 2 of cube 1 by 1 ()\nend\n",
        "REFUSED piece 1 of cube 1\n",
    ),
];

fn is_verified(
    rt: &impl Abort,
    alloc: Global,
    protocol: &str,
    certificate: &str,
    written: &str,
) -> Result<(), Fail> {
    let none = ([].as_slice(), [].as_slice());
    let status = if written.starts_with("ACCEPTED") {
        0
    } else {
        9
    };
    let texts = (protocol, certificate);
    is_answered(rt, alloc, "verify p t", texts, none, status, written)
}

fn is_verified_changed(
    rt: &impl Abort,
    alloc: Global,
    certificate: &str,
    change: (&str, &str),
    written: &str,
) -> Result<(), Fail> {
    let (old, new) = change;
    let (front, back) = certificate.split_once(old).expect(rt, old);
    let text = format!(in alloc; "{front}{new}{back}")?;
    is_verified(rt, alloc, LOCK, text.as_str(), written)
}

fn are_prefixes_refused(
    rt: &impl Abort,
    alloc: Global,
    certificate: &str,
    answers: &[(usize, &str)],
) -> Result<(), Fail> {
    for length in 0..certificate.len() {
        let front = certificate.get(..length).expect(rt, "a prefix");
        let answer = answers.iter().find(|answer| length < answer.0);
        let (_, written) = answer.expect(rt, "an answer");
        is_verified(rt, alloc, SMALL, front, written)?;
    }
    Ok(())
}

#[test]
fn accepted_and_limits(rt: HostRuntime) -> Result<(), Fail> {
    let alloc = rt.alloc();
    is_verified(&rt, alloc, LOCK, FIRST, "ACCEPTED cubes 3\n")?;
    is_verified(&rt, alloc, LOCK, SECOND, "ACCEPTED cubes 3\n")?;
    for (protocol, certificate, written) in ROWS {
        is_verified(&rt, alloc, protocol, certificate, written)?;
    }
    Ok(())
}

#[test]
fn prefixes(rt: HostRuntime) -> Result<(), Fail> {
    let alloc = rt.alloc();
    are_prefixes_refused(&rt, alloc, SMALL_FIRST, &PREFIXES_OF_FIRST)?;
    are_prefixes_refused(&rt, alloc, SMALL_SECOND, &PREFIXES_OF_SECOND)?;
    is_verified(&rt, alloc, SMALL, SMALL_FIRST, "ACCEPTED cubes 1\n")?;
    is_verified(&rt, alloc, SMALL, SMALL_SECOND, "ACCEPTED cubes 1\n")
}

#[test]
fn changes_of_the_first(rt: HostRuntime) -> Result<(), Fail> {
    let alloc = rt.alloc();
    for (old, new, written) in CHANGES_OF_FIRST {
        is_verified_changed(&rt, alloc, FIRST, (old, new), written)?;
    }
    Ok(())
}

#[test]
fn more_changes_of_the_first(rt: HostRuntime) -> Result<(), Fail> {
    let alloc = rt.alloc();
    for (old, new, written) in MORE_CHANGES_OF_FIRST {
        is_verified_changed(&rt, alloc, FIRST, (old, new), written)?;
    }
    Ok(())
}

#[test]
fn changes_of_the_second(rt: HostRuntime) -> Result<(), Fail> {
    let alloc = rt.alloc();
    for (old, new, written) in CHANGES_OF_SECOND {
        is_verified_changed(&rt, alloc, SECOND, (old, new), written)?;
    }
    Ok(())
}

// A load or a put that fails, over a certificate that is accepted.
#[test]
fn failing_files(rt: HostRuntime) -> Result<(), Fail> {
    let alloc = rt.alloc();
    for (loads, puts, status) in [
        ([0].as_slice(), [].as_slice(), 6),
        ([1].as_slice(), [].as_slice(), 6),
        ([].as_slice(), [0].as_slice(), 7),
    ] {
        is_answered(
            &rt,
            alloc,
            "verify p t",
            (LOCK, SECOND),
            (loads, puts),
            status,
            "",
        )?;
    }
    Ok(())
}
