//! Examples of typing beside the definitions, each the clause of a function that does nothing. In them `t` has `P` and
//! `Q`, `X` is an integer, `F` a `t`, `K` of another type, `W` a process and `A` an array of `t`.

ghost use Rattle.std.specs.Prelude.{◌≡◌, ℕ, ◌∷◌, [], Some, None, true, false, pos, codes, Option};
ghost use Rattle.cub_lexer.specs.declared.token.TokenKind.TheVariants as k;
ghost use Rattle.cub_parse.specs.declared.tree.Leaf.{Leaf};
ghost use Rattle.cub_proto.specs.declared.literal.Sort.{Sort};
ghost use Rattle.cub_proto.specs.declared.literal.Term.{Term};
ghost use Rattle.cub_proto.specs.declared.literal.PSide.{PSide};
ghost use Rattle.cub_proto.specs.declared.literal.ISide.TheVariants.{Zero};
ghost use Rattle.cub_proto.specs.declared.literal.Lit.TheVariants.{ProcEq};
ghost use Rattle.cub_dnf.specs.declared.formula.Formula.TheVariants as f;
ghost use Rattle.cub_names.specs.declared.fault.TypeKind.TheVariants as t;
ghost use Rattle.cub_names.specs.declared.meaning.What.{What};
ghost use Rattle.cub_names.specs.declared.sides.Side.{Side};
ghost use Rattle.cub_names.specs.Checked.{Checked, fault, sound, refuse, first_of_all};
ghost use Rattle.cub_names.specs.Words.{may_declare};
ghost use Rattle.cub_names.specs.Sides.{index_place, indexed, start, with_total, with_term, finished};
ghost use Rattle.cub_types.specs.declared.written.Aim.{Aim};
ghost use Rattle.cub_types.specs.Formulas.{compared, alone, equal, at_most};
ghost use Rattle.cub_types.specs.Bodies.{counted};
ghost use Rattle.cub_types.specs.Writes.{aim_of, any_faults};
ghost use Rattle.cub_types.specs.Joined.{clash, takes, taker_faults};

/// Which of two faults is answered.
pub fn rows_of_faults()
    // the first in the text
    ensures first_token { first_of_all None (fault 5 t.T05 ∷ fault 4 t.T11 ∷ []) ≡ Some (fault 4 t.T11) }
    // at one token the least code
    ensures least_code { first_of_all None (fault 5 t.T05 ∷ fault 5 t.T02 ∷ []) ≡ Some (fault 5 t.T02) }
    // `_x` is for process variables only
    ensures underscore { may_declare (codes "_x") ≡ false }
{}

/// Sides and their faults.
pub fn rows_of_sides()
    // `F = 1 + P`: T05 at `P`
    ensures constructor_in_sum { (with_term start false 9 (Side.Con 1 0)).faults ≡ fault 9 t.T05 ∷ [] }
    // a sum with a fault has no sort
    ensures refused_sum { finished (record start { refused = true }) ≡ None }
    // `A[nosuch]`: T01, the least of T01 and T04
    ensures unknown_index { index_place 7 None None ≡ refuse 7 t.T01 }
    // `A[X]`: T04
    ensures known_index { index_place 7 None (Some (What.Global 0 Sort.Int)) ≡ refuse 7 t.T04 }
    // `P[x]`: T13
    ensures constructor_with_index { (i : Checked ℕ) → indexed 5 None (Some (What.Con 1 0)) i ≡ refuse 5 t.T13 }
    // `x[y]`: T13
    ensures variable_with_index { (w : Option What) (i : Checked ℕ) → indexed 5 (Some 0) w i ≡ refuse 5 t.T13 }
    // `1000000000 + 1`: T15 at the second number
    ensures above_the_limit { (with_total start 6 (pos 1000000001)).faults ≡ fault 6 t.T15 ∷ [] }
    ensures at_the_limit { (with_total start 6 (pos 1000000000)).faults ≡ [] }
{}

/// Relations and sides alone.
pub fn rows_of_relations()
    // `F = K`: T03 at the sign
    ensures two_sorts { compared false 4 k.Equal (Side.Fin 1 (Term.Global 2)) (Side.Fin 2 (Term.Global 3)) ≡ refuse 4 t.T03 }
    // `F < Q`: T07 at the sign
    ensures no_order { compared false 4 k.Less (Side.Fin 1 (Term.Global 2)) (Side.Con 1 1) ≡ refuse 4 t.T07 }
    // `init (z) { W = z }`: T08 at the sign
    ensures global_beside_variable { compared true 4 k.Equal (Side.Proc (PSide.Global 5)) (Side.Proc (PSide.Place 0)) ≡ refuse 4 t.T08 }
    // `init (z) { z = z }` is allowed, and stays
    ensures variable_beside_itself { compared true 4 k.Equal (Side.Proc (PSide.Place 0)) (Side.Proc (PSide.Place 0)) ≡ sound (f.One (ProcEq (PSide.Place 0) (PSide.Place 0))) }
    // `unsafe { 1 }`: T11
    ensures number_alone { alone 4 (Side.Int Zero (pos 1)) ≡ refuse 4 t.T11 }
    // `P = Q` and `1 < 2` are compared at once
    ensures two_constructors { equal (Side.Con 1 0) (Side.Con 1 1) ≡ f.Const false }
    ensures two_numbers { at_most true (Side.Int Zero (pos 1)) (Side.Int Zero (pos 2)) ≡ f.Const true }
{}

/// Goals and updates.
pub fn rows_of_updates()
    // 4,096 unsafe conjunctions are allowed, and no more are counted than one above
    ensures goals_at_the_limit { counted 4000 96 ≡ 4096 }
    ensures goals_above { counted 4000 1000 ≡ 4097 }
    // `X[i] := 2`: T13
    ensures global_with_index { (leaf : Leaf) (place : Option ℕ) → aim_of 8 (Some (What.Global 0 Sort.Int)) (Some leaf) place ≡ refuse 8 t.T13 }
    // `A := P`: T13
    ensures array_alone { (place : Option ℕ) → aim_of 8 (Some (What.Array 0 Sort.Int)) None place ≡ refuse 8 t.T13 }
    // `A[i] := P; A[j] := Q` is allowed
    ensures two_cells { clash (Aim.At 0 Sort.Int 0) (Aim.At 0 Sort.Int 1) ≡ false }
    // `A[i] := P; A[x] := P` and the other way round: T09 at the second
    ensures cell_and_all { clash (Aim.At 0 Sort.Int 0) (Aim.Whole 0 Sort.Int) ≡ true }
    ensures all_and_cell { clash (Aim.Whole 0 Sort.Int) (Aim.At 0 Sort.Int 0) ≡ true }
    // `X := ?`: T19 at the `?`
    ensures any_integer { (mark : Leaf) → any_faults mark (Some Sort.Int) ≡ fault mark.number t.T19 ∷ [] }
    // `W := ?` beside 3 parameters: T19; beside 2 it is allowed
    ensures fourth_process { (mark : Leaf) → taker_faults 3 [] (Some (0, mark)) ≡ fault mark.number t.T19 ∷ [] }
    ensures third_process { (mark : Leaf) → taker_faults 2 [] (Some (0, mark)) ≡ [] }
    // a global with several `?` counts once
    ensures counts_once { (mark : Leaf) → takes (0 ∷ []) (Some (0, mark)) ≡ 0 ∷ [] }
{}
