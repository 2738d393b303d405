//! Laws of verdicts, as contracts of calls that do nothing.

ghost use Rattle.std.specs.Prelude.{◌≡◌, ℕ, ◌<◌, ◌≤◌, Some, length, IsTrue};
ghost use Rattle.cub_cube.specs.declared.cube.Cube.{Cube};
ghost use Rattle.cub_cube.specs.Cover.{IsCovered};
ghost use Rattle.log_form.specs.declared.verdicts.LogVerdict.{LogVerdict};
ghost use Rattle.log_form.specs.Fates.{is_live};
ghost use Rattle.log_form.specs.Log.{LogValue, node_at, cubes_of, live_cubes};
ghost use Rattle.log_form.specs.Legal.{IsLegalLog};
ghost use Rattle.log_form.specs.Verdict.{verdict_of};
ghost use Rattle.log_form.specs.Test.{PassesTest};

use crate::pre_images::PreImages;

/// The cubes of the live nodes of a log with the verdict SAFE pass the test of a certificate, and none is wider than the
/// width budget.
pub fn safe_logs_pass_the_test<M: PreImages>()
    ensures passes { (log : LogValue) → IsLegalLog M.pieces log → verdict_of log ≡ Some LogVerdict.Safe → PassesTest M.pieces log.protocol (live_cubes log.nodes) }
    ensures narrow { (log : LogValue) (i : ℕ) → IsLegalLog M.pieces log → verdict_of log ≡ Some LogVerdict.Safe → i < length log.nodes → IsTrue (is_live (node_at log.nodes i).fate)
        → (node_at log.nodes i).cube.width ≤ log.budget.width }
{}

/// What a node covers, a live node covers. So where a yes or no is asked, live nodes alone need be looked at.
pub fn live_nodes_cover_as_all_do<M: PreImages>()
    ensures { (log : LogValue) (c : Cube) → IsLegalLog M.pieces log → IsCovered log.protocol (cubes_of log.nodes) c → IsCovered log.protocol (live_cubes log.nodes) c }
{}
