//! Laws of the nodes of a legal log, as contracts of calls that do nothing.

ghost use Rattle.std.specs.Prelude.{◌≡◌, ◌≢◌, ◌↔◌, ℕ, ◌+◌, ◌<◌, ◌≤◌, List, Option, length, IsTrue};
ghost use Rattle.cub_cube.specs.Meaning.{IsConsistent};
ghost use Rattle.cub_cube.specs.Cover.{DoesCover, CoversLeast};
ghost use Rattle.log_form.specs.declared.node.Fate.{Fate};
ghost use Rattle.log_form.specs.declared.event.Mark.{Mark};
ghost use Rattle.log_form.specs.Pieces.{IsFit, widest, greatest_expanded};
ghost use Rattle.cub_cube.specs.Starts.{IsStartCube};
ghost use Rattle.log_form.specs.Links.{IsFirstCover};
ghost use Rattle.log_form.specs.Fates.{is_live, link_of};
ghost use Rattle.log_form.specs.Log.{LogValue, node_at, cubes_of};
ghost use Rattle.log_form.specs.Legal.{IsLegalLog};
ghost use Rattle.log_form.specs.Origins.{ComesFrom};
ghost use Rattle.log_form.specs.Depth.{HasDepth, bound_at};

use crate::pre_images::PreImages;

/// A node is covered exactly where a later node covers it, and its link is the first of these with the least places.
pub fn links_are_first_covers<M: PreImages>()
    ensures { (log : LogValue) (i : ℕ) → IsLegalLog M.pieces log → i < length log.nodes
        → IsFirstCover log.protocol (cubes_of log.nodes) (i + 1) (length log.nodes) (node_at log.nodes i).cube (link_of (node_at log.nodes i).fate) }
{}

/// A link leads to a greater number, and the node there covers this one.
pub fn links_lead_to_greater_numbers<M: PreImages>()
    ensures { (log : LogValue) (i by : ℕ) (places : List ℕ) → IsLegalLog M.pieces log → i < length log.nodes → (node_at log.nodes i).fate ≡ Fate.Covered by places
        → (i < by) × (by < length log.nodes) × CoversLeast log.protocol (node_at log.nodes by).cube (node_at log.nodes i).cube places }
{}

/// A live node covers each node.
pub fn live_nodes_cover_all<M: PreImages>()
    ensures { (log : LogValue) (i : ℕ) → IsLegalLog M.pieces log → i < length log.nodes
        → (j : ℕ) × (i ≤ j) × (j < length log.nodes) × IsTrue (is_live (node_at log.nodes j).fate) × DoesCover log.protocol (node_at log.nodes j).cube (node_at log.nodes i).cube }
{}

/// No node covers a later one, and none covers a live one but that itself.
pub fn live_nodes_stay_apart<M: PreImages>()
    ensures later { (log : LogValue) (i j : ℕ) → IsLegalLog M.pieces log → i < j → j < length log.nodes
        → DoesCover log.protocol (node_at log.nodes i).cube (node_at log.nodes j).cube → ⊥ }
    ensures live { (log : LogValue) (i j : ℕ) → IsLegalLog M.pieces log → i < length log.nodes → j < length log.nodes → i ≢ j → IsTrue (is_live (node_at log.nodes i).fate)
        → DoesCover log.protocol (node_at log.nodes j).cube (node_at log.nodes i).cube → ⊥ }
{}

/// A start state meets a node exactly where the log is bad with it; so none does while the log may go on.
pub fn start_states_meet_the_bad_node<M: PreImages>()
    ensures meets { (log : LogValue) (i : ℕ) → IsLegalLog M.pieces log → i < length log.nodes → IsStartCube log.protocol (node_at log.nodes i).cube ↔ (log.mark ≡ Mark.Bad i) }
    ensures inside { (log : LogValue) (i : ℕ) → IsLegalLog M.pieces log → log.mark ≡ Mark.Bad i → i < length log.nodes }
{}

/// A log has at most as many nodes as its budget says, and is full only where more would be needed.
pub fn logs_keep_the_budget<M: PreImages>()
    ensures few { (log : LogValue) → IsLegalLog M.pieces log → length log.nodes ≤ log.budget.cubes }
    ensures full { (log : LogValue) (from : Option ℕ) (needed : ℕ) → IsLegalLog M.pieces log → log.mark ≡ Mark.Full from needed → log.budget.cubes < length log.nodes + needed }
{}

/// A node is a form of a consistent unsafe conjunction, or of a piece of an earlier node that is within the width.
pub fn nodes_come_from_origins<M: PreImages>()
    ensures { (log : LogValue) (i : ℕ) → IsLegalLog M.pieces log → i < length log.nodes → ComesFrom M.pieces log i (node_at log.nodes i) (node_at log.nodes i).origin }
{}

/// Each node has one depth, which is at most its number.
pub fn depths_are_below_numbers<M: PreImages>()
    ensures some { (log : LogValue) (i : ℕ) → IsLegalLog M.pieces log → i < length log.nodes → (d : ℕ) × HasDepth log.nodes i d × (d ≤ i) }
    ensures one { (log : LogValue) (i d e : ℕ) → HasDepth log.nodes i d → HasDepth log.nodes i e → d ≡ e }
{}

/// The cube of a node fits the protocol, has at most eleven places, is in normal form, has bounds by the node's depth,
/// and some state meets it. So it may be asked about, and expanded where it has at most eight places.
pub fn cubes_of_nodes_fit<M: PreImages>()
    ensures fit { (log : LogValue) (i d : ℕ) → IsLegalLog M.pieces log → i < length log.nodes → HasDepth log.nodes i d → IsFit log.protocol widest (bound_at d) (node_at log.nodes i).cube }
    ensures askable { (log : LogValue) (i : ℕ) → IsLegalLog M.pieces log → i < length log.nodes → IsFit log.protocol widest greatest_expanded (node_at log.nodes i).cube }
    ensures possible { (log : LogValue) (i : ℕ) → IsLegalLog M.pieces log → i < length log.nodes → IsConsistent log.protocol (node_at log.nodes i).cube.width (node_at log.nodes i).cube.lits }
{}
