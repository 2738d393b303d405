//! Laws of events, as contracts of calls that do nothing: what they determine, what they leave, and how a list that was
//! judged on the first nodes of a log becomes the list on the log as it stands.

ghost use Rattle.std.specs.Prelude.{◌≡◌, ℕ, List, Option, length, take, drop};
ghost use Rattle.cub_proto.specs.declared.protocol.Protocol.{Protocol};
ghost use Rattle.cub_proto.specs.declared.budget.Budget.{Budget};
ghost use Rattle.log_form.specs.declared.event.Mark.{Mark};
ghost use Rattle.log_form.specs.declared.event.Added.{Added};
ghost use Rattle.log_form.specs.declared.event.LogEvent.{LogEvent};
ghost use Rattle.log_form.specs.declared.numbered.Numbered.{Numbered};
ghost use Rattle.log_form.specs.Log.{LogValue, no_log, cubes_of};
ghost use Rattle.log_form.specs.Legal.{Adds, Treats, Leads, IsLegalLog};
ghost use Rattle.log_form.specs.Later.{AreLaterNodes, GoesOn};
ghost use Rattle.log_form.specs.Stale.{KeepsUncovered};

use crate::pre_images::PreImages;

/// A legal first event makes a legal log, and so does each further legal event.
pub fn legal_events_make_legal_logs<M: PreImages>()
    ensures first { (p : Protocol) (budget : Budget) (event : LogEvent) (after : LogValue) → Leads M.pieces (no_log p budget) event after → IsLegalLog M.pieces after }
    ensures more { (log : LogValue) (event : LogEvent) (after : LogValue) → IsLegalLog M.pieces log → Leads M.pieces log event after → IsLegalLog M.pieces after }
{}

/// A legal event leads to one log, and a legal log is a function of its protocol, its budget and its events.
pub fn events_determine_logs<M: PreImages>()
    ensures event { (log : LogValue) (event : LogEvent) (a b : LogValue) → IsLegalLog M.pieces log → Leads M.pieces log event a → Leads M.pieces log event b → a ≡ b }
    ensures log { (a b : LogValue) → IsLegalLog M.pieces a → IsLegalLog M.pieces b → a.protocol ≡ b.protocol → a.budget ≡ b.budget → a.events ≡ b.events → a ≡ b }
{}

/// However the added cubes are simplified and renamed, as many are added. So it is no choice whether an event fills the
/// log, nor what it then needs.
pub fn lists_have_one_length<M: PreImages>()
    ensures { (log : LogValue) (from : Option ℕ) (pieces others : List Numbered) (xs ys : List Added) → Treats M.pieces log from pieces → Treats M.pieces log from others
        → Adds log.protocol (cubes_of log.nodes) pieces xs → Adds log.protocol (cubes_of log.nodes) others ys → length xs ≡ length ys }
{}

/// Nodes are never removed: a log that goes on from another has each of its nodes, with cube, origin, places and links.
pub fn nodes_stay<M: PreImages>()
    ensures { (old new : LogValue) → IsLegalLog M.pieces old → IsLegalLog M.pieces new → GoesOn old new → AreLaterNodes old.nodes new.nodes }
{}

/// A list of picks that was judged on the first `seen` nodes of a log that may go on becomes a list on all of them where
/// those picks are dropped that a node gained since covers.
pub fn stale_lists_are_mended<M: PreImages>()
    ensures { (log : LogValue) (seen : ℕ) (pieces : List Numbered) (picks kept : List Added) → IsLegalLog M.pieces log → log.mark ≡ Mark.Going
        → Adds log.protocol (take seen (cubes_of log.nodes)) pieces picks → KeepsUncovered log.protocol (drop seen (cubes_of log.nodes)) picks kept
        → Adds log.protocol (cubes_of log.nodes) pieces kept }
{}
