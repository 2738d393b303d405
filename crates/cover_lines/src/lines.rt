//! The cover lines of the certificate that a log with the verdict SAFE holds: its cubes are those of the live nodes, and each
//! obligation gets the first of them that covers it. They are found again by a search over these cubes alone, since the links
//! of the log lead from forms of pieces to nodes that may be covered themselves.

ghost use Rattle.std.specs.Prelude.{◌≡◌, ◌≤◌, ◌++◌, ◌∷◌, ◌-◌, ◌^◌, ◌<◌, [], Some, All, length, IfOk, OnOk, OnErr};
ghost use Rattle.piece_laws.specs.Test.{PassesLines};
ghost use Rattle.theory.specs.Made.{IsFor};
ghost use Rattle.log_form.specs.declared.verdicts.LogVerdict.{LogVerdict};
ghost use Rattle.log_form.specs.Pieces.{IsAskable};
ghost use Rattle.log_form.specs.Log.{live_cubes};
ghost use Rattle.log_form.specs.Verdict.{verdict_of};
ghost use Rattle.cert_text.specs.Lawful.{IsLawfulCertificate};
ghost use Rattle.cover_lines.specs.Lines.{AreCoverLines};

use crate::goals::push_goal_lines;
use crate::walking::push_piece_lines;
use cub_base::{Items, Memory};
use cub_proto::{CoverLines, Protocol};
use cube_core::{Log, Node};
use predecessors::Predecessors;
use std::alloc::Global;
use subsume::{Finder, Scan};
use theory::Scratch;

// Appends the cube of the node to the finder's list, if the node is live.
fn push_live<F: Finder<Scratch>>(
    protocol: &Protocol,
    finder: &mut F,
    node: &Node,
) -> Result<(), Memory>
    requires serves { F.serves finder.old protocol.now }
    requires fit { IsAskable protocol.now node.now.cube }
    requires room { length (F.list finder.old) < 2 ^ 32 - 1 }
    ensures ok { OnOk result (F.list finder.new ≡ F.list finder.old ++ live_cubes (node.now ∷ [])) }
    ensures serves { F.serves finder.new protocol.now }
{
    if node.fate.is_live() {
        let cube = node.cube.copy()?;
        match finder.push(protocol, cube) {
            Ok(_number) => {}
            Err((_cube, error)) => return Err(error),
        }
    }
    Ok(())
}

// Puts the cubes of the live nodes into the finder.
fn push_all_live<F: Finder<Scratch>>(
    protocol: &Protocol,
    finder: &mut F,
    nodes: &[Node],
) -> Result<(), Memory>
    requires empty { F.list finder.old ≡ [] }
    requires fit { All (λ n. IsAskable protocol.now n.cube) nodes.now }
    requires few { length nodes.now < 2 ^ 32 }
    ensures ok { OnOk result (F.list finder.new ≡ live_cubes nodes.now) }
    ensures serves { F.serves finder.new protocol.now }
{
    for node in nodes {
        push_live(protocol, finder, node)?;
    }
    Ok(())
}

/// As `cover_lines`, where the covering cubes are searched by the finder that is given. It must be empty, and then has the
/// cubes of the live nodes.
pub fn cover_lines_by<F: Finder<Scratch>>(
    alloc: Global,
    scratch: &mut Scratch,
    protocol: &Protocol,
    finder: &mut F,
    log: &Log<Predecessors>,
) -> Result<CoverLines, Memory>
    requires made { IsFor protocol.now scratch.old }
    requires empty { F.list finder.old ≡ [] }
    requires protocol { protocol.now ≡ log.now.protocol }
    requires safe { verdict_of log.now ≡ Some LogVerdict.Safe }
    ensures lines { IfOk result (AreCoverLines protocol.now (live_cubes log.now.nodes)) }
    ensures passes { IfOk result (PassesLines protocol.now (live_cubes log.now.nodes)) }
    ensures lawful { IfOk result (λ lines. IsLawfulCertificate protocol.now (live_cubes log.now.nodes) (Some lines)) }
    ensures made { IsFor protocol.now scratch.new }
{
    push_all_live(protocol, finder, log.nodes())?;
    let mut lines = Items::new(alloc);
    push_goal_lines(alloc, scratch, protocol, finder, &mut lines)?;
    push_piece_lines(scratch, protocol, finder, &mut lines)?;
    Ok(lines)
}

/// One line for each obligation of the certificate that the log holds, which must have the verdict SAFE: for each unsafe
/// conjunction that some state meets, and then for each piece of each live node's cube, by the first of these cubes that
/// covers it, with the least places.
pub fn cover_lines(
    alloc: Global,
    scratch: &mut Scratch,
    protocol: &Protocol,
    log: &Log<Predecessors>,
) -> Result<CoverLines, Memory>
    requires made { IsFor protocol.now scratch.old }
    requires protocol { protocol.now ≡ log.now.protocol }
    requires safe { verdict_of log.now ≡ Some LogVerdict.Safe }
    ensures lines { IfOk result (AreCoverLines protocol.now (live_cubes log.now.nodes)) }
    ensures passes { IfOk result (PassesLines protocol.now (live_cubes log.now.nodes)) }
    ensures lawful { IfOk result (λ lines. IsLawfulCertificate protocol.now (live_cubes log.now.nodes) (Some lines)) }
    ensures made { IsFor protocol.now scratch.new }
{
    let mut finder = Scan::new(alloc);
    cover_lines_by(alloc, scratch, protocol, &mut finder, log)
}
