//! The first cube of a finder's list that covers a cube; a line appended.

ghost use Rattle.std.specs.Prelude.{◌≡◌, ◌++◌, ◌∷◌, [], OnOk};
ghost use Rattle.cub_cube.specs.Cover.{IsCovered};
ghost use Rattle.theory.specs.Made.{IsFor};
ghost use Rattle.log_form.specs.Pieces.{IsAskable};
ghost use Rattle.cover_lines.specs.Lines.{IsFirstOf};

use cub_base::{Memory, Places};
use cub_cube::Cube;
use cub_proto::{CoverLine, CoverLines, Protocol};
use subsume::Finder;
use theory::Scratch;

/// Appends the line.
pub fn push(lines: &mut CoverLines, line: CoverLine) -> Result<(), Memory>
    ensures { OnOk result (lines.new ≡ lines.old ++ line ∷ []) }
{
    if let Err(_failed) = lines.push(line) {
        return Err(Memory);
    }
    Ok(())
}

/// The first cube of the list that covers the given one, with the least places, where some cube does.
pub fn first_cover<F: Finder<Scratch>>(
    scratch: &mut Scratch,
    protocol: &Protocol,
    finder: &mut F,
    cube: &Cube,
) -> (u32, Places)
    requires made { IsFor protocol.now scratch.old }
    requires serves { F.serves finder.old protocol.now }
    requires fit { IsAskable protocol.now cube.now }
    requires covered { IsCovered protocol.now (F.list finder.old) cube.now }
    ensures first { IsFirstOf protocol.now (F.list finder.old) cube.now result.0 result.1 }
    ensures same { F.list finder.new ≡ F.list finder.old }
    ensures serves { F.serves finder.new protocol.now }
    ensures made { IsFor protocol.now scratch.new }
{
    match finder.find(scratch, protocol, 0, cube) {
        Some(found) => found,
        None => unreachable!(),
    }
}
