//! Reading a cube. Its words are looked at once for what they name; what is named is written again and compared, so that
//! each cube has one spelling, and only a text that is refused is looked at again for the kind of its fault.

ghost use Rattle.std.specs.Prelude.{◌≡◌, ◌⊎◌, map, IfOk, IfErr, Ok, Err, bytes_eq, Some, None};
ghost use Rattle.cub_proto.specs.StateOf.{signature_of};
ghost use Rattle.cube_text.specs.declared.fault.CubeFault.TheVariants.{Memory};
ghost use Rattle.cube_text.specs.Text.{cube_text};
ghost use Rattle.cube_text.specs.Form.{words_of, is_cube};
ghost use Rattle.cube_text.specs.Meaning.{cube_in};
ghost use Rattle.cube_text.specs.Reading.{spelled, reading, IsLawful};

use crate::fault::CubeFault;
use crate::form::is_cube;
use crate::meaning::cube_in;
use crate::parts::parts;
use crate::writer::push_cube;
use cub_cube::{Cube, is_normal};
use cub_proto::Protocol;
use std::alloc::{AllocError, Global};

fn is_written(
    alloc: Global,
    protocol: &Protocol,
    cube: &Cube,
    text: &[u8],
) -> Result<bool, AllocError>
    ensures { IfOk result (λ same. same ≡ bytes_eq (cube_text protocol.now cube.now) text.now) }
{
    let mut written = Vec::with_capacity(alloc, text.len())?;
    push_cube(&mut written, protocol, cube)?;
    Ok(written.as_slice() == text)
}

fn spelled(
    alloc: Global,
    protocol: &Protocol,
    text: &[u8],
    cube: Option<Cube>,
) -> Result<Cube, CubeFault>
    ensures ok { IfOk result (λ c. spelled protocol.now text.now cube ≡ Ok c) }
    ensures err { IfErr result (λ f. (f ≡ Memory) ⊎ (spelled protocol.now text.now cube ≡ Err f)) }
{
    let Some(cube) = cube else {
        return Err(CubeFault::Unknown);
    };
    if !is_normal(protocol, cube.lits.as_slice()) {
        return Err(CubeFault::Order);
    }
    if !is_written(alloc, protocol, &cube, text)? {
        return Err(CubeFault::Order);
    }
    Ok(cube)
}

/// The cube that the text is the text of, at most `widest` places wide, or the first of the faults in their order. The
/// text has no end of a line.
pub fn read_cube(protocol: &Protocol, text: &[u8], widest: u8) -> Result<Cube, CubeFault>
    ensures ok { IfOk result (λ c. reading protocol.now widest text.now ≡ Ok c) }
    ensures err { IfErr result (λ f. (f ≡ Memory) ⊎ (reading protocol.now widest text.now ≡ Err f)) }
{
    let alloc = protocol.sorts.allocator();
    let words = parts(alloc, text, b' ')?;
    if !is_cube(alloc, words.as_slice())? {
        return Err(CubeFault::Form);
    }
    let cube = cube_in(alloc, protocol, widest, words.as_slice())?;
    spelled(alloc, protocol, text, cube)
}
