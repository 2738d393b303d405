//! What a loaded small cube entails. One that no state meets entails every literal.

ghost use Rattle.std.specs.Prelude.{◌≡◌, ◌↔◌, IsTrue};
ghost use Rattle.cub_proto.specs.StateOf.{signature_of};
ghost use Rattle.cub_proto.specs.Fits.{literal_fits};
ghost use Rattle.theory_laws.specs.Entailed.{Entails};
ghost use Rattle.subsume.specs.Ready.{IsReady};

use cub_cube::Cube;
use cub_proto::{Lit, Protocol};
use theory::{Scratch, follows};

/// Whether the small cube entails the literal.
pub fn is_implied(
    scratch: &mut Scratch,
    protocol: &Protocol,
    small: &Cube,
    consistent: bool,
    lit: &Lit,
) -> bool
    requires ready { IsReady protocol.now small.now consistent scratch.old }
    requires fits { IsTrue (literal_fits (signature_of protocol.now) small.now.width lit.now) }
    ensures ready { IsReady protocol.now small.now consistent scratch.new }
    ensures count { scratch.new.tests ≡ scratch.old.tests }
    ensures exact { IsTrue result ↔ Entails protocol.now small.now.width small.now.lits lit.now }
{
    if !consistent {
        return true;
    }
    follows(scratch, protocol, small.width, small.lits.as_slice(), lit)
}
