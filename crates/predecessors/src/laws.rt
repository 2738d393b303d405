//! Laws, as contracts of calls that do nothing.

ghost use Rattle.std.specs.Prelude.{List};
ghost use Rattle.cub_proto.specs.declared.protocol.Protocol.{Protocol};
ghost use Rattle.cub_cube.specs.declared.cube.Cube.{Cube};
ghost use Rattle.piece_laws.specs.Test.{PassesTest};
ghost use Rattle.log_form.specs.Test as log;
ghost use Rattle.predecessors.specs.Predecessors.{ArePieceCubes};

/// Cubes that pass the test of the log pass the test of a certificate, whose pieces are by choices.
pub fn log_test_is_the_test()
    ensures { (p : Protocol) (cubes : List Cube) → log.PassesTest ArePieceCubes p cubes → PassesTest p cubes }
{}
