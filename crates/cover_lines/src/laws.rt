//! Laws of cover lines and of the certificates that logs hold, as contracts of calls that do nothing.

ghost use Rattle.std.specs.Prelude.{◌≡◌, List, Some, None};
ghost use Rattle.cub_proto.specs.declared.cover.CoverLine.{CoverLine};
ghost use Rattle.cub_proto.specs.declared.protocol.Protocol.{Protocol};
ghost use Rattle.cub_cube.specs.declared.cube.Cube.{Cube};
ghost use Rattle.predecessors.specs.Predecessors.{ArePieceCubes};
ghost use Rattle.log_form.specs.declared.verdicts.LogVerdict.{LogVerdict};
ghost use Rattle.log_form.specs.Log.{LogValue, live_cubes};
ghost use Rattle.log_form.specs.Legal.{IsLegalLog};
ghost use Rattle.log_form.specs.Verdict.{verdict_of};
ghost use Rattle.cert_text.specs.Lawful.{IsLawfulCertificate};
ghost use Rattle.cover_lines.specs.Lines.{AreCoverLines};

/// A list of cubes has one list of cover lines at most.
pub fn cover_lines_are_one()
    ensures { (p : Protocol) (cubes : List Cube) (lines others : List CoverLine) → AreCoverLines p cubes lines → AreCoverLines p cubes others → lines ≡ others }
{}

/// The cubes of the live nodes of a log with the verdict SAFE make a certificate of version 1 that may be written and read.
pub fn safe_logs_make_lawful_certificates()
    ensures { (log : LogValue) → IsLegalLog ArePieceCubes log → verdict_of log ≡ Some LogVerdict.Safe → IsLawfulCertificate log.protocol (live_cubes log.nodes) None }
{}
