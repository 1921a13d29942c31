//! What the clauses of a replay leave open. The functions do nothing: each clause is a law.

ghost use Rattle.gtp_replay.specs.Determined.{WorldsHaveOneText, OctetsHaveOneText, FormsAreOfOneRun};
ghost use Rattle.gtp_replay.specs.Recaptured.{CaptureReadsBack};

use gtp_capture::what_is_written_is_read_back;

/// The clauses of `replay` allow one text in each form and one verdict for given octets.
pub fn texts_are_determined()
    // Worlds that are alike have one text in each form.
    ensures text { WorldsHaveOneText }
    // Octets have one text in each form, or one line of a refusal, and one verdict.
    ensures told { OctetsHaveOneText }
    // What is told in two forms is of one run.
    ensures forms { FormsAreOfOneRun }
{}

/// The capture of a run is read as its datagrams: all of them, in order.
pub fn captures_are_read_back()
    ensures { CaptureReadsBack }
{
    what_is_written_is_read_back();
}
