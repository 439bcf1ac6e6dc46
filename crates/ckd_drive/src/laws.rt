//! Laws of the drive. Each function here does nothing: what it ensures follows from the clauses of the drive's calls.

ghost use Rattle.ckd_drive.specs.Laws.{EachCallTells, EachTrailTells};

/// In each call of a drive the sense gains equipment check only where a call of the store failed, and has it where one did.
pub fn each_call_tells()
    ensures { EachCallTells }
{}

/// Over any calls of a drive, one after another, the sense gains equipment check only where a call of the store failed.
pub fn each_trail_tells()
    ensures { EachTrailTells }
{}
