//! Why a member of a library of a volume in files was not changed.

ghost use Rattle.std.specs.Prelude.{◌≡◌};
ghost use Rattle.changed_libraries.specs.Changes.{plan_fault};

use changed_volumes::ChangeFault;
use dasd_jobs::JobFault;
use member_changes::{MemberRefusal, PlanFault};

/// Why a member of a library of a volume in files was not changed, or its line was not printed.
pub type MemberFault = ChangeFault<MemberRefusal>;

/// No memory.
pub(crate) const NO_MEMORY: MemberFault = MemberFault::Job(JobFault::OutOfMemory);

/// A slot of the image in memory that can't be read or written.
pub(crate) const NO_SLOT: MemberFault = MemberFault::Job(JobFault::Store);

/// What the fault of a plan is.
pub(crate) fn of_planning(fault: PlanFault) -> MemberFault
    ensures { result ≡ plan_fault fault }
{
    match fault {
        PlanFault::Refused(refusal) => MemberFault::Refused(refusal),
        PlanFault::OutOfMemory => NO_MEMORY,
    }
}
