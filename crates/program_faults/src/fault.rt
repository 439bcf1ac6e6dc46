//! Why `dasd` did not do what it was asked.

ghost use Rattle.std.specs.Prelude.{◌≡◌};
ghost use Rattle.program_faults.specs.Faults.{volume_fault};

use changed_libraries::MemberFault;
use changed_volumes::{ChangeFault, FormatFault};
use dasd_jobs::JobFault;
use dasd_unload::UnloadFault;
use dasd_volumes::VolumeFault;
use loaded_folders::{FolderFault, FolderRefusal, NewMemberFault, NewMemberRefusal};
use loaded_sets::{LoadFault, LoadRefusal};
use member_changes::MemberRefusal;
use new_labels::TableFault;
use s360_assembler::AssemblyFault;
use s360_deck::RunFault;
use s360_disassembler::DisassemblyFault;
use std::alloc::AllocError;
use thiserror::Error;
use volume_changes::ChangeRefusal;
use volume_details::MemberListFault;

/// Why `dasd` did not do what it was asked, or not to its end.
#[derive(Debug, Drop, Error)]
pub enum ProgramFault {
    /// There is no memory for it.
    #[error("out of memory")]
    OutOfMemory,
    /// The words are wrong: this text of several lines says how.
    #[error("{0}")]
    Words(String),
    /// The words ask for help, which is this text of several lines.
    #[error("{0}")]
    Help(String),
    /// A word of a volume is of another form, or is the ninth file of an image.
    #[error("bad volume")]
    BadVolume,
    /// Main storage has no such size.
    #[error("bad storage size")]
    StorageSize,
    /// There is no such channel.
    #[error("bad channel number")]
    ChannelNumber,
    /// Two volumes have one address.
    #[error("unit taken")]
    AddressTaken,
    /// There are more than eight volumes.
    #[error("too many units")]
    TooManyDrives,
    /// The volume has no such track.
    #[error("no such track")]
    NoTrack,
    /// The tracks of the volume have no such record.
    #[error("no such record")]
    NoRecord,
    /// The data set whose members are asked for has none.
    #[error("not a partitioned data set")]
    NotPartitioned,
    /// The volume can't have such a table of contents.
    #[error(transparent)]
    Table(TableFault),
    /// A volume is not changed as it was asked, and stays as it was.
    #[error(transparent)]
    Change(ChangeRefusal),
    /// A volume does not get a data set as it was asked, and stays as it was.
    #[error(transparent)]
    Load(LoadRefusal),
    /// A volume does not get the data sets of a folder, and stays as it was.
    #[error(transparent)]
    Folder(FolderRefusal),
    /// A library does not get a member as it was asked, and its volume stays as it was.
    #[error(transparent)]
    Member(NewMemberRefusal),
    /// A member of a library is not changed as it was asked, and its volume stays as it was.
    #[error(transparent)]
    Entry(MemberRefusal),
    /// The file of a trace can't be opened.
    #[error("trace file not opened")]
    TraceNotOpened,
    /// The file of a trace is another program's, or one that this run reads or writes, standard input and output too.
    #[error("trace file in use")]
    TraceInUse,
    /// The deck was run, and files that it changed are replaced, but its trace is not whole.
    #[error("trace write fault")]
    TraceWrite,
    /// Data sets are not unloaded, or not as a whole.
    #[error(transparent)]
    Unload(UnloadFault),
    /// An image file or its image is faulty, or what was asked for can't be written.
    #[error(transparent)]
    Job(JobFault),
    /// The deck was run, and a volume that it changed can't be written back, or not all its files: those before it are replaced.
    #[error(transparent)]
    Save(JobFault),
    /// A text in words, of this file or of standard input, is not assembled.
    #[error("{0}: {1}")]
    Assembly(String, AssemblyFault),
    /// A deck, of this file or of standard input, is not put into words.
    #[error("{0}: {1}")]
    Disassembly(String, DisassemblyFault),
    /// The deck is faulty, or can't be read, or its answers can't be written.
    #[error(transparent)]
    Run(RunFault),
}

impl ProgramFault {
    ghost use Rattle.std.specs.Prelude.{◌≡◌};
    ghost use Rattle.program_faults.specs.Faults.{status_of};

    /// The status that the program ends with: 2 for words that are wrong or ask for help, and else 1.
    pub fn status(&self) -> u8
        ensures { result ≡ status_of self.now }
    {
        match self {
            ProgramFault::Words(_) | ProgramFault::Help(_) | ProgramFault::BadVolume => 2,
            _ => 1,
        }
    }
}

impl From<AllocError> for ProgramFault {
    ghost use Rattle.std.specs.Prelude.{◌≡◌};
    ghost use Rattle.program_faults.specs.declared.fault.ProgramFault.TheVariants.{OutOfMemory};

    ghost from_gives = { λ _ e. e ≡ OutOfMemory };

    fn from(_fault: AllocError) -> ProgramFault {
        ProgramFault::OutOfMemory
    }
}

impl From<JobFault> for ProgramFault {
    ghost use Rattle.std.specs.Prelude.{◌≡◌};
    ghost use Rattle.program_faults.specs.declared.fault.ProgramFault.TheVariants.{Job};

    ghost from_gives = { λ f e. e ≡ Job f };

    fn from(fault: JobFault) -> ProgramFault {
        ProgramFault::Job(fault)
    }
}

impl From<RunFault> for ProgramFault {
    ghost use Rattle.std.specs.Prelude.{◌≡◌};
    ghost use Rattle.program_faults.specs.declared.fault.ProgramFault.TheVariants.{Run};

    ghost from_gives = { λ f e. e ≡ Run f };

    fn from(fault: RunFault) -> ProgramFault {
        ProgramFault::Run(fault)
    }
}

impl From<UnloadFault> for ProgramFault {
    ghost use Rattle.std.specs.Prelude.{◌≡◌};
    ghost use Rattle.program_faults.specs.declared.fault.ProgramFault.TheVariants.{Unload};

    ghost from_gives = { λ f e. e ≡ Unload f };

    fn from(fault: UnloadFault) -> ProgramFault {
        ProgramFault::Unload(fault)
    }
}

// The fault of a volume that is printed: a slot that can't be read is a file that can't be.
impl From<VolumeFault> for ProgramFault {
    ghost use Rattle.std.specs.Prelude.{◌≡◌};
    ghost use Rattle.program_faults.specs.Faults.{printing_fault};

    ghost from_gives = { λ f e. e ≡ printing_fault f };

    fn from(fault: VolumeFault) -> ProgramFault {
        ProgramFault::Job(match fault {
            VolumeFault::OutOfMemory => JobFault::OutOfMemory,
            VolumeFault::Store => JobFault::Read,
            VolumeFault::Write => JobFault::Write,
        })
    }
}

impl From<MemberListFault> for ProgramFault {
    ghost use Rattle.std.specs.Prelude.{◌≡◌};
    ghost use Rattle.program_faults.specs.Faults.{library_fault};

    ghost from_gives = { λ f e. e ≡ library_fault f };

    fn from(fault: MemberListFault) -> ProgramFault {
        match fault {
            MemberListFault::NoDataSet => ProgramFault::Unload(UnloadFault::NoDataSet),
            MemberListFault::NotPartitioned => ProgramFault::NotPartitioned,
            MemberListFault::OutOfMemory => ProgramFault::Job(JobFault::OutOfMemory),
            MemberListFault::Read => ProgramFault::Job(JobFault::Read),
            MemberListFault::Write => ProgramFault::Job(JobFault::Write),
        }
    }
}

impl From<FormatFault> for ProgramFault {
    ghost use Rattle.std.specs.Prelude.{◌≡◌};
    ghost use Rattle.program_faults.specs.Faults.{format_fault};

    ghost from_gives = { λ f e. e ≡ format_fault f };

    fn from(fault: FormatFault) -> ProgramFault {
        match fault {
            FormatFault::Table(fault) => ProgramFault::Table(fault),
            FormatFault::Job(fault) => ProgramFault::Job(fault),
        }
    }
}

impl From<ChangeFault> for ProgramFault {
    ghost use Rattle.std.specs.Prelude.{◌≡◌};
    ghost use Rattle.program_faults.specs.Faults.{change_fault};

    ghost from_gives = { λ f e. e ≡ change_fault f };

    fn from(fault: ChangeFault) -> ProgramFault {
        match fault {
            ChangeFault::Refused(refusal) => ProgramFault::Change(refusal),
            ChangeFault::Job(fault) => ProgramFault::Job(fault),
            ChangeFault::Save(fault) => ProgramFault::Save(fault),
        }
    }
}

impl From<LoadFault> for ProgramFault {
    ghost use Rattle.std.specs.Prelude.{◌≡◌};
    ghost use Rattle.program_faults.specs.Faults.{load_fault};

    ghost from_gives = { λ f e. e ≡ load_fault f };

    fn from(fault: LoadFault) -> ProgramFault {
        match fault {
            ChangeFault::Refused(refusal) => ProgramFault::Load(refusal),
            ChangeFault::Job(fault) => ProgramFault::Job(fault),
            ChangeFault::Save(fault) => ProgramFault::Save(fault),
        }
    }
}

impl From<FolderFault> for ProgramFault {
    ghost use Rattle.std.specs.Prelude.{◌≡◌};
    ghost use Rattle.program_faults.specs.Faults.{folder_fault};

    ghost from_gives = { λ f e. e ≡ folder_fault f };

    fn from(fault: FolderFault) -> ProgramFault {
        match fault {
            ChangeFault::Refused(refusal) => ProgramFault::Folder(refusal),
            ChangeFault::Job(fault) => ProgramFault::Job(fault),
            ChangeFault::Save(fault) => ProgramFault::Save(fault),
        }
    }
}

impl From<NewMemberFault> for ProgramFault {
    ghost use Rattle.std.specs.Prelude.{◌≡◌};
    ghost use Rattle.program_faults.specs.Faults.{add_fault};

    ghost from_gives = { λ f e. e ≡ add_fault f };

    fn from(fault: NewMemberFault) -> ProgramFault {
        match fault {
            ChangeFault::Refused(refusal) => ProgramFault::Member(refusal),
            ChangeFault::Job(fault) => ProgramFault::Job(fault),
            ChangeFault::Save(fault) => ProgramFault::Save(fault),
        }
    }
}

impl From<MemberFault> for ProgramFault {
    ghost use Rattle.std.specs.Prelude.{◌≡◌};
    ghost use Rattle.program_faults.specs.Faults.{member_fault};

    ghost from_gives = { λ f e. e ≡ member_fault f };

    fn from(fault: MemberFault) -> ProgramFault {
        match fault {
            ChangeFault::Refused(refusal) => ProgramFault::Entry(refusal),
            ChangeFault::Job(fault) => ProgramFault::Job(fault),
            ChangeFault::Save(fault) => ProgramFault::Save(fault),
        }
    }
}

/// What the fault of a volume that is not opened is to the program. A file that is named for an address again is not told to be in use.
pub fn of_volume(fault: JobFault, is_taken: bool) -> ProgramFault
    ensures { result ≡ volume_fault fault is_taken }
{
    match (fault, is_taken) {
        (JobFault::InUse, true) => ProgramFault::AddressTaken,
        (fault, _) => ProgramFault::Job(fault),
    }
}
