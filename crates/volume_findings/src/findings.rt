//! What is wrong with the data of data sets and members.

ghost use Rattle.std.specs.Prelude.{◌≡◌, ◌++◌, ◌∷◌, [], OnOk, IfErr};

use dasd_extract::Stop;
use dasd_volumes::VolumeFault;
use volume_labels::DirectoryFault;

/// What is wrong with data.
#[derive(Clone, Copy)]
pub enum DataFault {
    /// The entries of a directory can't be separated.
    Directory(DirectoryFault),
    /// Blocks end where they must not.
    Ends(Stop),
}

/// What is wrong with the data of a data set, or of a member of one.
#[derive(Clone, Copy)]
pub struct DataFinding {
    /// The name of the data set, in EBCDIC, filled up with blanks.
    pub data_set: [u8; 44],
    /// The name of the member, likewise; none of a directory and of a data set without members.
    pub member: Option<[u8; 8]>,
    /// What is wrong.
    pub fault: DataFault,
}

/// One finding more.
pub(crate) fn push(found: &mut Vec<DataFinding>, finding: DataFinding) -> Result<(), VolumeFault>
    ensures found { OnOk result (found.new.items ≡ found.old.items ++ finding ∷ []) }
    ensures fault { IfErr result (λ e. e ≡ VolumeFault.OutOfMemory) }
{
    match found.push(finding) {
        Ok(()) => Ok(()),
        Err(_) => Err(VolumeFault::OutOfMemory),
    }
}
