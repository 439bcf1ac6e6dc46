//! What an archive asks of a volume, above one image: what a reader of the drive would trip over.
#![tactic(auto)]

mod compared;
mod compares;
mod differences;
mod dumps;
mod findings;
mod numbered;
mod printed;
mod reports;
mod rows;
mod strict;
mod tracks;

pub use crate::compares::{Comparison, compare};
pub use crate::differences::Difference;
pub use crate::dumps::{VolumePart, dump};
pub use crate::findings::{FindingPlace, Severity, StrictFinding, StrictProblem};
pub use crate::numbered::has_records;
pub use crate::reports::{FindingForm, FindingStyle, Tally};
pub use crate::strict::{FileHeader, check_headers, check_strict};
