//! Why a report is none of a graph.

ghost use Rattle.std.specs.Prelude.{◌≡◌};
ghost use Rattle.report_checks.specs.Faults.{fault_number};

use base::SiteId;
use thiserror::Error;

/// The first fault of a report. Lines are numbered from 1.
#[derive(Clone, Copy, Debug, PartialEq, Eq, Error)]
pub enum ReportFault {
    /// This line is not of the form of one, or stands out of its order.
    #[error("a line is not of its form or out of its order")]
    BadLine(usize),
    /// The step on this line is no edge of the graph.
    #[error("a step is no edge")]
    NoSuchEdge(usize),
    /// The number on this line is not the sum at its step, or the last one is not -1.
    #[error("a number of a step is wrong")]
    WrongSum(usize),
    /// The root on this line doesn't outlive its site.
    #[error("a root does not outlive its site")]
    NotOutliving(usize),
    /// This site of the graph has no line.
    #[error("a site has no line")]
    SiteMissing(SiteId),
}

impl ReportFault {
    /// The number of its kind.
    pub fn number(self) -> u8
        ensures { result ≡ fault_number self }
    {
        match self {
            ReportFault::BadLine(_) => 1,
            ReportFault::NoSuchEdge(_) => 2,
            ReportFault::WrongSum(_) => 3,
            ReportFault::NotOutliving(_) => 4,
            ReportFault::SiteMissing(_) => 5,
        }
    }
}
