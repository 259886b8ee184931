ghost use Rattle.std.specs.Prelude.{Some};
ghost use Rattle.report.specs.Reports.{report_line};

use crate::finding::Finding;
use std::fmt;

// A line of a report: the number of the line that was read, from 1, and what it came to.
#[derive(Clone, Copy)]
pub struct ReportLine {
    pub number: usize,
    pub finding: Finding,
}

// `no=3 code=0 count=2 got=n640`, and byte 10.
impl fmt::Display for ReportLine {
    ghost output = { λ x. Some (report_line x.number x.finding) };

    fn fmt<W: fmt::Write>(&self, f: &mut fmt::Formatter<W>) -> fmt::Result {
        let number = self.number;
        let code = self.finding.code;
        let steps = self.finding.steps;
        let got = self.finding.gained;
        writeln!(f, "no={number} code={code} count={steps} got={got}")
    }
}
