// A sheet that was read, and what is printed of it.
ghost use Rattle.std.specs.Prelude.{◌<◌, ◌-◌, ◌^◌};

use crate::failure::Failure;
use crate::report::print_report;
use sheets::held::Sources;
use sheets::reader::read;
use sources::kind::SourceKind;
use sources::source::MatchSource;
use std::fs;
use texts::pairings::{pairing_header, pairing_line};
use texts::sheets::{kind_line, size_line};

// The source of that kind holds the sheet: a reader is shown one source of each kind (a
// rule of this project).
#[derive(Drop)]
pub(crate) struct Sheet {
    sources: Sources,
    kind: SourceKind,
}

impl Sheet {
    pub(crate) fn read(bytes: &[u8]) -> Result<Sheet, Failure> {
        // any legal size will do, since the reader puts the size of the sheet in its place
        let mut sources = Sources::plain(2)?;
        let kind = read(bytes, &mut sources)?;
        Ok(Sheet { sources, kind })
    }

    pub(crate) fn read_file(rt: &HostRuntime, path: String) -> Result<Sheet, Failure> {
        let bytes = fs::read(rt, path.as_str()).map_err(|error| Failure::Unreadable {
            path,
            error,
        })?;
        Sheet::read(&bytes)
    }

    // The size and the kind.
    fn print_head(&self, rt: &HostRuntime) -> Result<(), Failure> {
        rt.println(size_line(rt.alloc(), self.sources.size(self.kind))?)?;
        rt.println(kind_line(rt.alloc(), self.kind)?)?;
        rt.println("")?;
        Ok(())
    }

    // The head, and each pairing with what it takes to win it.
    pub(crate) fn show(&self, rt: &HostRuntime) -> Result<(), Failure> {
        self.print_head(rt)?;
        rt.println(pairing_header())?;
        for a in 0..self.sources.size(self.kind) {
            self.print_pairings_of(rt, a)?;
        }
        Ok(())
    }

    // Those of an entrant and each with a higher number.
    fn print_pairings_of(&self, rt: &HostRuntime, a: usize) -> Result<(), Failure>
        requires { a < 2 ^ 64 - 1 }
    {
        for b in a + 1..self.sources.size(self.kind) {
            let facts = self.sources.pairing(self.kind, a, b);
            rt.println(pairing_line(rt.alloc(), a, b, facts)?)?;
        }
        Ok(())
    }

    // The head, and who can win. The sources are of three types: the report is generic, and the kind
    // picks one.
    pub(crate) fn report(&self, rt: &HostRuntime) -> Result<(), Failure> {
        self.print_head(rt)?;
        match self.kind {
            SourceKind::Matrix => print_report(rt, &self.sources.matrix),
            SourceKind::Order => print_report(rt, &self.sources.order),
            SourceKind::Bribes => print_report(rt, &self.sources.bribes),
        }
    }
}
