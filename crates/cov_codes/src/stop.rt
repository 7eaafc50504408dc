// Why a line isn't done.
ghost use Rattle.std.specs.Prelude.{◌≡◌};
ghost use Rattle.cov_codes.specs.Stops.{alt_stop, cond_stop, export_stop, file_stop, import_stop, no_line_stop, past_stop, syntax_stop, bad_name_stop, name_stop, bind_stop, complete_stop, read_stop, list_stop, edit_stop, session_stop, no_session_stop, command_stop, refusal_stop};

use cov_alt::AltFault;
use cov_base::{BadName, Memory, MemoryOr};
use cov_cond::{CondFault, ExportFault, ImportFault};
use cov_engine::{FileFault, NoSuchLine, Refusal};
use cov_expr::{BindFault, NameFault};
use cov_hist::PastFault;
use cov_rules::CompleteFault;
use cov_script::{Code, LineSyntax};
use cov_session::{NoSession, SessionFault};
use cov_view::{EditFault, ListFault, ReadFaultOfView};

/// Why a line isn't done: a rule refuses it, and then the state is as it was; or memory is wanting, and then the run ends.
#[derive(Drop)]
pub enum Stop {
    Refused(Code),
    Memory,
}

impl From<Memory> for Stop {
    ghost use Rattle.cov_codes.specs.declared.stop.Stop.TheVariants.{Memory as wanting};

    ghost from_gives = { λ _ stop. stop ≡ wanting };

    fn from(_: Memory) -> Self {
        Stop::Memory
    }
}

impl From<LineSyntax> for Stop {
    ghost from_gives = { λ fault stop. stop ≡ syntax_stop fault };

    fn from(fault: LineSyntax) -> Self {
        match fault {
            LineSyntax::Syntax { at } => Stop::Refused(Code::Syntax { at }),
            LineSyntax::TooLong => Stop::Refused(Code::TooLong),
            LineSyntax::Memory => Stop::Memory,
        }
    }
}

impl From<NameFault> for Stop {
    ghost from_gives = { λ fault stop. stop ≡ name_stop fault };

    fn from(fault: NameFault) -> Self {
        match fault {
            NameFault::UnknownOption { name } => Stop::Refused(Code::UnknownOption { name }),
            NameFault::Memory => Stop::Memory,
        }
    }
}

impl From<BindFault> for Stop {
    ghost from_gives = { λ fault stop. stop ≡ bind_stop fault };

    fn from(fault: BindFault) -> Self {
        match fault {
            BindFault::UnknownOption { name } => Stop::Refused(Code::UnknownOption { name }),
            BindFault::Repeated { option } => Stop::Refused(Code::Repeated { option }),
            BindFault::Memory => Stop::Memory,
        }
    }
}

impl From<CompleteFault> for Stop {
    ghost from_gives = { λ fault stop. stop ≡ complete_stop fault };

    fn from(fault: CompleteFault) -> Self {
        match fault {
            CompleteFault::Invalid { rule } => Stop::Refused(Code::Invalid { rule }),
            CompleteFault::Incomplete { option } => Stop::Refused(Code::Incomplete { option }),
            CompleteFault::Memory => Stop::Memory,
        }
    }
}

impl From<EditFault> for Stop {
    ghost from_gives = { λ fault stop. stop ≡ edit_stop fault };

    fn from(fault: EditFault) -> Self {
        match fault {
            EditFault::NoSuchNode => Stop::Refused(Code::NoSuchPath),
            EditFault::NotFile => Stop::Refused(Code::NotFile),
            EditFault::NotDirectory => Stop::Refused(Code::NotDirectory),
            EditFault::NameTaken => Stop::Refused(Code::NameTaken),
            EditFault::NotEmpty => Stop::Refused(Code::NotEmpty),
            EditFault::IntoItself => Stop::Refused(Code::IntoItself),
            EditFault::IsRoot => Stop::Refused(Code::IsRoot),
            EditFault::NoSuchLine => Stop::Refused(Code::NoSuchLine),
            EditFault::Memory => Stop::Memory,
        }
    }
}

impl From<SessionFault> for Stop {
    ghost from_gives = { λ fault stop. stop ≡ session_stop fault };

    fn from(fault: SessionFault) -> Self {
        match fault {
            SessionFault::NoSession => Stop::Refused(Code::NoSession),
            SessionFault::SessionExists => Stop::Refused(Code::SessionExists),
            SessionFault::TooManySessions => Stop::Refused(Code::TooManySessions),
            SessionFault::Invalid { rule } => Stop::Refused(Code::Invalid { rule }),
            SessionFault::Incomplete { option } => Stop::Refused(Code::Incomplete { option }),
            SessionFault::OutsideAmbition => Stop::Refused(Code::OutsideAmbition),
            SessionFault::LateOption { option } => Stop::Refused(Code::LateOption { option }),
            SessionFault::OutsideSide => Stop::Refused(Code::OutsideSide),
            SessionFault::TooManyEdits => Stop::Refused(Code::TooManyEdits),
            SessionFault::TooManyBytes => Stop::Refused(Code::TooManyBytes),
            SessionFault::Edit { fault } => Stop::from(fault),
            SessionFault::EditLost { index } => Stop::Refused(Code::EditLost { index }),
            SessionFault::Memory => Stop::Memory,
        }
    }
}

impl From<NoSession> for Stop {
    ghost from_gives = { λ none stop. stop ≡ no_session_stop none };

    fn from(_: NoSession) -> Self {
        Stop::Refused(Code::NoSession)
    }
}

impl From<MemoryOr<NoSession>> for Stop {
    ghost from_gives = { λ fault stop. stop ≡ command_stop fault };

    fn from(fault: MemoryOr<NoSession>) -> Self {
        match fault {
            MemoryOr::Refused(none) => Stop::from(none),
            MemoryOr::Memory => Stop::Memory,
        }
    }
}

impl From<MemoryOr<BadName>> for Stop {
    ghost from_gives = { λ fault stop. stop ≡ bad_name_stop fault };

    fn from(fault: MemoryOr<BadName>) -> Self {
        match fault {
            MemoryOr::Refused(BadName) => Stop::Refused(Code::BadName),
            MemoryOr::Memory => Stop::Memory,
        }
    }
}

impl From<ReadFaultOfView> for Stop {
    ghost from_gives = { λ fault stop. stop ≡ read_stop fault };

    fn from(fault: ReadFaultOfView) -> Self {
        match fault {
            ReadFaultOfView::NoSuchNode => Stop::Refused(Code::NoSuchPath),
            ReadFaultOfView::NotFile => Stop::Refused(Code::NotFile),
            ReadFaultOfView::Memory => Stop::Memory,
        }
    }
}

impl From<ListFault> for Stop {
    ghost from_gives = { λ fault stop. stop ≡ list_stop fault };

    fn from(fault: ListFault) -> Self {
        match fault {
            ListFault::NoSuchNode => Stop::Refused(Code::NoSuchPath),
            ListFault::NotDirectory => Stop::Refused(Code::NotDirectory),
            ListFault::Memory => Stop::Memory,
        }
    }
}

impl From<Refusal> for Stop {
    ghost from_gives = { λ refusal stop. stop ≡ refusal_stop refusal };

    fn from(refusal: Refusal) -> Self {
        match refusal {
            Refusal::Full => Stop::Refused(Code::Full),
            Refusal::Exists => Stop::Refused(Code::Exists),
            Refusal::NoVariantLeft => Stop::Refused(Code::NoVariantLeft),
            Refusal::Upgraded => Stop::Refused(Code::Upgraded),
            Refusal::BadBase => Stop::Refused(Code::BadBase),
            Refusal::BadOption => Stop::Refused(Code::BadOption),
            Refusal::TooManyEdits => Stop::Refused(Code::TooManyEdits),
            Refusal::TooManyLines => Stop::Refused(Code::TooManyLines),
            Refusal::TooManyNodes => Stop::Refused(Code::TooManyNodes),
            Refusal::TooManyBytes => Stop::Refused(Code::TooManyBytes),
            Refusal::Invalid { rule } => Stop::Refused(Code::Invalid { rule }),
            Refusal::OutsideAmbition => Stop::Refused(Code::OutsideAmbition),
            Refusal::OutsideSide { edit } => Stop::Refused(Code::OutsideSideAt { edit }),
            Refusal::Empty => Stop::Refused(Code::Empty),
            Refusal::BadRecord { edit } => Stop::Refused(Code::BadRecord { edit }),
            Refusal::Overtaken { position } => Stop::Refused(Code::Overtaken { position }),
            Refusal::Clash { low, high, choice } => {
                Stop::Refused(Code::Clash { low, high, choice })
            }
            Refusal::Orphan { node, choice } => Stop::Refused(Code::Orphan { node, choice }),
            Refusal::Loop { node, choice } => Stop::Refused(Code::Loop { node, choice }),
            Refusal::Memory => Stop::Memory,
        }
    }
}

impl From<FileFault> for Stop {
    ghost from_gives = { λ fault stop. stop ≡ file_stop fault };

    fn from(fault: FileFault) -> Self {
        match fault {
            FileFault::NoSuchPath => Stop::Refused(Code::NoSuchPath),
            FileFault::NotFile => Stop::Refused(Code::NotFile),
        }
    }
}

impl From<MemoryOr<NoSuchLine>> for Stop {
    ghost from_gives = { λ fault stop. stop ≡ no_line_stop fault };

    fn from(fault: MemoryOr<NoSuchLine>) -> Self {
        match fault {
            MemoryOr::Refused(NoSuchLine) => Stop::Refused(Code::NoSuchLine),
            MemoryOr::Memory => Stop::Memory,
        }
    }
}

impl From<AltFault> for Stop {
    ghost from_gives = { λ fault stop. stop ≡ alt_stop fault };

    fn from(fault: AltFault) -> Self {
        match fault {
            AltFault::SideInvalid { on, rule } => Stop::Refused(Code::SideInvalid { on, rule }),
            AltFault::NoSuchPath => Stop::Refused(Code::NoSuchPath),
            AltFault::NotFile => Stop::Refused(Code::NotFile),
            AltFault::Memory => Stop::Memory,
        }
    }
}

impl From<PastFault> for Stop {
    ghost from_gives = { λ fault stop. stop ≡ past_stop fault };

    fn from(fault: PastFault) -> Self {
        match fault {
            PastFault::NoSuchPosition => Stop::Refused(Code::NoSuchPosition),
            PastFault::LateOption { option } => Stop::Refused(Code::LateOption { option }),
            PastFault::Incomplete { option } => Stop::Refused(Code::Incomplete { option }),
            PastFault::Invalid { rule } => Stop::Refused(Code::Invalid { rule }),
        }
    }
}

impl From<ExportFault> for Stop {
    ghost from_gives = { λ fault stop. stop ≡ export_stop fault };

    fn from(fault: ExportFault) -> Self {
        match fault {
            ExportFault::TooLong { line } => Stop::Refused(Code::TooLongAt {
                line: line.number(),
            }),
            ExportFault::Memory => Stop::Memory,
        }
    }
}

impl From<ImportFault> for Stop {
    ghost from_gives = { λ fault stop. stop ≡ import_stop fault };

    fn from(fault: ImportFault) -> Self {
        match fault {
            ImportFault::TooManyEdits => Stop::Refused(Code::TooManyEdits),
            ImportFault::TooManyBytes => Stop::Refused(Code::TooManyBytes),
            ImportFault::Full => Stop::Refused(Code::Full),
            ImportFault::TooManyLines => Stop::Refused(Code::TooManyLines),
            ImportFault::NoSuchPath => Stop::Refused(Code::NoSuchPath),
            ImportFault::Edit { fault } => Stop::from(fault),
            ImportFault::Memory => Stop::Memory,
        }
    }
}

impl From<CondFault> for Stop {
    ghost from_gives = { λ fault stop. stop ≡ cond_stop fault };

    fn from(fault: CondFault) -> Self {
        match fault {
            CondFault::Syntax { line } => Stop::Refused(Code::Syntax { at: line }),
            CondFault::TooLong { line } => Stop::Refused(Code::TooLongAt { line }),
            CondFault::UnknownOption { name, .. } => Stop::Refused(Code::UnknownOption { name }),
            CondFault::Memory => Stop::Memory,
        }
    }
}
