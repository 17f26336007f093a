//! The beginnings and ends of routines.
ghost use Rattle.inf_compilation.specs.{Context.handed, Meant.found_as};
ghost use Rattle.inf_compilation.specs.Actions.{kind_ended, with_all_unused, with_routine_fault};
ghost use Rattle.std.specs.Prelude.{IfOk, None, OnErr, OnOk, ◌≡◌};
ghost use Rattle.inf_names.specs.{Locals.no_locals, Spellings.as_name, Symbols.declare_fault};
ghost use Rattle.inf_names.specs.LocalList.{headed as as_headed, listed};

use crate::compilation::Compilation;
use crate::context::Context;
use crate::findings::{Findings, again_by, header_findings};
use inf_assembler::{CloseFault, RoutineKind};
use inf_constructs::labels::Labels;
use inf_lexer::Place;
use inf_names::locals::{Headed, Locals};
use inf_names::meanings::Meaning;
use inf_names::spellings::Name;
use inf_names::symbols::DeclareFault;
use inf_report::messages::Message;
use inf_settings::bounds::Bounds;
use inf_unit::messages::{Diagnostics, location};
use std::alloc::AllocError;
use std::mem;

/// Returns the kind of a routine, which is a value of a property if `is_embedded`.
fn kind_ended(is_embedded: bool) -> RoutineKind
    ensures { result ≡ kind_ended is_embedded }
{
    if is_embedded {
        RoutineKind::Embedded
    } else {
        RoutineKind::Plain
    }
}

/// Tells, at `place`, the error of the labels or offsets of a routine, if there is one. A label without a name is missing only
/// where a limit was passed before its place was laid.
fn tell_fault(
    fault: Option<CloseFault>,
    labels: &Labels,
    context: &Context<'_>,
    place: Place,
    report: &mut Diagnostics,
) -> Result<(), AllocError>
    ensures { OnOk result (report.new ≡ with_routine_fault (handed context.now) place labels.now fault report.old) }
{
    let at = location(context.files, place);
    if let Some(name) = labels.missing() {
        return report.error(at, at, &Message::LabelMissing(name));
    }
    match fault {
        Some(CloseFault::LabelTwice(_) | CloseFault::TooFar) => {
            report.error(at, at, &Message::BranchTooFar)
        }
        Some(CloseFault::LabelMissing(_) | CloseFault::Full(_) | CloseFault::Memory) | None => {
            Ok(())
        }
    }
}

/// Warns, at `place`, of each of `locals` that no statement named.
fn tell_unused(
    locals: &Locals,
    context: &Context<'_>,
    place: Place,
    report: &mut Diagnostics,
) -> Result<(), AllocError>
    ensures { OnOk result (report.new ≡ with_all_unused (handed context.now) place (listed locals.now) report.old) }
{
    for local in locals.list.as_slice() {
        if !local.is_named {
            report.warning(
                location(context.files, place),
                &Message::UnusedLocal(local.name.as_slice()),
            )?;
        }
    }
    Ok(())
}

impl<B: Bounds> Compilation<B> {
    ghost use Rattle.inf_compilation.specs.Actions.{close, code_closed, header_end, header_named, header_with, is_to_be_replaced};
    ghost use Rattle.inf_compilation.specs.Actions.{opened_with, routine_declared};
    ghost use Rattle.inf_compilation.specs.Works.{work};

    /// Ends the header of a routine, before a token at `place`.
    pub fn end_header(&mut self, context: &Context<'_>, place: Place) -> Result<(), AllocError>
        ensures { OnOk result (work self.new ≡ header_end B.most (handed context.now) place (work self.old)) }
    {
        let names = self.unit.tokens.names(self.alloc)?;
        let Some(name) = names.first() else {
            self.pass(true);
            return Ok(());
        };
        let first = self.unit.first_place(place);
        self.begin_routine(context, first, name)
    }

    /// Begins the routine `name` of a header that begins at `first`: one that is to be replaced is passed over.
    fn begin_routine(
        &mut self,
        context: &Context<'_>,
        first: Place,
        name: &Name,
    ) -> Result<(), AllocError>
        ensures { OnOk result (work self.new ≡ header_named B.most (handed context.now) first (as_name name.now) (work self.old)) }
    {
        self.is_embedded = false;
        self.is_replaced = self.is_to_be_replaced(name);
        if self.is_replaced {
            self.constructs.clear();
            self.pass(true);
            return Ok(());
        }
        let headed = self.take_headed();
        self.open(context, first, name, headed)
    }

    /// Takes away the locals that the header of a routine named.
    pub fn take_headed(&mut self) -> Headed
        ensures headed { as_headed result ≡ (work self.old).unit.headed }
        ensures none { let before = work self.old in work self.new ≡ record before { unit = record before.unit { headed = no_locals } } }
    {
        mem::replace(&mut self.unit.headed, Headed::new())
    }

    fn is_to_be_replaced(&self, name: &Name) -> bool
        ensures { result ≡ is_to_be_replaced (as_name name.now) (work self.now) }
    {
        self.is_system && self.replaced.has(name.bytes())
    }

    /// Opens the routine `name` of a header that begins at `first` and names the locals `headed`. Its code begins with the number
    /// of its locals (Z-Machine Standard 1.1, section 5.2).
    fn open(
        &mut self,
        context: &Context<'_>,
        first: Place,
        name: &Name,
        headed: Headed,
    ) -> Result<(), AllocError>
        ensures { OnOk result (work self.new
            ≡ header_with B.most (handed context.now) first (as_name name.now) (as_headed headed) (work self.old)) }
    {
        let refused = self.declare_routine(name)?;
        let found = header_findings(1, again_by(name, refused), &headed);
        self.open_code(context, first, headed, &found)
    }

    /// Declares `name` as a routine that begins behind those that are finished. Returns the refusal of the name, if there is one.
    /// Where memory runs out the compilation stays as it was.
    pub fn declare_routine(
        &mut self,
        name: &Name,
    ) -> Result<Option<DeclareFault<Place>>, AllocError>
        ensures value { OnOk result (work self.new ≡ routine_declared B.most (as_name name.now) (work self.old)) }
        ensures fault { IfOk result (λ refused. refused ≡ declare_fault B.most (as_name name.now).bytes (work self.old).output.names) }
        ensures err { OnErr result (work self.new ≡ work self.old) }
        ensures memory { OnErr result (declare_fault B.most (as_name name.now).bytes (work self.old).output.names ≡ None) }
    {
        let routine = Meaning::Routine(self.output.code.next_place());
        self.output.declare(name.bytes(), name.place, routine)
    }

    /// Opens the code of a routine with the locals `headed` of a header that begins at `first`, and about which there are the
    /// findings `found`.
    pub fn open_code(
        &mut self,
        context: &Context<'_>,
        first: Place,
        headed: Headed,
        found: &Findings,
    ) -> Result<(), AllocError>
        ensures { OnOk result (work self.new
            ≡ opened_with B.most (handed context.now) first (as_headed headed) (found_as found.now) (work self.old)) }
    {
        let locals = headed.locals.count();
        self.output.open(self.alloc, locals, found.least.is_some())?;
        self.locals = headed.locals;
        self.constructs.clear();
        self.labels.clear();
        self.end_unit(context, first, true, found)
    }

    /// Ends the open routine at `place`: tells its unused locals, and finishes its code.
    pub fn close(&mut self, context: &Context<'_>, place: Place) -> Result<(), AllocError>
        ensures { OnOk result (work self.new ≡ close B.most (handed context.now) place (work self.old)) }
    {
        if self.is_replaced {
            self.pass(true);
            return Ok(());
        }
        self.constructs.end(&mut self.output)?;
        self.close_code(context, place)
    }

    /// Ends the code of the open routine, at `place`.
    fn close_code(&mut self, context: &Context<'_>, place: Place) -> Result<(), AllocError>
        ensures { OnOk result (work self.new ≡ code_closed B.most (handed context.now) place (work self.old)) }
    {
        self.count_labels();
        let fault = self.output.close(kind_ended(self.is_embedded))?;
        tell_fault(fault, &self.labels, context, place, &mut self.report)?;
        tell_unused(&self.locals, context, place, &mut self.report)?;
        self.is_embedded = false;
        self.locals.list.clear();
        self.end_unit(context, place, true, &Findings::none())
    }
}
