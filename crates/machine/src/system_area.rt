// A step in the system area.

ghost use Rattle.std.specs.Prelude.{◌≡◌, ◌≤◌, true};
ghost use Rattle.std.specs.Borrow.{GName};
ghost use Rattle.file_calls.specs.HostTrees.{AreSoundOwnFiles};
ghost use Rattle.console_calls.specs.PerformsCall.{scene};
ghost use Rattle.bdos.specs.PerformsSystemCall.{MakesSystemCall};
ghost use Rattle.bdos.specs.SystemCalls as system_calls;
ghost use Rattle.pagemem.specs.Overlay.{beneath_of};
ghost use Rattle.machine.specs.Bound.{IsBound};
ghost use Rattle.machine.specs.Session.{image_of};
ghost use Rattle.machine.specs.Step.{script_limit, system_area};
ghost use Rattle.machine.specs.TakesStep.{memory_over_image, drives_in, TakesStep};
ghost use Rattle.machine.specs.Stops.{stop_of_call};

use crate::session::Session;
use crate::state::State;
use bdos::call;
use console_calls::{Cause, Desk, Served};
use cpmfiles::Table;
use hostfiles::Changes;
use i8080::Regs;
use pagemem::{LearningView, Overlay, View};
use std::alloc::AllocError;

/// The address of the warm start, to which the jump at 0000H leads.
const WARM_START: u16 = 0xff03;

/// The address of the BDOS, to which the jump at 0005H leads.
pub(crate) const BDOS_ENTRY: u16 = 0xfe06;

// Executes the call whose number is in C, over a session's image and its files.
fn serve(
    regs: &mut Regs,
    overlay: &mut Overlay,
    desk: &mut Desk,
    changes: &mut Changes,
    session: &Session,
) -> Result<Served, AllocError>
    ensures { (g : GName) → MakesSystemCall (system_calls.call script_limit) session.now.script
        (scene regs.old (memory_over_image session.now overlay.old) desk.old)
        (drives_in session.now changes.old g) result
        (scene regs.new (memory_over_image session.now overlay.new) desk.new)
        (drives_in session.now changes.new g) }
{
    let mut view = View::new(session.image(), overlay);
    let mut table = Table::new(session.files(), changes);
    call(regs, &mut view, &mut table, desk, session.script())
}

// Does the same, and makes each cell that it reads known. It is inlined, because most steps in the system area are calls of a run.
#[inline(always)]
fn serve_learning(
    regs: &mut Regs,
    overlay: &mut Overlay,
    desk: &mut Desk,
    changes: &mut Changes,
    session: &Session,
) -> Result<Served, AllocError>
    requires { beneath_of overlay.old ≡ image_of session.now }
    ensures served { (g : GName) → MakesSystemCall (system_calls.call script_limit) session.now.script
        (scene regs.old (memory_over_image session.now overlay.old) desk.old)
        (drives_in session.now changes.old g) result
        (scene regs.new (memory_over_image session.now overlay.new) desk.new)
        (drives_in session.now changes.new g) }
    ensures beneath { beneath_of overlay.new ≡ image_of session.now }
{
    let mut view = LearningView::new(session.image(), overlay);
    let mut table = Table::new(session.files(), changes);
    call(regs, &mut view, &mut table, desk, session.script())
}

// Returns the cause if a call stopped.
fn stop_of_call(served: Served) -> Option<Cause>
    ensures { result ≡ stop_of_call served }
{
    match served {
        Served::Went => None,
        Served::Stop(cause) => Some(cause),
    }
}

// Executes a step with PC in the system area: the call at the address of the BDOS, or a stop anywhere else. If `learns`, each
// cell that it reads becomes known.
#[inline(always)]
pub(crate) fn enter_system(
    state: &mut State,
    session: &Session,
    learns: bool,
) -> Result<Option<Cause>, AllocError>
    requires area { system_area ≤ state.old.state.core.regs.pc }
    requires sound { AreSoundOwnFiles session.now.files state.old.state.own.files }
    requires bound { learns ≡ true → IsBound session.now state.old }
    ensures step { TakesStep session.now state.old result state.new }
    ensures bound { learns ≡ true → IsBound session.now state.new }
{
    let State {
        regs,
        overlay,
        desk,
        changes,
    } = state;
    if regs.pc == WARM_START {
        return Ok(Some(Cause::WarmBoot));
    }
    if regs.pc != BDOS_ENTRY {
        return Ok(Some(Cause::SystemArea(regs.pc)));
    }
    if learns {
        let served = serve_learning(regs, overlay, desk, changes, session)?;
        return Ok(stop_of_call(served));
    }
    let served = serve(regs, overlay, desk, changes, session)?;
    Ok(stop_of_call(served))
}
