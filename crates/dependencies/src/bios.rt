ghost use Rattle.std.specs.Prelude.{◌≡◌};
ghost use Rattle.dependencies.specs.Bios as bios;
ghost use Rattle.dependencies.specs.Dependencies.{AreDependencies};

use first_looks::Question;
use machine::WholeRun;

/// The address of the BIOS's jump table.
const BIOS: u16 = 0xff00;

// Returns whether a run looked at this cell of the BIOS, which is none of the warm start's.
fn is_bios_look(run: &WholeRun<'_>, cell: u16) -> bool
    requires { AreDependencies run.now.session.now run.now.looks run.now.steps run.now.cause }
    ensures { result ≡ bios.is_bios_look run.now.session.now cell }
{
    !(0xff03..=0xff05).contains(&cell) && run.looks.get(&Question::Cell(cell)).is_some()
}

/// Returns the first cell of the BIOS's jump table at which a run looked, other than those of the warm start.
pub fn bios_look(run: &WholeRun<'_>) -> Option<u16>
    requires { AreDependencies run.now.session.now run.now.looks run.now.steps run.now.cause }
    ensures { result ≡ bios.bios_look run.now.session.now }
{
    for offset in 0..256 {
        let cell = BIOS + offset;
        if is_bios_look(run, cell) {
            return Some(cell);
        }
    }
    None
}
