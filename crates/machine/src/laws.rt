ghost use Rattle.machine.specs.Accesses.{InstructionCells};
ghost use Rattle.machine.specs.PlainLaid.{PlainMachineIsLaid};

/// The plain machine, whose memory is one list and whose files are one map, makes the same steps as this machine.
pub fn plain_machine_is_laid()
    ensures { PlainMachineIsLaid }
{}

/// A step that executes an instruction writes and reads the cells that the instruction does.
pub fn instruction_cells()
    ensures { InstructionCells }
{}
