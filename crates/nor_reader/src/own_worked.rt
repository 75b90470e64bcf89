//! Values of the definitions, worked out by hand. The function does nothing: its contract is the
//! values, and the gate computes them.

ghost use Rattle.nor_reader.specs.OwnWorked.{AreOpcodes, AreRegistersRead, AreValuesRead};
ghost use Rattle.nor_reader.specs.OwnWorked.{AreDensities};

/// What tables whose basic table has 16 DWORDs or 15 say of size and address register, and what
/// values of a register say.
pub fn own_tables_worked()
    ensures densities { AreDensities }
    ensures registers { AreRegistersRead }
    ensures opcodes { AreOpcodes }
    ensures values { AreValuesRead }
{}
