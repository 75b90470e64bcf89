//! Values of the marks and the rows, worked out by hand. Each function does nothing: its contract
//! is the values, and the gate computes them.

ghost use Rattle.nor_map.specs.Worked.{AreOther, AreRows, AreSizes, AreStates};

/// The states of the cells of small chips.
pub fn states_worked()
    ensures states { AreStates }
    ensures other { AreOther }
{}

/// The bytes of a cell, and the rows.
pub fn sizes_worked()
    ensures sizes { AreSizes }
    ensures rows { AreRows }
{}
