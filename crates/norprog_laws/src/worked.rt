//! Values of what texts and tables say, worked out by hand. Each function does nothing: its
//! contract is the values, and the gate computes them.

ghost use Rattle.norprog_laws.specs.Read.{AreRecords, AreLinesRead, AreAddresses, AreRegionsRead};
ghost use Rattle.norprog_laws.specs.Read.{AreMeanings, ArePlain, AreStates};

/// Records of Intel HEX, and the addresses of their bytes.
pub fn hex_worked()
    ensures records { AreRecords }
    ensures lines { AreLinesRead }
    ensures addresses { AreAddresses }
{}

/// A layout and what it chooses.
pub fn layout_worked()
    ensures { AreRegionsRead }
{}

/// The meanings of the sample chips' SFDP bytes.
pub fn sfdp_worked()
    ensures { AreMeanings }
{}

/// A chip's status, its start, contradictions of a job, sizes and pages.
pub fn states_worked()
    ensures { AreStates }
{}

/// Steps and their text, readers, chips, and what a chip must hold.
pub fn plain_worked()
    ensures { ArePlain }
{}
