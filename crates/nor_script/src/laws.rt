//! What follows from the definitions. The function asks for laws of theirs and does nothing else:
//! its contract is the law.

ghost use Rattle.nor_script.specs.Laws.{ScriptsAreFaultless};

use nor_laws::script_texts;

/// The text of some steps has none of the faults for which a text is refused.
pub fn faultless_scripts()
    ensures { ScriptsAreFaultless }
{
    script_texts();
}
