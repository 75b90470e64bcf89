//! Laws of the definitions that the whole project is proved against, and values of them worked out
//! by hand. Each function does nothing: its contract is the law, and the gate proves it.
#![tactic(auto)]

pub mod worked;

ghost use Rattle.nor_laws.specs.Spelling.{HasSpelling, OneSpelling, SameSpelling, PollIsFixed};
ghost use Rattle.nor_laws.specs.Spelling.{VerifyKeeps};
ghost use Rattle.nor_laws.specs.Laws.{SymbolsFound, SamplesByClock, SamplesApart, OneText, OneList};
ghost use Rattle.nor_laws.specs.Laws.{TextsApart, NoProperPrefix, OneRow, FindsRow, RowFound};
ghost use Rattle.nor_laws.specs.Laws.{LegalOnChip, RegionLegal, BlocksNest, KeepsSize, AsksSampled};
ghost use Rattle.nor_laws.specs.Laws.{GivesSampled, PollEnds, PollCount, PollNeedsAll};
ghost use Rattle.nor_laws.specs.Laws.{BoundedIsRun, EventsAreTrail, RunEndsTrail, ProgramPutsByte};
ghost use Rattle.nor_laws.specs.Laws.{RaisedForByte, NotErasedForByte, ProgramKeepsOthers};
ghost use Rattle.nor_laws.specs.Laws.{ProgramJudgedByPage, EraseFills, EraseKeepsOthers};
ghost use Rattle.nor_laws.specs.Laws.{EraseNeverJudged, TargetKeeps, TargetGives, FirstInParts};
ghost use Rattle.nor_laws.specs.Laws.{GivesInParts, LegalInRegion, LinesApart};

/// A clock is found by its symbol, the lanes do at a symbol what they do at its clock, and no two
/// clocks have the same lanes: a list of samples means its instruction.
pub fn symbols()
    ensures found { SymbolsFound }
    ensures by_clock { SamplesByClock }
    ensures apart { SamplesApart }
{}

/// A list of steps has one text, a text has one list of steps, and no script text is a proper
/// prefix of another. The lines of steps tell them apart, also steps that no script may have.
pub fn script_texts()
    ensures one_text { OneText }
    ensures one_list { OneList }
    ensures apart { TextsApart }
    ensures no_proper_prefix { NoProperPrefix }
    ensures lines { LinesApart }
{}

/// In an accepted meaning an opcode has at most one row of the instruction table, and the first
/// match is that row.
pub fn instruction_rows()
    ensures one { OneRow }
    ensures found { FindsRow }
    ensures finds { RowFound }
{}

/// A block is legal exactly where it is aligned and lies in one region that allows its kind. In an
/// accepted meaning it lies on the chip, and two legal blocks are disjoint, or one holds the other.
pub fn legal_blocks()
    ensures region { LegalInRegion }
    ensures legal { RegionLegal }
    ensures chip { LegalOnChip }
    ensures nest { BlocksNest }
{}

/// A transaction keeps the size of the array, and on an array of the chip's size it gives as many
/// bytes as its clocks sample.
pub fn effects()
    ensures keeps { KeepsSize }
    ensures asks { AsksSampled }
    ensures gives { GivesSampled }
{}

/// A poll on a chip with n status reads left makes n + 1 of them, no fewer, ends idle and changes
/// nothing else.
pub fn polls()
    ensures ends { PollEnds }
    ensures count { PollCount }
    ensures all { PollNeedsAll }
{}

/// The chips of a run's events, one after another, are its trail.
pub fn run_events()
    ensures { EventsAreTrail }
{}

/// With a bound on polls above all that is left busy, now and later, a run is the run without a
/// bound.
pub fn bounded_runs()
    ensures { BoundedIsRun }
{}

/// A program clears the bits that its bytes say. It is Raised just for a byte that would set one
/// or, under the profile of erased bytes, NotErased just for a byte over one that isn't FFh. It
/// changes no byte outside its page, and isn't refused for bytes elsewhere.
pub fn programs()
    ensures puts { ProgramPutsByte }
    ensures raised { RaisedForByte }
    ensures not_erased { NotErasedForByte }
    ensures keeps { ProgramKeepsOthers }
    ensures judged { ProgramJudgedByPage }
{}

/// An erase leaves FFh over its block, changes no byte outside it, and isn't refused for any byte.
pub fn erases()
    ensures fills { EraseFills }
    ensures keeps { EraseKeepsOthers }
    ensures judged { EraseNeverJudged }
{}

/// A run ends with the chip after its last transaction.
pub fn runs()
    ensures { RunEndsTrail }
{}

/// What is chosen and given becomes the image's byte, and every other byte stays.
pub fn targets()
    ensures keeps { TargetKeeps }
    ensures gives { TargetGives }
{}

/// What a reader gives in two parts it gives, and what is ahead of it is what it gives first and
/// then the rest.
pub fn readers()
    ensures parts { GivesInParts }
    ensures first { FirstInParts }
{}

/// An instruction whose opcode has a row of the table that agrees with it, and that fits its
/// clocks, is spelled by them, and by no others. A poll has just its clocks on every chip.
pub fn spelling()
    ensures has { HasSpelling }
    ensures one { OneSpelling }
    ensures same { SameSpelling }
    ensures poll { PollIsFixed }
{}

/// A verifying read leaves the chip as it was: what samples and isn't a status read is a read of
/// the array.
pub fn verifying_reads()
    ensures { VerifyKeeps }
{}
