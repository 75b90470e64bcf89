//! Values of the definitions, worked out by hand. Each function does nothing: its contract is the
//! values, and the gate computes them.

ghost use Rattle.std.specs.Prelude.{true, false};
ghost use Rattle.nor_laws.specs.Worked.{EnableSetsLatch, ProgramWrites, PollWaits, PollCountsThree};
ghost use Rattle.nor_laws.specs.Worked.{TimesInTurn, NoTimeLeft, BusyIgnores, ProgramWraps};
ghost use Rattle.nor_laws.specs.Worked.{LastByteCounts, RaiseIsWrong, NoLatchIgnores, EnterPlain};
ghost use Rattle.nor_laws.specs.Worked.{EnterLatched, LeaveLatched, EnterNeedsLatch};
ghost use Rattle.nor_laws.specs.Worked.{QuadProgramsAndReads, DedicatedErase, EraseInMidBlock};
ghost use Rattle.nor_laws.specs.Worked.{BrokenIsIgnored, UnknownOpcode, SevenClocks, ReadsLastByte};
ghost use Rattle.nor_laws.specs.Worked.{ReadPastEnd, OneByteText, OneByteTextLength, OneByteRun};
ghost use Rattle.nor_laws.specs.Worked.{WidestIsAccepted, BlocksOfMap, NoBlocksOfMap, TargetOfOne};
ghost use Rattle.nor_laws.specs.Worked.{TargetAtTheEnd, IgnoredOfFour};
ghost use Rattle.nor_laws.specs.Stops.{ReadsAnother, LongPollIdle, LongPollBusy, VerifiesStatus};
ghost use Rattle.nor_laws.specs.Stops.{VerifiesNothing, NineClocks, LatchIsLeft, BusyIsLeft};
ghost use Rattle.nor_laws.specs.Stops.{QuadOff, LatchFirst, StatusOfLatch, StatusOfBusy};
ghost use Rattle.nor_laws.specs.Stops.{CoversKept, CoversKeptElsewhere, RoundInLeast, OnInLarger};
ghost use Rattle.nor_laws.specs.Seen.{StepsSeen, SecondErased, UnreadIsNotVerified};
ghost use Rattle.nor_laws.specs.Planning.{EraseRestores, PageOutside, LowerOfTwoKinds, BorderParts};
ghost use Rattle.nor_laws.specs.Planning.{TwoErased, OneInTheMaking, BothErasedFirst};
ghost use Rattle.nor_laws.specs.Planning.{SecondMadeFirst, SpansPage, VerifiesBlock, VerifiesNone};
ghost use Rattle.nor_laws.specs.Planning.{VerifiesPage, Reached, NoBlockIsFault, CutAtKept};
ghost use Rattle.nor_laws.specs.Planning.{ErasedOnlyIsDue, Strategies, InMode, ThreeBytes};
ghost use Rattle.nor_laws.specs.Planning.{DedicatedFar, EntersAndLeaves, EntersLatched};
ghost use Rattle.nor_laws.specs.Planning.{NothingToDo, BeyondReach, ErasesAndReads, QuadDedicated};
ghost use Rattle.nor_laws.specs.Planning.{QuadLegacy};

/// An enable, programs, polls and what is refused while busy, without the latch or over a 0.
pub fn programs_worked()
    ensures enable { EnableSetsLatch }
    ensures program { ProgramWrites }
    ensures poll { PollWaits }
    ensures count { PollCountsThree }
    ensures turn { TimesInTurn }
    ensures past { NoTimeLeft }
    ensures busy { BusyIgnores }
    ensures wrap { ProgramWraps }
    ensures last { LastByteCounts }
    ensures raise { RaiseIsWrong }
    ensures latch { NoLatchIgnores }
{}

/// Four-byte mode entered and left, plain and after an enable, with the latch kept and not.
pub fn modes_worked()
    ensures plain { EnterPlain }
    ensures kept { EnterLatched true }
    ensures dropped { EnterLatched false }
    ensures left { LeaveLatched true }
    ensures left_too { LeaveLatched false }
    ensures needs { EnterNeedsLatch }
{}

/// Quad data, a dedicated erase, reads at the end of the chip, and what is no instruction.
pub fn instructions_worked()
    ensures quad { QuadProgramsAndReads }
    ensures erase { DedicatedErase }
    ensures inside { EraseInMidBlock }
    ensures broken { BrokenIsIgnored }
    ensures unknown { UnknownOpcode }
    ensures seven { SevenClocks }
    ensures last { ReadsLastByte }
    ensures past { ReadPastEnd }
{}

/// The script that programs one byte of the 8 KiB chip: its text, and its run on chips that stay
/// busy for no, one and two status reads.
pub fn script_worked()
    ensures text { OneByteText }
    ensures length { OneByteTextLength }
    ensures idle { OneByteRun 0 false }
    ensures busy { OneByteRun 1 true }
    ensures busier { OneByteRun 2 false }
{}

/// A chip at the upper limits is accepted.
pub fn limits_worked()
    ensures { WidestIsAccepted }
{}

/// Legal blocks of a sector map.
pub fn blocks_worked()
    ensures legal { BlocksOfMap }
    ensures none { NoBlocksOfMap }
{}

/// Targets of small images.
pub fn targets_worked()
    ensures one { TargetOfOne }
    ensures end { TargetAtTheEnd }
    ensures ignored { IgnoredOfFour }
{}

/// A verifying read of another byte, polls and reads of other forms, what is left set or busy, the
/// order of what is looked at, the status, the profile of erased bytes, and pages of two sizes.
pub fn stops_worked()
    ensures mismatch { ReadsAnother }
    ensures idle { LongPollIdle }
    ensures busy { LongPollBusy }
    ensures status { VerifiesStatus }
    ensures nothing { VerifiesNothing }
    ensures nine { NineClocks }
    ensures latch_left { LatchIsLeft }
    ensures busy_left { BusyIsLeft }
    ensures quad { QuadOff }
    ensures first { LatchFirst }
    ensures status_latch { StatusOfLatch }
    ensures status_busy { StatusOfBusy }
    ensures kept { CoversKept }
    ensures elsewhere { CoversKeptElsewhere }
    ensures least { RoundInLeast }
    ensures larger { OnInLarger }
{}

/// The transactions of a run with their steps, the addresses that an erase erased, and a program
/// that nothing reads later.
pub fn events_worked()
    ensures steps { StepsSeen }
    ensures erased { SecondErased }
    ensures unread { UnreadIsNotVerified }
{}

/// Units of small contents: an erase with what it takes along, a page outside, two kinds of one
/// size, a border, an address without a block, and the profile of erased bytes.
pub fn units_worked()
    ensures restore { EraseRestores }
    ensures page { PageOutside }
    ensures kinds { LowerOfTwoKinds }
    ensures border { BorderParts }
    ensures span { SpansPage }
    ensures verified { VerifiesBlock }
    ensures unverified { VerifiesNone }
    ensures page_read { VerifiesPage }
    ensures reached { Reached }
    ensures fault { NoBlockIsFault }
    ensures cut { CutAtKept }
    ensures due { ErasedOnlyIsDue }
{}

/// Two blocks to be erased: the first erased is one unit in the making; both erased before either
/// is programmed isn't, nor the second made before the first.
pub fn making_worked()
    ensures units { TwoErased }
    ensures one { OneInTheMaking }
    ensures both { BothErasedFirst }
    ensures second { SecondMadeFirst }
{}

/// The five strategies, and the instructions of programs, erases and reads by each, on one lane and
/// on four.
pub fn strategies_worked()
    ensures strategies { Strategies }
    ensures in_mode { InMode }
    ensures three { ThreeBytes }
    ensures dedicated { DedicatedFar }
    ensures enters { EntersAndLeaves }
    ensures latched { EntersLatched }
    ensures nothing { NothingToDo }
    ensures beyond { BeyondReach }
    ensures erases { ErasesAndReads }
    ensures quad { QuadDedicated }
    ensures quad_legacy { QuadLegacy }
{}
