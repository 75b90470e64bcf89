//! What stands on a command line, read by the command line library.

ghost use Rattle.std.specs.Prelude.{◌≡◌, codes, drop, false, map, string_bytes, true, IfErr};
ghost use Rattle.std.specs.Prelude.{IfOk, IfSome};
ghost use Rattle.clap.specs.Words.{found_of, kind_of};
ghost use Rattle.norprog_options.specs.Options.{texts_of, IsBuildIn, IsCheckIn, IsJobIn, IsChipIn};
ghost use Rattle.norprog_options.specs.Options.{IsDrawIn, IsFlashIn, IsHexIn, IsListIn, IsPlanIn};
ghost use Rattle.norprog_options.specs.Options.{IsPlayIn, IsReadIn, IsRunIn, IsSetupIn, IsAsked};
ghost use Rattle.norprog_options.specs.Options.{AimsIn, IsImageIn, IsOutIn, IsScriptIn};
ghost use Rattle.norprog_options.specs.Options.{asks_help, flash_name};
ghost use Rattle.norprog_options.specs.Spelled.{IsRefusalOf, IsUnasked, Refuses, Spells};
ghost use Rattle.norprog_options.specs.Spelled.{command_names, memory};
ghost use Rattle.norprog_options.specs.Typed.{IsDetailed, IsDetailedBy};

use crate::commands::norprog;
use crate::typed::{TypedLine, line_in};
use clap::error::ErrorKind;
use clap::{ArgMatches, Error};
use nor_base::Bytes;
use norprog_common::{
    Aim, BuildArgs, CheckArgs, ChipArgs, DrawArgs, FlashArgs, Given, HexArgs, ImageArgs, ListArgs,
    OutFile, PlanArgs, PlayArgs, ReadArgs, Refusal, RunArgs, ScriptArgs, SetupArgs,
};
use std::alloc::Global;

/// What stands on a command line, by its command.
#[derive(Drop)]
pub enum Asked<'a> {
    Build(BuildArgs<'a>),
    Plan(PlanArgs<'a>),
    Check(CheckArgs<'a>),
    Run(RunArgs<'a>),
    List(ListArgs<'a>),
    Draw(DrawArgs<'a>),
    Play(PlayArgs<'a>),
    Read(ReadArgs<'a>),
    Flash(FlashArgs<'a>),
    Sfdp(ChipArgs<'a>),
    Hex(HexArgs<'a>),
    Script(ScriptArgs<'a>),
    /// The words that are asked about.
    Explain(Vec<Bytes>),
    /// The help of the command that is asked about.
    Help(String),
}

/// A command line.
#[derive(Drop)]
pub struct Line<'a> {
    /// What it asks for.
    pub asked: Asked<'a>,
    /// What stands on it, where more is to be said of a refusal.
    pub details: Option<TypedLine<'a>>,
}

/// Reads the words after the program's name: a command and its options, by the rules of the command
/// line library. Without `--plain` more is to be said of a refusal with `--details`, and at a
/// terminal without `--json`.
///
/// Words with a fault and requests for help are refused with that library's `Text`; else only
/// `Memory` is.
pub fn asked_by<'a>(alloc: Global, words: &'a [String], terminal: bool) -> Result<Line<'a>, Refusal>
    ensures line { IfOk result (Spells (map string_bytes words.entry.now)) }
    ensures refused { IfErr result (Refuses (map string_bytes words.entry.now)) }
{
    let command = norprog(alloc)?;
    match command.try_get_matches_from(words) {
        Ok(matches) => Ok(Line {
            asked: asked_in(alloc, &matches)?,
            details: details_in(alloc, &matches, terminal)?,
        }),
        Err(error) => Err(refusal_of(alloc, &error)),
    }
}

/// What stands on a command line, where more is to be said of a refusal.
fn details_in<'a>(
    alloc: Global,
    matches: &ArgMatches<'a>,
    terminal: bool,
) -> Result<Option<TypedLine<'a>>, Refusal>
    ensures done { IfOk result (IsDetailed matches.now) }
    ensures memory { IfErr result (λ why. why ≡ memory) }
{
    match matches.subcommand() {
        Some((command, used)) => details_of(alloc, command, used, terminal),
        None => Ok(None),
    }
}

/// What stands after the name of a command, where more is to be said of a refusal.
fn details_of<'a>(
    alloc: Global,
    command: &'a str,
    used: &ArgMatches<'a>,
    terminal: bool,
) -> Result<Option<TypedLine<'a>>, Refusal>
    ensures done { IfOk result (IsDetailedBy command.entry.now (found_of used.now)) }
    ensures memory { IfErr result (λ why. why ≡ memory) }
{
    if is_asked(used, terminal) && !used.get_flag("plain") {
        Ok(Some(line_in(alloc, command, used)?))
    } else {
        Ok(None)
    }
}

/// Whether more is asked for of a refusal: at a terminal unless an object comes last.
fn is_asked(used: &ArgMatches<'_>, terminal: bool) -> bool {
    used.get_flag("details") || (terminal && !used.get_flag("json"))
}

/// What the matches of a command line ask for.
fn asked_in<'a>(alloc: Global, matches: &ArgMatches<'a>) -> Result<Asked<'a>, Refusal>
    ensures asked { IfOk result (IsAsked matches.now) }
    ensures refused { IfErr result (IsUnasked command_names matches.now) }
{
    if let Some(build) = matches.subcommand_matches("build") {
        return Ok(Asked::Build(build_in(alloc, build)?));
    }
    if let Some(plan) = matches.subcommand_matches("plan") {
        return Ok(Asked::Plan(plan_in(alloc, plan)?));
    }
    if let Some(check) = matches.subcommand_matches("check") {
        return Ok(Asked::Check(check_in(alloc, check)?));
    }
    script_asked(alloc, matches)
}

/// What they ask for, where that is no job.
fn script_asked<'a>(alloc: Global, matches: &ArgMatches<'a>) -> Result<Asked<'a>, Refusal>
    ensures asked { IfOk result (IsAsked matches.now) }
    ensures refused { IfErr result (IsUnasked (drop 3 command_names) matches.now) }
{
    if let Some(run) = matches.subcommand_matches("run") {
        return Ok(Asked::Run(run_in(run)));
    }
    if let Some(list) = matches.subcommand_matches("list") {
        return Ok(Asked::List(list_in(list)));
    }
    if let Some(draw) = matches.subcommand_matches("draw") {
        return Ok(Asked::Draw(draw_in(draw)));
    }
    if let Some(play) = matches.subcommand_matches("play") {
        return Ok(Asked::Play(play_in(play)));
    }
    meaning_asked(alloc, matches)
}

/// What they ask for, where that is none of these either.
fn meaning_asked<'a>(alloc: Global, matches: &ArgMatches<'a>) -> Result<Asked<'a>, Refusal>
    ensures asked { IfOk result (IsAsked matches.now) }
    ensures refused { IfErr result (IsUnasked (drop 7 command_names) matches.now) }
{
    if let Some(read) = matches.subcommand_matches("read") {
        return Ok(Asked::Read(read_in(read)));
    }
    if let Some(flash) = matches.subcommand_matches("flash") {
        return Ok(Asked::Flash(flash_in(alloc, flash, aim_in(flash), false)?));
    }
    if let Some(erase) = matches.subcommand_matches("erase") {
        return Ok(Asked::Flash(flash_in(alloc, erase, aim_in(erase), true)?));
    }
    if let Some(compare) = matches.subcommand_matches("compare") {
        return Ok(Asked::Flash(flash_in(alloc, compare, Aim::Compare, false)?));
    }
    if let Some(chip) = matches.subcommand_matches("sfdp") {
        return Ok(Asked::Sfdp(chip_in(chip)));
    }
    if let Some(hex) = matches.subcommand_matches("hex") {
        return Ok(Asked::Hex(hex_in(hex)));
    }
    if let Some(script) = matches.subcommand_matches("script") {
        return Ok(Asked::Script(script_in(script)));
    }
    if let Some(explain) = matches.subcommand_matches("explain") {
        if let Some(text) = help_in(alloc, explain)? {
            return Ok(Asked::Help(text));
        }
        return Ok(Asked::Explain(texts_in(alloc, explain, "words")?));
    }
    Err(Refusal::Usage)
}

/// The help of a command, as the library has it, where the words that are asked about are `help`
/// and its name.
fn help_in(alloc: Global, explain: &ArgMatches<'_>) -> Result<Option<String>, Refusal>
    ensures help { IfOk result (λ text. IfSome text
        (λ _. asks_help (texts_of (found_of explain.now) (codes "words")) ≡ true)) }
    ensures memory { IfErr result (λ why. why ≡ memory) }
{
    match explain.get_strs("words") {
        Some(words) if asks_help(words) => help_of(alloc, words[1]),
        _ => Ok(None),
    }
}

/// Whether words are `help` and another.
fn asks_help(words: &[&str]) -> bool
    ensures { result ≡ asks_help (map (λ word. word.now) words.now) }
{
    words.len() == 2 && words[0] == "help"
}

/// The help of a command of this name, if there is one.
fn help_of<'a>(alloc: Global, name: &'a str) -> Result<Option<String>, Refusal>
    ensures memory { IfErr result (λ why. why ≡ memory) }
{
    let words: [&'a str; 2] = [name, "--help"];
    let command = norprog(alloc)?;
    match command.try_get_matches_from(&words) {
        Ok(_matches) => Ok(None),
        Err(error) => help_text(alloc, &error),
    }
}

/// The library's text, if it is a help.
fn help_text(alloc: Global, error: &Error) -> Result<Option<String>, Refusal>
    ensures memory { IfErr result (λ why. why ≡ memory) }
{
    if error.kind() != ErrorKind::DisplayHelp {
        return Ok(None);
    }
    match format!(in alloc; "{error}") {
        Ok(text) => Ok(Some(text)),
        Err(_) => Err(Refusal::MEMORY),
    }
}

/// The library's text, or out of memory.
fn refusal_of(alloc: Global, error: &Error) -> Refusal
    ensures { IsRefusalOf (kind_of error.now) result }
{
    if error.kind() == ErrorKind::OutOfMemory {
        return Refusal::MEMORY;
    }
    match format!(in alloc; "{error}") {
        Ok(text) => Refusal::Text(text),
        Err(_) => Refusal::MEMORY,
    }
}

/// The job. An option that the command doesn't have isn't given.
fn given_in<'a>(alloc: Global, job: &ArgMatches<'a>) -> Result<Given<'a>, Refusal>
    ensures done { IfOk result (IsJobIn (found_of job.now)) }
    ensures memory { IfErr result (λ why. why ≡ memory) }
{
    Ok(Given {
        image: image_in(alloc, job)?,
        layout: job.get_str("layout"),
        sfdp: job.get_str("sfdp"),
        uniform: job.get_str("uniform"),
        sheet: job.get_str("sheet"),
        bits: job.get_str("bits"),
        part: job.get_str("part"),
        status: job.get_str("status"),
        mode4: job.get_flag("mode4"),
        quad: job.get_flag("quad"),
        base: job.get_str("base"),
        content: job.get_str("content"),
        verify: job.get_flag("verify"),
        erased_only: job.get_flag("erased-only"),
        page: job.get_str("page"),
        strict: job.get_flag("strict"),
        whole: job.get_flag("whole"),
        regions: texts_in(alloc, job, "names")?,
    })
}

/// The files of the image.
fn image_in<'a>(alloc: Global, matches: &ArgMatches<'a>) -> Result<ImageArgs<'a>, Refusal>
    ensures done { IfOk result (IsImageIn (found_of matches.now)) }
    ensures memory { IfErr result (λ why. why ≡ memory) }
{
    Ok(ImageArgs {
        hex: strs_in(alloc, matches, "hex")?,
        bin: strs_in(alloc, matches, "bin")?,
    })
}

/// The file of this option that is to be made, if it is given.
fn out_in<'a>(matches: &ArgMatches<'a>, name: &str) -> Option<OutFile<'a>>
    ensures { IsOutIn (found_of matches.now) name.now result }
{
    Some(OutFile {
        path: matches.get_str(name)?,
        force: matches.get_flag("force"),
    })
}

/// The build.
fn build_in<'a>(alloc: Global, build: &ArgMatches<'a>) -> Result<BuildArgs<'a>, Refusal>
    ensures done { IfOk result (IsBuildIn (found_of build.now)) }
    ensures memory { IfErr result (λ why. why ≡ memory) }
{
    Ok(BuildArgs {
        job: given_in(alloc, build)?,
        out: out_in(build, "out"),
    })
}

/// The check of a script.
fn check_in<'a>(alloc: Global, check: &ArgMatches<'a>) -> Result<CheckArgs<'a>, Refusal>
    ensures done { IfOk result (IsCheckIn (found_of check.now)) }
    ensures memory { IfErr result (λ why. why ≡ memory) }
{
    Ok(CheckArgs {
        job: given_in(alloc, check)?,
        script: check.get_str("script"),
        witness: check.get_flag("witness"),
    })
}

/// The plan.
fn plan_in<'a>(alloc: Global, plan: &ArgMatches<'a>) -> Result<PlanArgs<'a>, Refusal>
    ensures done { IfOk result (IsPlanIn (found_of plan.now)) }
    ensures memory { IfErr result (λ why. why ≡ memory) }
{
    Ok(PlanArgs {
        job: given_in(alloc, plan)?,
        times: plan.get_flag("times"),
        regions: plan.get_flag("regions"),
        map: out_in(plan, "map"),
    })
}

/// The chip.
fn chip_in<'a>(chip: &ArgMatches<'a>) -> ChipArgs<'a>
    ensures { IsChipIn (found_of chip.now) result }
{
    ChipArgs {
        sfdp: chip.get_str("sfdp"),
        uniform: chip.get_str("uniform"),
        sheet: chip.get_str("sheet"),
        bits: chip.get_str("bits"),
        part: chip.get_str("part"),
    }
}

/// The chip and how it begins.
fn setup_in<'a>(setup: &ArgMatches<'a>) -> SetupArgs<'a>
    ensures { IsSetupIn (found_of setup.now) result }
{
    SetupArgs {
        chip: chip_in(setup),
        status: setup.get_str("status"),
        mode4: setup.get_flag("mode4"),
        quad: setup.get_flag("quad"),
        erased_only: setup.get_flag("erased-only"),
    }
}

/// The play.
fn run_in<'a>(run: &ArgMatches<'a>) -> RunArgs<'a>
    ensures { IsRunIn (found_of run.now) result }
{
    RunArgs {
        setup: setup_in(run),
        content: run.get_str("content"),
        script: run.get_str("script"),
        busy: run.get_str("busy"),
        each_busy: run.get_str("each-busy"),
        keep: run.get_flag("keep"),
        limit: run.get_str("limit"),
        page: run.get_str("page"),
        out: out_in(run, "out"),
    }
}

/// The listing.
fn list_in<'a>(list: &ArgMatches<'a>) -> ListArgs<'a>
    ensures { IsListIn (found_of list.now) result }
{
    ListArgs {
        setup: setup_in(list),
        script: list.get_str("script"),
    }
}

/// The waveform.
fn draw_in<'a>(draw: &ArgMatches<'a>) -> DrawArgs<'a>
    ensures { IsDrawIn (found_of draw.now) result }
{
    DrawArgs {
        script: draw.get_str("script"),
        from: draw.get_str("from"),
        steps: draw.get_str("steps"),
        out: out_in(draw, "out"),
    }
}

/// The raw image.
fn hex_in<'a>(hex: &ArgMatches<'a>) -> HexArgs<'a>
    ensures { IsHexIn (found_of hex.now) result }
{
    HexArgs {
        bin: hex.get_str("bin"),
        at: hex.get_str("at"),
        out: out_in(hex, "out"),
    }
}

/// The log or the listing of which a script is made.
fn script_in<'a>(script: &ArgMatches<'a>) -> ScriptArgs<'a>
    ensures { IsScriptIn (found_of script.now) result }
{
    ScriptArgs {
        setup: setup_in(script),
        log: script.get_str("log"),
        without_identity: script.get_flag("without-identity"),
        out: out_in(script, "out"),
    }
}

/// The reading of a chip.
fn read_in<'a>(read: &ArgMatches<'a>) -> ReadArgs<'a>
    ensures { IsReadIn (found_of read.now) result }
{
    ReadArgs {
        chip: chip_in(read),
        page: read.get_str("page"),
        mode4: read.get_flag("mode4"),
        device: read.get_str("device"),
        limit: read.get_str("limit"),
        tables: read.get_str("tables"),
        out: read.get_str("out"),
        raw: read.get_flag("raw"),
        fresh: read.get_flag("fresh"),
        any_size: read.get_flag("any-size"),
        repeats: read.get_flag("repeats"),
        expect_id: read.get_str("expect-id"),
    }
}

/// What `flash` is to do with the chip.
fn aim_in(flash: &ArgMatches<'_>) -> Aim
    ensures asked { AimsIn (found_of flash.now) result }
    ensures named { (flash_name result true ≡ codes "erase")
        × (flash_name result false ≡ codes "flash") }
{
    if flash.get_flag("dry-run") {
        Aim::Plan
    } else {
        Aim::Work
    }
}

/// The work on a chip, or its comparison. An option that the command doesn't have isn't given.
fn flash_in<'a>(
    alloc: Global,
    flash: &ArgMatches<'a>,
    aim: Aim,
    blank: bool,
) -> Result<FlashArgs<'a>, Refusal>
    requires { AimsIn (found_of flash.now) aim }
    ensures done { IfOk result (IsFlashIn (found_of flash.now)) }
    ensures aim { IfOk result (λ given. (given.aim ≡ aim) × (given.blank ≡ blank)) }
    ensures memory { IfErr result (λ why. why ≡ memory) }
{
    Ok(FlashArgs {
        chip: chip_in(flash),
        page: flash.get_str("page"),
        mode4: flash.get_flag("mode4"),
        device: flash.get_str("device"),
        limit: flash.get_str("limit"),
        image: image_in(alloc, flash)?,
        layout: flash.get_str("layout"),
        base: flash.get_str("base"),
        before: flash.get_str("before"),
        resume: flash.get_str("resume"),
        erased_only: flash.get_flag("erased-only"),
        strict: flash.get_flag("strict"),
        partial: flash.get_flag("partial"),
        beyond: flash.get_flag("beyond"),
        aim,
        blank,
        all: flash.get_flag("all"),
        list: flash.get_flag("list"),
        near: flash.get_flag("near"),
        raw: flash.get_flag("raw"),
        fresh: flash.get_flag("fresh"),
        any_size: flash.get_flag("any-size"),
        repeats: flash.get_flag("repeats"),
        expect_id: flash.get_str("expect-id"),
        regions: texts_in(alloc, flash, "names")?,
    })
}

/// The play on a device.
fn play_in<'a>(play: &ArgMatches<'a>) -> PlayArgs<'a>
    ensures { IsPlayIn (found_of play.now) result }
{
    PlayArgs {
        setup: setup_in(play),
        content: play.get_str("content"),
        script: play.get_str("script"),
        page: play.get_str("page"),
        device: play.get_str("device"),
        limit: play.get_str("limit"),
        trust: play.get_flag("trust"),
    }
}

/// The values of an argument that may have several, in their order.
pub(crate) fn strs_in<'a>(
    alloc: Global,
    matches: &ArgMatches<'a>,
    name: &str,
) -> Result<Vec<&'a str>, Refusal>
    ensures done { IfOk result (λ texts. map (λ text. text.now) texts.items
        ≡ texts_of (found_of matches.now) name.now) }
    ensures memory { IfErr result (λ why. why ≡ memory) }
{
    match matches.get_strs(name) {
        Some(texts) => Ok(Vec::from_slice(alloc, texts)?),
        None => Ok(Vec::new(alloc)),
    }
}

/// The same as bytes.
fn texts_in(alloc: Global, matches: &ArgMatches<'_>, name: &str) -> Result<Vec<Bytes>, Refusal>
    ensures done { IfOk result (λ texts. texts.items ≡ texts_of (found_of matches.now) name.now) }
    ensures memory { IfErr result (λ why. why ≡ memory) }
{
    match matches.get_strs(name) {
        Some(texts) => bytes_of(alloc, texts),
        None => Ok(Vec::new(alloc)),
    }
}

/// The bytes of each text.
fn bytes_of(alloc: Global, texts: &[&str]) -> Result<Vec<Bytes>, Refusal>
    ensures done { IfOk result (λ each. each.items ≡ map (λ text. text.now) texts.now) }
    ensures memory { IfErr result (λ why. why ≡ memory) }
{
    let mut each = Vec::new(alloc);
    for text in texts {
        let bytes = Vec::from_slice(alloc, text.as_bytes())?;
        each.push(Bytes::new(bytes))?;
    }
    Ok(each)
}
