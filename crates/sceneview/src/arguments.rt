//! What the command line asks for.
ghost use Rattle.std.specs.Prelude.{◌≤◌, IfSome};

use crate::status::{Status, tell};
use clap::{Arg, ArgAction, ArgMatches, Command, Error};
use std::alloc::{AllocError, Global};

/// The first and the last of some frames, from 1.
#[derive(Clone, Copy, Debug)]
pub(crate) struct Frames {
    pub(crate) first: u32,
    pub(crate) last: u32,
}

/// What the command line asks for.
#[derive(Drop)]
pub(crate) enum Asked<'a> {
    /// The faults of documents, as JSON or as text.
    Check {
        files: Vec<&'a str>,
        json: bool,
    },
    /// What happened in frames of a document, as JSON or as text.
    Trace {
        file: &'a str,
        frames: Frames,
        json: bool,
        progress: bool,
    },
    /// The plan of a document, as SVG or as text, to a file or to standard output.
    Plan {
        file: &'a str,
        svg: bool,
        output: Option<&'a str>,
    },
    /// A page of the run of a document, to a file or to standard output.
    Draw {
        file: &'a str,
        output: Option<&'a str>,
        progress: bool,
    },
    /// Frames, by words that name none.
    NoFrames(&'a str),
}

/// Nothing more is to be done, and the program ends so.
#[derive(Clone, Copy, Debug)]
pub(crate) struct Stop(pub(crate) Status);

/// What the words ask for. Help, the version and mistakes are told at once.
///
/// Errors: how the program ends where there is nothing more to do.
pub(crate) fn asked_in<'a, R: Print + Eprint + AllocGlobal>(
    rt: &R,
    words: &'a [String],
) -> Result<Asked<'a>, Stop> {
    let matches = match matches_in(rt.alloc(), words) {
        Ok(matches) => matches,
        Err(error) => return Err(Stop(told(rt, &error))),
    };
    match asked_by(rt.alloc(), &matches) {
        Ok(asked) => Ok(asked),
        Err(_) => Err(Stop(tell(rt, Status::Memory, ""))),
    }
}

/// Prints what the parser says, and answers how the program ends.
fn told<R: Print + Eprint>(rt: &R, error: &Error) -> Status {
    if error.kind() == clap::error::ErrorKind::OutOfMemory {
        return tell(rt, Status::Memory, "");
    }
    match error.print(rt) {
        Ok(()) => if error.use_stderr() {
            Status::Arguments
        } else {
            Status::Clean
        },
        Err(_) => tell(rt, Status::Unwritten, ""),
    }
}

fn matches_in<'a>(alloc: Global, words: &'a [String]) -> Result<ArgMatches<'a>, Error> {
    let check = check_command(alloc)?;
    let trace = trace_command(alloc)?;
    let plan = plan_command(alloc)?;
    let draw = draw_command(alloc)?;
    Command::new(alloc, "sceneview")
        .version("1.0")
        .about("Shows scenes: where a document is wrong, what a run did, and pictures of it")
        .subcommand_required(true)
        .subcommand(check)?
        .subcommand(trace)?
        .subcommand(plan)?
        .subcommand(draw)?
        .try_get_matches_from(words)
}

fn check_command<'a>(alloc: Global) -> Result<Command<'a>, AllocError> {
    let json = Arg::new(alloc, "json")
        .long("json")
        .action(ArgAction::SetTrue)
        .help("Tell each fault as a JSON in one line");
    let files = Arg::new(alloc, "files")
        .value_name("FILE")
        .required(true)
        .action(ArgAction::Append)
        .num_args(1..)
        .help("The documents; - is standard input");
    Command::new(alloc, "check")
        .about("Lists every fault of each document, with its place and what would be right")
        .arg(json)?
        .arg(files)
}

fn trace_command<'a>(alloc: Global) -> Result<Command<'a>, AllocError> {
    let json = Arg::new(alloc, "json")
        .long("json")
        .action(ArgAction::SetTrue)
        .help("Tell each thing that happened as a JSON in one line");
    let frames = Arg::new(alloc, "frames")
        .long("frames")
        .value_name("A..B")
        .help("Tell frames A to B alone, counted from 1");
    Command::new(alloc, "trace")
        .about("Tells frame by frame what happened in the run of a document, and why")
        .arg(json)?
        .arg(frames)?
        .arg(progress_flag(alloc))?
        .arg(document(alloc))
}

fn plan_command<'a>(alloc: Global) -> Result<Command<'a>, AllocError> {
    let svg = Arg::new(alloc, "svg")
        .long("svg")
        .action(ArgAction::SetTrue)
        .help("Draw it as SVG");
    Command::new(alloc, "plan")
        .about(
            "Tells which systems of a document run side by side: a line for each stage, by their places",
        )
        .arg(svg)?
        .arg(output(alloc))?
        .arg(document(alloc))
}

fn draw_command<'a>(alloc: Global) -> Result<Command<'a>, AllocError> {
    Command::new(alloc, "draw")
        .about("Draws a page of HTML of the run of a document")
        .arg(output(alloc))?
        .arg(progress_flag(alloc))?
        .arg(document(alloc))
}

fn document<'a>(alloc: Global) -> Arg<'a> {
    Arg::new(alloc, "file")
        .value_name("FILE")
        .required(true)
        .help("The document; - is standard input")
}

fn output<'a>(alloc: Global) -> Arg<'a> {
    Arg::new(alloc, "output")
        .short('o')
        .long("output")
        .value_name("FILE")
        .help("Write to this file, and not to standard output")
}

fn progress_flag<'a>(alloc: Global) -> Arg<'a> {
    Arg::new(alloc, "progress")
        .long("progress")
        .action(ArgAction::SetTrue)
        .help("Tell on standard error, once a second, how far the run is")
}

fn asked_by<'a>(alloc: Global, matches: &ArgMatches<'a>) -> Result<Asked<'a>, AllocError> {
    match matches.subcommand() {
        Some(("trace", trace)) => Ok(trace_by(trace)),
        Some(("plan", plan)) => Ok(Asked::Plan {
            file: plan.get_str("file").unwrap_or("-"),
            svg: plan.get_flag("svg"),
            output: plan.get_str("output"),
        }),
        Some(("draw", draw)) => Ok(Asked::Draw {
            file: draw.get_str("file").unwrap_or("-"),
            output: draw.get_str("output"),
            progress: draw.get_flag("progress"),
        }),
        Some((_, check)) => check_by(alloc, check),
        None => Ok(Asked::NoFrames("")),
    }
}

fn check_by<'a>(alloc: Global, check: &ArgMatches<'a>) -> Result<Asked<'a>, AllocError> {
    let mut files = Vec::new(alloc);
    for name in check.get_strs("files").unwrap_or(&[]) {
        files.push(*name)?;
    }
    Ok(Asked::Check {
        files,
        json: check.get_flag("json"),
    })
}

fn trace_by<'a>(trace: &ArgMatches<'a>) -> Asked<'a> {
    let file = trace.get_str("file").unwrap_or("-");
    let json = trace.get_flag("json");
    let progress = trace.get_flag("progress");
    let all = Frames {
        first: 1,
        last: u32::MAX,
    };
    let words = trace.get_str("frames");
    let frames = match words {
        Some(words) => frames_in(words),
        None => Some(all),
    };
    match frames {
        Some(frames) => Asked::Trace {
            file,
            frames,
            json,
            progress,
        },
        None => Asked::NoFrames(words.unwrap_or("")),
    }
}

/// The frames that a text names as A..B, from 1, both of them among these.
fn frames_in(words: &str) -> Option<Frames>
    ensures first { IfSome result (λ frames. 1 ≤ frames.first) }
    ensures last { IfSome result (λ frames. frames.first ≤ frames.last) }
{
    let (first, last) = words.split_once("..")?;
    let first: u32 = first.parse().ok()?;
    let last: u32 = last.parse().ok()?;
    if first == 0 || last < first {
        return None;
    }
    Some(Frames { first, last })
}
