//! The command line of `loom_litmus`.
use clap::error::ErrorKind;
use clap::{Arg, ArgAction, ArgMatches, Command, Error, value_parser};
use loom::model::Walk;
use loom::model::builder::Builder;
use loom::model::cover::MOST_STATES;
use loom::model::different::MOST_DIFFERENT;
use std::alloc::{AllocError, Global};
use std::time::Duration;

/// How an answer is shown (own).
#[derive(Clone, Copy)]
pub enum Shows {
    /// As herd7 does.
    Whole,
    /// In one line.
    Line,
    /// As a line of a table.
    Table,
    /// As a JSON object in a line.
    Json,
}

/// What words ask for (own).
#[derive(Drop)]
pub struct Asked<'a> {
    /// The files, in order.
    pub files: Vec<&'a str>,
    /// How each test is checked.
    pub builder: Builder,
    /// How each answer is shown.
    pub shows: Shows,
    /// The choices of the one run that is to be made.
    pub replay: Option<&'a str>,
    /// The walk that is to be made through each test.
    pub walk: Option<Walk>,
    /// How many states are remembered at most. None where another search is asked for.
    pub covers: Option<usize>,
    /// Among how many workers the check is shared out, if it is. Zero are as many as there are processors.
    pub jobs: Option<usize>,
    /// Whether a failure, or the run that is made, is explained.
    pub explains: bool,
}

// How many operations a run may make, unless an option says it. Tests are small, and one that never ends is to end soon.
const MAX_STEPS: usize = 10_000;

// What follows an option's name.
#[derive(Clone, Copy)]
enum Takes {
    Nothing,
    // A number, with what the help calls it.
    Number(&'static str),
    // As many numbers as the help has names for.
    Numbers(&'static [&'static str]),
    // A text, with what the help calls it.
    Text(&'static str),
}

// An option of the program.
#[derive(Clone, Copy)]
struct Known {
    // The name, which follows `--`.
    name: &'static str,
    takes: Takes,
    help: &'static str,
    // What can't be given beside it.
    conflicts: &'static [&'static str],
    // What has to be given beside it.
    needs: Option<&'static str>,
}

// An option that others are made from.
const FLAG: Known = Known {
    name: "",
    takes: Takes::Nothing,
    help: "",
    conflicts: &[],
    needs: None,
};

// What asks for another search than the one that remembers states.
const OTHER_SEARCHES: [&str; 5] = ["reduce", "whole", "preemption-bound", "replay", "walk"];

// All options, in the order of the help, which clap adds itself.
static OPTIONS: [Known; 17] = [
    Known {
        name: "reduce",
        help: "try another thread only where an access calls for it",
        conflicts: &["whole"],
        ..FLAG
    },
    Known {
        name: "whole",
        help: "make every run: try each thread that can go on",
        ..FLAG
    },
    Known {
        name: "cover",
        help: "cover every run: remember states, and give a run up where its state was met before (the default)",
        conflicts: &OTHER_SEARCHES,
        ..FLAG
    },
    Known {
        name: "states",
        takes: Takes::Number("N"),
        help: "remember at most this many states",
        conflicts: &OTHER_SEARCHES,
        ..FLAG
    },
    Known {
        name: "snapshots",
        help: "go on from copies of where earlier runs stood, which finds the same",
        conflicts: &OTHER_SEARCHES,
        ..FLAG
    },
    Known {
        name: "preemption-bound",
        takes: Takes::Number("N"),
        help: "leave a thread that could go on at most this often in a run",
        ..FLAG
    },
    Known {
        name: "max-branches",
        takes: Takes::Number("N"),
        help: "how many choices a run may have (1000 unless said)",
        ..FLAG
    },
    Known {
        name: "max-steps",
        takes: Takes::Number("N"),
        help: "how many operations a run may make (10000 unless said)",
        ..FLAG
    },
    Known {
        name: "max-permutations",
        takes: Takes::Number("N"),
        help: "stop after this many runs",
        ..FLAG
    },
    Known {
        name: "max-duration",
        takes: Takes::Number("SECONDS"),
        help: "stop after this time",
        ..FLAG
    },
    Known {
        name: "jobs",
        takes: Takes::Number("N"),
        help: "share the check out among this many workers, or as many as there are processors, where it is 0",
        conflicts: &["replay", "walk"],
        ..FLAG
    },
    Known {
        name: "replay",
        takes: Takes::Text("CHOICES"),
        help: "make one run by choices as \"t0 l0 t1\", and then by defaults",
        conflicts: &["table", "json"],
        ..FLAG
    },
    Known {
        name: "walk",
        takes: Takes::Numbers(&["SEED", "RUNS"]),
        help: "make so many runs, whose choices are drawn by the seed, up to a failure",
        conflicts: &["replay", "table", "json"],
        ..FLAG
    },
    Known {
        name: "walk-depth",
        takes: Takes::Number("D"),
        help: "draw priorities of threads, which change D - 1 times in a run",
        needs: Some("walk"),
        ..FLAG
    },
    Known {
        name: "explain",
        help: "tell what happened in the run that failed, or that is made by --replay",
        conflicts: &["table", "json"],
        ..FLAG
    },
    Known {
        name: "json",
        help: "print each answer as a JSON object",
        conflicts: &["table"],
        ..FLAG
    },
    Known {
        name: "table",
        help: "print the answers as a table",
        ..FLAG
    },
];

impl Known {
    // What clap is told of it.
    fn arg<'a>(&self, alloc: Global) -> Result<Arg<'a>, AllocError> {
        let arg = Arg::new(alloc, self.name)
            .long(self.name)
            .help(self.help)
            .conflicts_with_all(self.conflicts)?;
        let arg = match self.needs {
            Some(other) => arg.requires_arg(other)?,
            None => arg,
        };
        Ok(match self.takes {
            Takes::Nothing => arg.action(ArgAction::SetTrue),
            Takes::Number(value) => arg.value_name(value).value_parser(value_parser!(usize)),
            Takes::Numbers(values) => arg.value_names(values).value_parser(value_parser!(usize)),
            Takes::Text(value) => arg.value_name(value),
        })
    }
}

// A search that remembers states isn't shared out.
const SHARED: &str = "--jobs needs --whole or --reduce";

/// What these words ask for. The error has clap's text: the cause, or the help (own).
pub fn read<'a>(alloc: Global, words: &'a [&'a str]) -> Result<Asked<'a>, Error> {
    let matches = command(alloc)?.try_get_matches_from(words)?;
    let covers = most_states(&matches);
    let jobs = matches.get_one("jobs");
    if covers.is_some() && jobs.is_some() {
        return Err(command(alloc)?.error(ErrorKind::MissingRequiredArgument, SHARED)?);
    }
    let files = files(alloc, &matches)?;
    let shows = shown_by(&matches, files.len());
    Ok(Asked {
        builder: builder(&matches),
        shows,
        replay: matches.get_str("replay"),
        walk: walk(&matches),
        covers,
        jobs,
        explains: matches.get_flag("explain"),
        files,
    })
}

fn files<'a>(alloc: Global, matches: &ArgMatches<'a>) -> Result<Vec<&'a str>, AllocError> {
    let mut files = Vec::new(alloc);
    if let Some(words) = matches.get_strs("FILE") {
        files.extend_from_slice(words)?;
    }
    Ok(files)
}

// The walk that `--walk` and `--walk-depth` ask for.
fn walk(matches: &ArgMatches) -> Option<Walk> {
    let mut numbers = matches.get_many::<usize>("walk")?;
    let seed = numbers.next()?.ok()? as u64;
    let runs = numbers.next()?.ok()? as u64;
    match matches.get_one::<u32>("walk-depth") {
        Some(depth) => Some(Walk::Priorities { seed, runs, depth }),
        None => Some(Walk::Random { seed, runs }),
    }
}

// How many states are remembered at most, unless words ask for a search that remembers none.
fn most_states(matches: &ArgMatches) -> Option<usize> {
    let bound: Option<usize> = matches.get_one("preemption-bound");
    if matches.get_flag("whole") || matches.get_flag("reduce") || bound.is_some() {
        None
    } else {
        Some(matches.get_one("states").unwrap_or(MOST_STATES))
    }
}

// Several answers have a line each.
fn shown_by(matches: &ArgMatches, files: usize) -> Shows {
    if matches.get_flag("json") {
        Shows::Json
    } else if matches.get_flag("table") {
        Shows::Table
    } else if files > 1 {
        Shows::Line
    } else {
        Shows::Whole
    }
}

// The defaults of a check, but that the search isn't reduced, runs have fewer operations and failures have places, with what the options
// say.
fn builder(matches: &ArgMatches) -> Builder {
    let defaults = Builder::new();
    let max_branches: Option<usize> = matches.get_one("max-branches");
    let max_steps: Option<usize> = matches.get_one("max-steps");
    Builder {
        max_branches: max_branches.unwrap_or(defaults.max_branches),
        max_steps: max_steps.unwrap_or(MAX_STEPS),
        max_permutations: matches.get_one("max-permutations"),
        max_duration: matches.get_one("max-duration").map(Duration::from_secs),
        max_different: Some(MOST_DIFFERENT),
        reduce: matches.get_flag("reduce"),
        preemption_bound: matches.get_one("preemption-bound"),
        snapshots: matches.get_flag("snapshots"),
        location: true,
        ..defaults
    }
}

// The program's command.
fn command<'a>(alloc: Global) -> Result<Command<'a>, AllocError> {
    let file = Arg::new(alloc, "FILE")
        .help("a litmus test in herd's C")
        .num_args(1..)
        .action(ArgAction::Append)
        .required(true);
    Command::new(alloc, "loom_litmus")
        .no_binary_name(true)
        .disable_version_flag(true)
        .override_usage("loom_litmus [OPTIONS] FILE..")
        .about("Reads litmus tests, covers all their runs, and answers as herd7 does.")
        .arg(file)?
        .args(options(alloc)?)
}

// What clap is told of the options.
fn options<'a>(alloc: Global) -> Result<Vec<Arg<'a>>, AllocError> {
    let mut options = Vec::new(alloc);
    for option in &OPTIONS {
        options.push(option.arg(alloc)?)?;
    }
    Ok(options)
}
