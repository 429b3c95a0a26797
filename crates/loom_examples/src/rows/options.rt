//! The program's command line: its options, and what words with options ask for.
ghost use Rattle.std.specs.Prelude.{◌≡◌};
ghost use Rattle.std.specs.List.{list_any};
ghost use Rattle.loom_examples.specs.Rows.Words.{ends_name, is_named, is_option};

use crate::rows::changes::Changes;
use crate::rows::drawing::Drawing;
use clap::{Arg, ArgAction, ArgMatches, Command, Error, value_parser};
use loom::model::Walk;
use loom::model::cover::MOST_STATES;
use std::alloc::{AllocError, Global};
use std::time::Duration;

/// What follows an option's name.
#[derive(Clone, Copy)]
enum Takes {
    /// Nothing.
    Nothing,
    /// A number, with what the help calls it.
    Number(&'static str),
    /// As many numbers as the help has names for.
    Numbers(&'static [&'static str]),
    /// A text, with what the help calls it.
    Text(&'static str),
    /// Two texts, with what the help calls them.
    Pair(&'static [&'static str]),
    /// Any number of texts, with what the help calls each.
    Texts(&'static str),
}

/// An option of the program.
#[derive(Clone, Copy)]
struct Known {
    /// The name, which follows `--`.
    name: &'static str,
    takes: Takes,
    help: &'static str,
    /// What can't be given beside it.
    conflicts: &'static [&'static str],
    /// What has to be given beside it, if something has.
    needs: Option<&'static str>,
    /// Whether nothing can be given beside it.
    alone: bool,
}

const FLAG: Known = Known {
    name: "",
    takes: Takes::Nothing,
    help: "",
    conflicts: &[],
    needs: None,
    alone: false,
};

const NUMBER: Known = Known {
    takes: Takes::Number("N"),
    ..FLAG
};

// All options, in the order of the help, which clap adds itself.
static OPTIONS: [Known; 30] = [
    // What the program does besides a check.
    Known {
        name: "explain",
        help: "where a run failed, explain it below the line",
        ..FLAG
    },
    Known {
        name: "svg",
        takes: Takes::Text("FILE"),
        help: "draw the run that is explained into this file, as a picture that a browser shows",
        needs: Some("explain"),
        ..FLAG
    },
    Known {
        name: "mermaid",
        takes: Takes::Text("FILE"),
        help: "write the run that is explained into this file, as a diagram of Mermaid",
        needs: Some("explain"),
        ..FLAG
    },
    Known {
        name: "replay",
        takes: Takes::Text("CHOICES"),
        help: "make one run by choices as \"t0 l0 t1\", and then by defaults",
        conflicts: &["rising"],
        ..FLAG
    },
    Known {
        name: "rising",
        help: "check with at most 0 preemptions, then 1, 2 and 3, up to a failure",
        ..FLAG
    },
    Known {
        name: "walk",
        takes: Takes::Numbers(&["SEED", "RUNS"]),
        help: "make so many runs, whose choices are drawn by the seed, up to a failure",
        conflicts: &["rising", "replay", "json"],
        ..FLAG
    },
    Known {
        name: "walk-depth",
        takes: Takes::Number("D"),
        help: "draw priorities of threads, which change D - 1 times in a run",
        needs: Some("walk"),
        ..FLAG
    },
    Known {
        name: "cover",
        help: "cover every run: remember states, and give a run up where its state was met before",
        conflicts: &[
            "replay",
            "rising",
            "walk",
            "part",
            "gather",
            "reduce",
            "preemption-bound",
        ],
        ..FLAG
    },
    Known {
        name: "states",
        help: "remember at most this many states",
        needs: Some("cover"),
        ..NUMBER
    },
    Known {
        name: "snapshots",
        help: "go on from copies of where earlier runs stood, which finds the same",
        conflicts: &["jobs", "split"],
        needs: Some("cover"),
        ..FLAG
    },
    Known {
        name: "recorded",
        help: "record what the threads of closures answer, and make runs of that where all of it is known",
        conflicts: &["replay", "walk", "cover", "jobs", "split", "part", "gather"],
        ..FLAG
    },
    Known {
        name: "shorten",
        help: "where a run failed, look for a shorter one that fails so, and explain that one",
        conflicts: &["json"],
        ..FLAG
    },
    Known {
        name: "jobs",
        help: "share the check or the walk out among this many workers, or as many as there are processors, where it is 0",
        conflicts: &["replay", "rising", "shorten", "json", "svg", "mermaid"],
        ..NUMBER
    },
    Known {
        name: "split",
        takes: Takes::Pair(&["DIR", "N"]),
        help: "split the check into at least N parts, which are files in DIR",
        conflicts: &[
            "jobs",
            "replay",
            "rising",
            "walk",
            "shorten",
            "json",
            "explain",
            "max-duration",
        ],
        ..FLAG
    },
    Known {
        name: "part",
        takes: Takes::Text("DIR/K"),
        help: "work on the part of number K in DIR",
        conflicts: &[
            "jobs", "replay", "rising", "walk", "shorten", "json", "explain", "split",
        ],
        ..FLAG
    },
    Known {
        name: "gather",
        takes: Takes::Text("DIR"),
        help: "take back what was worked on in DIR, and print what is open, or the report",
        conflicts: &[
            "jobs",
            "replay",
            "rising",
            "walk",
            "shorten",
            "json",
            "explain",
            "split",
            "part",
            "max-duration",
        ],
        ..FLAG
    },
    Known {
        name: "json",
        help: "print the report as one JSON object",
        conflicts: &["explain"],
        ..FLAG
    },
    Known {
        name: "list",
        help: "print a line for each row",
        alone: true,
        ..FLAG
    },
    Known {
        name: "tour",
        help: "check four bodies, right and wrong, and explain what fails",
        alone: true,
        ..FLAG
    },
    Known {
        name: "measure",
        takes: Takes::Texts("NAME"),
        help: "print how long checks take, of the bodies of these names or of some",
        alone: true,
        ..FLAG
    },
    // The settings of a check, each in place of the row's own.
    Known {
        name: "max-threads",
        help: "how many threads a run may have",
        ..NUMBER
    },
    Known {
        name: "max-branches",
        help: "how many choices a run may have",
        ..NUMBER
    },
    Known {
        name: "max-steps",
        help: "how many operations a run may make",
        ..NUMBER
    },
    Known {
        name: "max-permutations",
        help: "stop after this many runs",
        ..NUMBER
    },
    Known {
        name: "max-duration",
        takes: Takes::Number("SECONDS"),
        help: "stop after this time",
        conflicts: &["rising", "replay"],
        ..FLAG
    },
    Known {
        name: "preemption-bound",
        help: "leave a thread that could go on at most this often in a run",
        ..NUMBER
    },
    Known {
        name: "checkpoint-interval",
        help: "save a checkpoint every so many runs",
        ..NUMBER
    },
    Known {
        name: "reduce",
        help: "reduce the search",
        conflicts: &["no-reduce"],
        ..FLAG
    },
    Known {
        name: "no-reduce",
        help: "try every thread that can go on",
        ..FLAG
    },
    Known {
        name: "explicit-explore",
        help: "explore only from the operation `explore` on",
        ..FLAG
    },
];

impl Known {
    /// What clap is told of it.
    fn arg<'a>(&self, alloc: Global) -> Result<Arg<'a>, AllocError> {
        let arg = Arg::new(alloc, self.name)
            .long(self.name)
            .help(self.help)
            .exclusive(self.alone)
            .conflicts_with_all(self.conflicts)?;
        let arg = match self.needs {
            Some(other) => arg.requires_arg(other)?,
            None => arg,
        };
        Ok(match self.takes {
            Takes::Nothing => arg.action(ArgAction::SetTrue),
            Takes::Number(value) => arg.value_name(value).value_parser(value_parser!(usize)),
            Takes::Numbers(values) => arg.value_names(values).value_parser(value_parser!(usize)),
            Takes::Text(value) => arg.value_name(value),
            Takes::Pair(values) => arg.value_names(values).num_args(2),
            Takes::Texts(value) => arg
                .value_name(value)
                .num_args(0..)
                .action(ArgAction::Append),
        })
    }
}

/// Whether the word is an option of the program, or `--`, behind which clap reads no word as an option.
pub(crate) fn is_option(word: &str) -> bool
    ensures { result ≡ is_option word.now }
{
    word == "-h" || word == "--" || is_named(word, "help") || is_one_of(word, &OPTIONS)
}

// Whether the word is one of these options.
fn is_one_of(word: &str, options: &[Known]) -> bool
    ensures { result ≡ list_any (λ option. is_named word.now option.name.now) options.now }
{
    options.iter().any(|option| is_named(word, option.name))
}

// Whether the word is the option of this name, with a value behind `=` or without one.
fn is_named(word: &str, name: &str) -> bool
    ensures { result ≡ is_named word.now name.now }
{
    let word = word.as_bytes();
    let name = name.as_bytes();
    word.starts_with(b"--") && word[2..].starts_with(name) && ends_name(&word[2 + name.len()..])
}

// Whether this can follow an option's name: nothing, or a value behind `=`.
fn ends_name(rest: &[u8]) -> bool
    ensures { result ≡ ends_name rest.now }
{
    match rest {
        [] => true,
        [sign, ..] => *sign == b'=',
    }
}

/// What words with options ask for.
#[derive(Drop)]
pub enum Asked<'a> {
    /// A line for each row.
    List,
    /// A first look at bodies, right and wrong.
    Tour,
    /// How long checks of the bodies of these names take.
    Measure(Vec<&'a str>),
    /// Something of a row.
    Row(RowAsked<'a>),
}

/// What is done with the parts of a check, in a folder.
#[derive(Clone, Copy)]
pub enum Share<'a> {
    /// The check is split into so many parts at least.
    Split(&'a str, usize),
    /// This part is worked on: the folder, a slash and the part's number.
    Part(&'a str),
    /// What was worked on is taken back.
    Gather(&'a str),
}

/// What words ask for of a row.
#[derive(Clone, Copy)]
pub struct RowAsked<'a> {
    /// The row's name.
    pub name: &'a str,
    /// The checkpoint file.
    pub file: Option<&'a str>,
    /// The choices of the one run that is to be made.
    pub replay: Option<&'a str>,
    /// Whether the bound on preemptions rises from check to check.
    pub rises: bool,
    /// The walk that is to be made.
    pub walk: Option<Walk>,
    /// How many states are remembered at most, if the row is covered.
    pub covers: Option<usize>,
    /// Whether the threads' answers are recorded, in a row of closures.
    pub records: bool,
    /// Whether a failure is shortened.
    pub shortens: bool,
    /// Among how many workers the check is shared out, if it is.
    pub jobs: Option<usize>,
    /// What is done with the parts of the check, if they are files.
    pub share: Option<Share<'a>>,
    /// Whether a failure is explained.
    pub explains: bool,
    /// The files that it is drawn into.
    pub drawing: Drawing<'a>,
    /// Whether the answer is a JSON object.
    pub json: bool,
    /// The settings that take the place of the row's own.
    pub changes: Changes,
}

/// What these words ask for. The error has clap's text: the cause with the nearest option, or the help.
pub fn read<'a>(alloc: Global, words: &'a [&str]) -> Result<Asked<'a>, Error> {
    let matches = command(alloc)?.try_get_matches_from(words)?;
    if matches.get_flag("list") {
        return Ok(Asked::List);
    }
    if matches.get_flag("tour") {
        return Ok(Asked::Tour);
    }
    if matches.contains_id("measure") {
        return Ok(Asked::Measure(names(alloc, &matches)?));
    }
    Ok(Asked::Row(RowAsked {
        name: matches.get_str("NAME").unwrap_or(""),
        file: matches.get_str("FILE"),
        replay: matches.get_str("replay"),
        rises: matches.get_flag("rising"),
        walk: walk(&matches),
        covers: most_states(&matches),
        records: matches.get_flag("recorded"),
        shortens: matches.get_flag("shorten"),
        jobs: matches.get_one("jobs"),
        share: share_asked(&matches),
        explains: matches.get_flag("explain"),
        drawing: Drawing {
            svg: matches.get_str("svg"),
            mermaid: matches.get_str("mermaid"),
        },
        json: matches.get_flag("json"),
        changes: changes(&matches),
    }))
}

// What is done with the parts of the check. A number of parts that is none counts as zero.
fn share_asked<'a>(matches: &ArgMatches<'a>) -> Option<Share<'a>> {
    if let Some([path, wanted]) = matches.get_strs("split") {
        return Some(Share::Split(path, wanted.parse().unwrap_or(0)));
    }
    if let Some(part) = matches.get_str("part") {
        return Some(Share::Part(part));
    }
    matches.get_str("gather").map(Share::Gather)
}

// The names behind `--measure`.
fn names<'a>(alloc: Global, matches: &ArgMatches<'a>) -> Result<Vec<&'a str>, AllocError> {
    let mut names = Vec::new(alloc);
    if let Some(words) = matches.get_strs("measure") {
        names.extend_from_slice(words)?;
    }
    Ok(names)
}

// The walk that `--walk` and `--walk-depth` ask for.
fn walk(matches: &ArgMatches) -> Option<Walk> {
    let mut numbers = matches.get_many::<usize>("walk")?;
    let seed = numbers.next()?.ok()? as u64;
    let runs = numbers.next()?.ok()? as u64;
    match matches.get_one::<u32>("walk-depth") {
        Some(depth) => Some(Walk::Priorities { seed, runs, depth }),
        None => Some(Walk::Random { seed, runs }),
    }
}

fn changes(matches: &ArgMatches) -> Changes {
    Changes {
        max_threads: matches.get_one("max-threads"),
        max_branches: matches.get_one("max-branches"),
        max_steps: matches.get_one("max-steps"),
        max_permutations: matches.get_one("max-permutations"),
        max_duration: matches.get_one("max-duration").map(Duration::from_secs),
        reduce: switched(matches.get_flag("reduce"), matches.get_flag("no-reduce")),
        preemption_bound: matches.get_one("preemption-bound"),
        checkpoint_interval: matches.get_one("checkpoint-interval"),
        expect_explicit_explore: switched(matches.get_flag("explicit-explore"), false),
        snapshots: switched(matches.get_flag("snapshots"), false),
    }
}

// How many states `--cover` remembers.
fn most_states(matches: &ArgMatches) -> Option<usize> {
    if matches.get_flag("cover") {
        Some(matches.get_one("states").unwrap_or(MOST_STATES))
    } else {
        None
    }
}

// What two opposite options say.
fn switched(on: bool, off: bool) -> Option<bool> {
    if on {
        Some(true)
    } else if off {
        Some(false)
    } else {
        None
    }
}

/// The program's command.
fn command<'a>(alloc: Global) -> Result<Command<'a>, AllocError> {
    let name = Arg::new(alloc, "NAME")
        .help("the name of a row")
        .required_unless_present("part")?
        .required_unless_present("gather")?;
    let file = Arg::new(alloc, "FILE")
        .help("the file that the check goes on from, and keeps its checkpoints in")
        .conflicts_with("rising")?
        .conflicts_with("replay")?;
    Command::new(alloc, "loom_rows")
        .no_binary_name(true)
        .disable_version_flag(true)
        .override_usage("loom_rows [OPTIONS] NAME [FILE]")
        .about("Checks the body that is called NAME, and prints what the check finds.")
        .arg(name)?
        .arg(file)?
        .args(options(alloc)?)
}

// What clap is told of the options.
fn options<'a>(alloc: Global) -> Result<Vec<Arg<'a>>, AllocError> {
    let mut options = Vec::new(alloc);
    for option in &OPTIONS {
        options.push(option.arg(alloc)?)?;
    }
    Ok(options)
}
