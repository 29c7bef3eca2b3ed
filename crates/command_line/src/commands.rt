//! The table of commands. Made by scripts/make-commands from docs/commands.tsv: change that.

use crate::table::Parameter::{self, Defaulted, Flag, Optional, Positional, Required};
use crate::table::Row;

const FILE: Parameter = Positional("file");

const SCHEDULE: Parameter = Positional("schedule");

const BUFFER: Parameter = Defaulted("buffer", "4");

const SEED: Parameter = Required("seed");

const RUNS: Parameter = Required("runs");

const LENGTH: Parameter = Required("length");

const SKIP: Parameter = Defaulted("skip", "0");

const DRAW: Parameter = Defaulted("draw", "uniform");

const JOBS: Parameter = Defaulted("jobs", "1");

const RING: Parameter = Positional("ring");

const BASE: Parameter = Defaulted("base", "0");

const STRIDE: Parameter = Optional("stride");

/// Each command with its words and options.
pub const COMMANDS: [Row; 18] = [
    ("run", &[FILE, SCHEDULE, BUFFER]),
    ("replay", &[FILE, SCHEDULE, BUFFER]),
    ("move", &[FILE, SCHEDULE, BUFFER]),
    ("shrink", &[FILE, SCHEDULE, BUFFER]),
    (
        "chart",
        &[FILE, SCHEDULE, BUFFER, Flag("svg"), Flag("memory")],
    ),
    ("show", &[FILE, BUFFER, Flag("steps")]),
    ("debug", &[FILE, SCHEDULE, BUFFER]),
    ("check", &[FILE, BUFFER]),
    ("find", &[FILE, BUFFER, Defaulted("states", "1000000")]),
    (
        "try",
        &[
            FILE,
            BUFFER,
            SEED,
            RUNS,
            LENGTH,
            SKIP,
            DRAW,
            Flag("unfinished"),
            JOBS,
        ],
    ),
    ("threads", &[FILE, BUFFER, Defaulted("turns", "100000")]),
    (
        "channel",
        &[
            Positional("kind"),
            RING,
            SCHEDULE,
            BUFFER,
            BASE,
            STRIDE,
            Flag("finish"),
            Optional("sender"),
            Optional("receiver"),
        ],
    ),
    (
        "ring",
        &[
            Positional("sender"),
            Positional("receiver"),
            RING,
            BUFFER,
            SEED,
            RUNS,
            LENGTH,
            SKIP,
            DRAW,
            JOBS,
            BASE,
            STRIDE,
        ],
    ),
    (
        "callers",
        &[
            FILE,
            BUFFER,
            SEED,
            RUNS,
            LENGTH,
            SKIP,
            DRAW,
            JOBS,
            Required("slots"),
            BASE,
            Defaulted("sender", "0"),
            Defaulted("receiver", "1"),
            Defaulted("kind", "lamport"),
        ],
    ),
    (
        "queue",
        &[
            FILE,
            BUFFER,
            Defaulted("seed", "1"),
            Defaulted("runs", "1000"),
            Defaulted("length", "1000"),
            SKIP,
            Defaulted("draw", "bursts"),
            JOBS,
            Required("certificate"),
            Optional("written"),
            Optional("read"),
            Optional("once"),
            Flag("harts"),
            Flag("safety"),
        ],
    ),
    ("steps", &[BUFFER]),
    ("asm", &[]),
    ("dis", &[]),
];
