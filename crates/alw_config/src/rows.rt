//! The tables of command words: each row is a name, and what it stands for. The definitions have them as literals.

use crate::commands::{AsmForm, AuditForm, Form, TimeForm, TimedForm};
use alw_image::MOST_LIMIT;

// A row of a table: a name, and what it stands for.
pub(crate) type Row<T> = (&'static [u8], T);

// The commands. No word names a timed run: it is a run that an option makes so.
#[derive(Clone, Copy)]
pub(crate) enum Name {
    Asm,
    Run,
    Timed,
    Replay,
    Audit,
    Gen,
    Route,
    Save,
    Resume,
    Outcomes,
    Schedule,
    Time,
    Dis,
}

// What an option stands for. A command leaves choices, numbered from 0: an option makes one of them, by a
// value of its kind. Of the options that make the same choice one alone is given.
#[derive(Clone, Copy)]
pub(crate) struct Meaning {
    pub(crate) choice: usize,
    pub(crate) kind: Kind,
}

// Which words an option takes as its value.
#[derive(Clone, Copy)]
pub(crate) enum Kind {
    // A number of 64 bits in decimal, from which a schedule is drawn.
    Seed,
    // A number of workers, 1 to 256, in decimal.
    Workers,
    // The numbers from one to another, both included, in decimal.
    Between(u64, u64),
    // The numbers of sets that a cache can have, in decimal.
    SetCount,
    // A few hardware pointers, in decimal, or the word for as many as there are nodes.
    Pointers,
    // The names of `ASM_FORMS`.
    AsmForm,
    // The names of `AUDIT_FORMS`.
    AuditForm,
    // The names of `TIME_FORMS`.
    TimeForm,
    // The names of `FORMS`.
    Form,
    // The same, for a run that may be a timed one.
    RunForm,
    // The names of `TIMED_FORMS`.
    TimedForm,
}

// What the order of a run's events is chosen by.
#[derive(Clone, Copy)]
pub(crate) enum How {
    // One schedule, drawn from this number.
    Seed(u64),
    // So many workers, on threads.
    Workers(u32),
}

// What a choice is made by.
#[derive(Clone, Copy)]
pub(crate) enum Value {
    Number(u64),
    How(How),
    AsmForm(AsmForm),
    AuditForm(AuditForm),
    TimeForm(TimeForm),
    Form(Form),
    TimedForm(TimedForm),
}

// What makes a choice, and the place of its word, from 0 for the command's name.
#[derive(Clone, Copy)]
pub(crate) struct Made {
    pub(crate) value: Value,
    pub(crate) at: u32,
}

// A rule over the numbers that three choices are made by: where one of two is above a bound, the third is
// at most so much.
#[derive(Clone, Copy)]
pub(crate) struct Rule {
    pub(crate) one: usize,
    pub(crate) other: usize,
    pub(crate) above: u64,
    pub(crate) third: usize,
    pub(crate) most: u64,
}

// The most choices that a command leaves.
pub(crate) const MOST_CHOICES: usize = 17;

// The parameters of a machine where no option gives them.
const DEFAULT_POINTERS: u64 = 4;

const DEFAULT_SETS: u64 = 256;

const DEFAULT_LIMIT: u64 = 32_768;

// The limit of a timed run where no option gives it.
const DEFAULT_TIMED_LIMIT: u64 = 262_144;

// The most that a thing may cost, in cycles.
const MOST_COST: u64 = 65_535;

// The commands, by their names.
pub(crate) const COMMANDS: [Row<Name>; 12] = [
    (b"asm", Name::Asm),
    (b"run", Name::Run),
    (b"replay", Name::Replay),
    (b"audit", Name::Audit),
    (b"gen", Name::Gen),
    (b"route", Name::Route),
    (b"save", Name::Save),
    (b"resume", Name::Resume),
    (b"outcomes", Name::Outcomes),
    (b"schedule", Name::Schedule),
    (b"time", Name::Time),
    (b"dis", Name::Dis),
];

// What an assembled source is written as.
pub(crate) const ASM_FORMS: [Row<AsmForm>; 2] = [
    (b"image", AsmForm::Image),
    (b"listing", AsmForm::Listing),
];

// What an audit is written as.
pub(crate) const AUDIT_FORMS: [Row<AuditForm>; 2] = [
    (b"verdict", AuditForm::Verdict),
    (b"log", AuditForm::Log),
];

// What the times of a run are written as.
pub(crate) const TIME_FORMS: [Row<TimeForm>; 2] = [
    (b"cycles", TimeForm::Cycles),
    (b"moments", TimeForm::Moments),
];

// What a run is written as.
pub(crate) const FORMS: [Row<Form>; 7] = [
    (b"report", Form::Report),
    (b"json", Form::Json),
    (b"trace", Form::Trace),
    (b"claim", Form::Claim),
    (b"summary", Form::Summary),
    (b"log", Form::Log),
    (b"profile", Form::Profile),
];

// What a timed run is written as: as any run is, or its times.
pub(crate) const TIMED_FORMS: [Row<TimedForm>; 9] = [
    (b"report", TimedForm::Run(Form::Report)),
    (b"json", TimedForm::Run(Form::Json)),
    (b"trace", TimedForm::Run(Form::Trace)),
    (b"claim", TimedForm::Run(Form::Claim)),
    (b"summary", TimedForm::Run(Form::Summary)),
    (b"log", TimedForm::Run(Form::Log)),
    (b"profile", TimedForm::Run(Form::Profile)),
    (b"cycles", TimedForm::Time(TimeForm::Cycles)),
    (b"moments", TimedForm::Time(TimeForm::Moments)),
];

// The options of `asm`.
pub(crate) const ASM_OPTIONS: [Row<Meaning>; 1] = [(
    b"--write",
    Meaning {
        choice: 0,
        kind: Kind::AsmForm,
    },
)];

// What `asm` chooses where no option does.
pub(crate) const ASM_DEFAULTS: [Value; 1] = [Value::AsmForm(AsmForm::Image)];

// The options of `run`: what its events are drawn by, the parameters of its machine, and what is written.
const SEED: Row<Meaning> = (
    b"--seed",
    Meaning {
        choice: 0,
        kind: Kind::Seed,
    },
);

const WORKERS: Row<Meaning> = (
    b"--workers",
    Meaning {
        choice: 0,
        kind: Kind::Workers,
    },
);

const EVICT: Row<Meaning> = (
    b"--evict",
    Meaning {
        choice: 4,
        kind: Kind::Between(0, 255),
    },
);

const POINTERS: Row<Meaning> = (
    b"--pointers",
    Meaning {
        choice: 1,
        kind: Kind::Pointers,
    },
);

const SETS: Row<Meaning> = (
    b"--sets",
    Meaning {
        choice: 2,
        kind: Kind::SetCount,
    },
);

const LIMIT: Row<Meaning> = (
    b"--limit",
    Meaning {
        choice: 3,
        kind: Kind::Between(1, MOST_LIMIT as u64),
    },
);

const WRITE: Row<Meaning> = (
    b"--write",
    Meaning {
        choice: 5,
        kind: Kind::RunForm,
    },
);

// Those of a timed run: the seed of its costs, what is written, and what each thing costs, in cycles.
const CYCLES: Row<Meaning> = (
    b"--cycles",
    Meaning {
        choice: 6,
        kind: Kind::Between(0, u64::MAX),
    },
);

const WRITE_TIMED: Row<Meaning> = (
    b"--write",
    Meaning {
        choice: 5,
        kind: Kind::TimedForm,
    },
);

const HIT: Row<Meaning> = (
    b"--hit",
    Meaning {
        choice: 7,
        kind: Kind::Between(1, MOST_COST),
    },
);

const SWITCH: Row<Meaning> = (
    b"--switch",
    Meaning {
        choice: 8,
        kind: Kind::Between(0, MOST_COST),
    },
);

const HOP: Row<Meaning> = (
    b"--hop",
    Meaning {
        choice: 9,
        kind: Kind::Between(0, MOST_COST),
    },
);

const SEND: Row<Meaning> = (
    b"--send",
    Meaning {
        choice: 10,
        kind: Kind::Between(0, MOST_COST),
    },
);

const DATA: Row<Meaning> = (
    b"--data",
    Meaning {
        choice: 11,
        kind: Kind::Between(0, MOST_COST),
    },
);

const HOME: Row<Meaning> = (
    b"--home",
    Meaning {
        choice: 12,
        kind: Kind::Between(1, MOST_COST),
    },
);

const FILL: Row<Meaning> = (
    b"--fill",
    Meaning {
        choice: 13,
        kind: Kind::Between(1, MOST_COST),
    },
);

const TRAP: Row<Meaning> = (
    b"--trap",
    Meaning {
        choice: 14,
        kind: Kind::Between(1, MOST_COST),
    },
);

const INV: Row<Meaning> = (
    b"--inv",
    Meaning {
        choice: 15,
        kind: Kind::Between(0, MOST_COST),
    },
);

const RETRY: Row<Meaning> = (
    b"--retry",
    Meaning {
        choice: 16,
        kind: Kind::Between(0, MOST_COST),
    },
);

// What stands open behind `run` where an option has said that events are drawn.
pub(crate) const RUN_OPTIONS: [Row<Meaning>; 7] = [
    SEED, WORKERS, EVICT, POINTERS, SETS, LIMIT, WRITE,
];

// Where no option has said yet whether they are.
pub(crate) const UNDECIDED_OPTIONS: [Row<Meaning>; 8] = [
    CYCLES, SEED, WORKERS, EVICT, POINTERS, SETS, LIMIT, WRITE,
];

// Where one has said that the run is timed.
pub(crate) const TIMED_OPTIONS: [Row<Meaning>; 15] = [
    CYCLES,
    WRITE_TIMED,
    POINTERS,
    SETS,
    LIMIT,
    HIT,
    SWITCH,
    HOP,
    SEND,
    DATA,
    HOME,
    FILL,
    TRAP,
    INV,
    RETRY,
];

// What `run` chooses where no option does.
pub(crate) const RUN_DEFAULTS: [Value; 6] = [
    Value::How(How::Seed(0)),
    Value::Number(DEFAULT_POINTERS),
    Value::Number(DEFAULT_SETS),
    Value::Number(DEFAULT_LIMIT),
    Value::Number(0),
    Value::TimedForm(TimedForm::Run(Form::Report)),
];

// What a timed run chooses where no option does.
pub(crate) const TIMED_DEFAULTS: [Value; 17] = [
    Value::How(How::Seed(0)),
    Value::Number(DEFAULT_POINTERS),
    Value::Number(DEFAULT_SETS),
    Value::Number(DEFAULT_TIMED_LIMIT),
    Value::Number(0),
    Value::TimedForm(TimedForm::Run(Form::Report)),
    Value::Number(0),
    Value::Number(1),
    Value::Number(11),
    Value::Number(1),
    Value::Number(6),
    Value::Number(4),
    Value::Number(7),
    Value::Number(3),
    Value::Number(50),
    Value::Number(2),
    Value::Number(16),
];

// The options of `replay`.
pub(crate) const REPLAY_OPTIONS: [Row<Meaning>; 1] = [(
    b"--write",
    Meaning {
        choice: 0,
        kind: Kind::Form,
    },
)];

// What `replay` chooses where no option does.
pub(crate) const REPLAY_DEFAULTS: [Value; 1] = [Value::Form(Form::Report)];

// The options of `audit`, and what it chooses where no option does.
pub(crate) const AUDIT_OPTIONS: [Row<Meaning>; 1] = [(
    b"--write",
    Meaning {
        choice: 0,
        kind: Kind::AuditForm,
    },
)];

pub(crate) const AUDIT_DEFAULTS: [Value; 1] = [Value::AuditForm(AuditForm::Verdict)];

// The options of `dis`, and what it chooses: there are none.
pub(crate) const NO_OPTIONS: [Row<Meaning>; 0] = [];

pub(crate) const NO_DEFAULTS: [Value; 0] = [];

// The options of `gen`.
pub(crate) const GEN_OPTIONS: [Row<Meaning>; 4] = [
    (
        b"--seed",
        Meaning {
            choice: 0,
            kind: Kind::Between(0, u64::MAX),
        },
    ),
    (
        b"--width",
        Meaning {
            choice: 1,
            kind: Kind::Between(1, 16),
        },
    ),
    (
        b"--height",
        Meaning {
            choice: 2,
            kind: Kind::Between(1, 16),
        },
    ),
    (
        b"--size",
        Meaning {
            choice: 3,
            kind: Kind::Between(1, 255),
        },
    ),
];

// What `gen` chooses where no option does.
pub(crate) const GEN_DEFAULTS: [Value; 4] = [
    Value::Number(0),
    Value::Number(4),
    Value::Number(4),
    Value::Number(16),
];

// Where the mesh of `gen` has more than 8 columns or rows, so that the code has no more words than it may.
pub(crate) const GEN_RULE: Rule = Rule {
    one: 1,
    other: 2,
    above: 8,
    third: 3,
    most: 63,
};

// The options of `route`, and what it chooses where no option does.
pub(crate) const ROUTE_OPTIONS: [Row<Meaning>; 1] = [(
    b"--seed",
    Meaning {
        choice: 0,
        kind: Kind::Between(0, u64::MAX),
    },
)];

pub(crate) const ROUTE_DEFAULTS: [Value; 1] = [Value::Number(0)];

// The options of `save`, and what it chooses where no option does.
pub(crate) const SAVE_OPTIONS: [Row<Meaning>; 1] = [(
    b"--at",
    Meaning {
        choice: 0,
        kind: Kind::Between(0, u32::MAX as u64),
    },
)];

pub(crate) const SAVE_DEFAULTS: [Value; 1] = [Value::Number(u32::MAX as u64)];

// The options of `resume`.
pub(crate) const RESUME_OPTIONS: [Row<Meaning>; 3] = [
    (
        b"--seed",
        Meaning {
            choice: 0,
            kind: Kind::Between(0, u64::MAX),
        },
    ),
    (
        b"--evict",
        Meaning {
            choice: 1,
            kind: Kind::Between(0, 255),
        },
    ),
    (
        b"--write",
        Meaning {
            choice: 2,
            kind: Kind::Form,
        },
    ),
];

// What `resume` chooses where no option does.
pub(crate) const RESUME_DEFAULTS: [Value; 3] = [
    Value::Number(0),
    Value::Number(0),
    Value::Form(Form::Report),
];

// The options of `outcomes`, and what it chooses where no option does.
pub(crate) const OUTCOMES_OPTIONS: [Row<Meaning>; 1] = [(
    b"--most",
    Meaning {
        choice: 0,
        kind: Kind::Between(1, 16_777_216),
    },
)];

pub(crate) const OUTCOMES_DEFAULTS: [Value; 1] = [Value::Number(1_000_000)];

// The options of `schedule`.
pub(crate) const SCHEDULE_OPTIONS: [Row<Meaning>; 3] = [
    (
        b"--pointers",
        Meaning {
            choice: 0,
            kind: Kind::Pointers,
        },
    ),
    (
        b"--sets",
        Meaning {
            choice: 1,
            kind: Kind::SetCount,
        },
    ),
    (
        b"--limit",
        Meaning {
            choice: 2,
            kind: Kind::Between(1, MOST_LIMIT as u64),
        },
    ),
];

// What `schedule` chooses where no option does.
pub(crate) const SCHEDULE_DEFAULTS: [Value; 3] = [
    Value::Number(DEFAULT_POINTERS),
    Value::Number(DEFAULT_SETS),
    Value::Number(DEFAULT_LIMIT),
];

// The options of `time`: what each thing costs, in cycles.
pub(crate) const TIME_OPTIONS: [Row<Meaning>; 12] = [
    (
        b"--seed",
        Meaning {
            choice: 0,
            kind: Kind::Between(0, u64::MAX),
        },
    ),
    (
        b"--hit",
        Meaning {
            choice: 1,
            kind: Kind::Between(1, MOST_COST),
        },
    ),
    (
        b"--switch",
        Meaning {
            choice: 2,
            kind: Kind::Between(0, MOST_COST),
        },
    ),
    (
        b"--hop",
        Meaning {
            choice: 3,
            kind: Kind::Between(0, MOST_COST),
        },
    ),
    (
        b"--send",
        Meaning {
            choice: 4,
            kind: Kind::Between(0, MOST_COST),
        },
    ),
    (
        b"--data",
        Meaning {
            choice: 5,
            kind: Kind::Between(0, MOST_COST),
        },
    ),
    (
        b"--home",
        Meaning {
            choice: 6,
            kind: Kind::Between(1, MOST_COST),
        },
    ),
    (
        b"--fill",
        Meaning {
            choice: 7,
            kind: Kind::Between(1, MOST_COST),
        },
    ),
    (
        b"--trap",
        Meaning {
            choice: 8,
            kind: Kind::Between(1, MOST_COST),
        },
    ),
    (
        b"--inv",
        Meaning {
            choice: 9,
            kind: Kind::Between(0, MOST_COST),
        },
    ),
    (
        b"--retry",
        Meaning {
            choice: 10,
            kind: Kind::Between(0, MOST_COST),
        },
    ),
    (
        b"--write",
        Meaning {
            choice: 11,
            kind: Kind::TimeForm,
        },
    ),
];

// What `time` chooses where no option does.
pub(crate) const TIME_DEFAULTS: [Value; 12] = [
    Value::Number(0),
    Value::Number(1),
    Value::Number(11),
    Value::Number(1),
    Value::Number(6),
    Value::Number(4),
    Value::Number(7),
    Value::Number(3),
    Value::Number(50),
    Value::Number(2),
    Value::Number(16),
    Value::TimeForm(TimeForm::Cycles),
];
