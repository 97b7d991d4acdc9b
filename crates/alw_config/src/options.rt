ghost use Rattle.std.specs.Prelude.{◌≡◌, ◌<◌, ◌≤◌, length, map, string_bytes, IsTrue, MatchResult, Some, option_and_then};
ghost use Rattle.alw_config.specs.declared.commands.TimedForm.TheVariants as timed;
ghost use Rattle.alw_config.specs.declared.rows.Name.TheVariants as names;
ghost use Rattle.alw_config.specs.declared.rows.Value.TheVariants as values;
ghost use Rattle.alw_config.specs.Table.{options_of, defaults_of, rule_of, number_in, asked_of};
ghost use Rattle.alw_config.specs.Places.{IsRefusedBehind};
ghost use Rattle.alw_config.specs.Choices.{HavePlaces, ChoicesAreMade, ValuesAreAllowed, AskedIsWithin, allowed_of, open_now, taken_now, is_allowed, value_by, values_by, misfit_by, IsNumber, IsHow, IsAsmForm, IsAuditForm, IsTimeForm, IsForm, IsRunForm, IsTimedForm};

use crate::commands::{
    Asked, AsmForm, AuditForm, Command, Form, TimeForm, TimedForm, WordErr, Work,
};
use crate::lookups::row_of;
use crate::rows::{
    ASM_DEFAULTS, ASM_OPTIONS, AUDIT_DEFAULTS, AUDIT_OPTIONS, GEN_DEFAULTS, GEN_OPTIONS, GEN_RULE,
    How, MOST_CHOICES, Made, Meaning, NO_DEFAULTS, NO_OPTIONS, Name, OUTCOMES_DEFAULTS,
    OUTCOMES_OPTIONS, REPLAY_DEFAULTS, REPLAY_OPTIONS, RESUME_DEFAULTS, RESUME_OPTIONS,
    ROUTE_DEFAULTS, ROUTE_OPTIONS, RUN_DEFAULTS, RUN_OPTIONS, Row, Rule, SAVE_DEFAULTS,
    SAVE_OPTIONS, SCHEDULE_DEFAULTS, SCHEDULE_OPTIONS, TIME_DEFAULTS, TIME_OPTIONS, TIMED_DEFAULTS,
    TIMED_OPTIONS, UNDECIDED_OPTIONS, Value,
};
use alw_image::Params;
use alw_times::Costs;

// What each choice of a command is made by.
pub(crate) type Chosen = [Option<Made>; MOST_CHOICES];

// The choices that the words behind a command's name make, or the first refused place.
pub(crate) fn chosen(name: Name, words: &[String]) -> Result<Chosen, WordErr>
    ensures { MatchResult result (ChoicesAreMade name (map string_bytes words.now))
        (λ e. IsRefusedBehind name (map string_bytes words.now) e.at) }
{
    let mut chosen = [None; MOST_CHOICES];
    let mut rest = words;
    let mut at = 1;
    'pairs: while let Some((option, behind)) = rest.split_first() {
        let Some(meaning) = row_of(name.open_options(&chosen), option.as_str().as_bytes()) else {
            return Err(WordErr { at });
        };
        if chosen[meaning.choice].is_some() {
            return Err(WordErr { at });
        }
        let value_at = at + 1;
        let Some((word, behind)) = behind.split_first() else {
            return Err(WordErr { at: value_at });
        };
        let Some(value) = meaning.kind.value(word.as_str().as_bytes()) else {
            return Err(WordErr { at: value_at });
        };
        chosen[meaning.choice] = Some(Made {
            value,
            at: value_at,
        });
        rest = behind;
        at += 2;
    }
    Ok(chosen)
}

// What makes a choice: an option's value, or else the default.
fn value_of(chosen: &Chosen, defaults: &[Value], choice: usize) -> Value
    requires choice { choice < length defaults.now }
    requires few { length defaults.now ≤ 17 }
    ensures { result ≡ value_by chosen.now defaults.now choice }
{
    match chosen[choice] {
        Some(made) => made.value,
        None => defaults[choice],
    }
}

// The options of `run` that stand open: those of a timed run where one is asked for (by choice 6), and no way to ask
// for one where events are drawn (by choice 0 or 4).
fn run_options(chosen: &Chosen) -> &'static [Row<Meaning>]
    ensures options { map (λ row. (row.0.now, row.1)) result.now ≡ open_now names.Run chosen.now }
    ensures places { HavePlaces (open_now names.Run chosen.now) }
{
    if chosen[6].is_some() {
        &TIMED_OPTIONS
    } else if chosen[0].is_some() || chosen[4].is_some() {
        &RUN_OPTIONS
    } else {
        &UNDECIDED_OPTIONS
    }
}

// The run with these choices, by a seed or by workers, and with the default of each that isn't made.
fn drawn_run(chosen: &Chosen) -> Asked
    requires allowed { ValuesAreAllowed (allowed_of names.Run) chosen.now }
    ensures asked { asked_of names.Run (values_by 0 chosen.now (defaults_of names.Run)) ≡ Some result }
    ensures within { AskedIsWithin result }
{
    let name = Name::Run;
    let params = Params::of(
        name.value(chosen, 1).number() as u16,
        name.value(chosen, 2).number() as u32,
        name.value(chosen, 3).number() as u32,
        name.value(chosen, 4).number() as u8,
    );
    let write = name.value(chosen, 5).run_form();
    match name.value(chosen, 0).how() {
        How::Seed(seed) => Asked::Alone(Command::Run {
            seed,
            params,
            write,
        }),
        How::Workers(workers) => Asked::Workers(Work {
            workers,
            params,
            write,
        }),
    }
}

// The timed run with these choices, and with the default of each that isn't made.
fn timed_run(chosen: &Chosen) -> Asked
    requires allowed { ValuesAreAllowed (allowed_of names.Timed) chosen.now }
    ensures asked { asked_of names.Timed (values_by 0 chosen.now (defaults_of names.Timed)) ≡ Some result }
    ensures within { AskedIsWithin result }
{
    let name = Name::Timed;
    Asked::Alone(Command::RunByTime {
        costs: Costs {
            hit: name.value(chosen, 7).number() as u16,
            switch: name.value(chosen, 8).number() as u16,
            hop: name.value(chosen, 9).number() as u16,
            send: name.value(chosen, 10).number() as u16,
            data: name.value(chosen, 11).number() as u16,
            home: name.value(chosen, 12).number() as u16,
            fill: name.value(chosen, 13).number() as u16,
            trap: name.value(chosen, 14).number() as u16,
            inv: name.value(chosen, 15).number() as u16,
            retry: name.value(chosen, 16).number() as u16,
            seed: name.value(chosen, 6).number(),
        },
        params: Params::of(
            name.value(chosen, 1).number() as u16,
            name.value(chosen, 2).number() as u32,
            name.value(chosen, 3).number() as u32,
            0,
        ),
        write: name.value(chosen, 5).timed_form(),
    })
}

impl Rule {
    // The place of the third number, where the rule doesn't allow it. One that isn't given has none.
    pub(crate) fn misfit(self, chosen: &Chosen, defaults: &[Value]) -> Option<u32>
        requires one { self.one < length defaults.now }
        requires other { self.other < length defaults.now }
        requires third { self.third < length defaults.now }
        requires few { length defaults.now ≤ 17 }
        ensures { result ≡ misfit_by self chosen.now defaults.now }
    {
        let one = value_of(chosen, defaults, self.one).number_or_zero();
        let other = value_of(chosen, defaults, self.other).number_or_zero();
        let third = value_of(chosen, defaults, self.third).number_or_zero();
        if (one > self.above || other > self.above) && third > self.most {
            Some(chosen[self.third]?.at)
        } else {
            None
        }
    }
}

impl Name {
    // The command's options that stand open behind those that made these choices.
    fn open_options(self, chosen: &Chosen) -> &'static [Row<Meaning>]
        ensures options { map (λ row. (row.0.now, row.1)) result.now ≡ open_now self chosen.now }
        ensures places { HavePlaces (open_now self chosen.now) }
    {
        match self {
            Name::Asm => &ASM_OPTIONS,
            Name::Run => run_options(chosen),
            Name::Timed => &TIMED_OPTIONS,
            Name::Replay => &REPLAY_OPTIONS,
            Name::Audit => &AUDIT_OPTIONS,
            Name::Gen => &GEN_OPTIONS,
            Name::Route => &ROUTE_OPTIONS,
            Name::Save => &SAVE_OPTIONS,
            Name::Resume => &RESUME_OPTIONS,
            Name::Outcomes => &OUTCOMES_OPTIONS,
            Name::Dis => &NO_OPTIONS,
            Name::Schedule => &SCHEDULE_OPTIONS,
            Name::Time => &TIME_OPTIONS,
        }
    }

    // The command that these choices make of it: a run is a timed one by choice 6.
    pub(crate) fn taken(self, chosen: &Chosen) -> Name
        ensures { result ≡ taken_now self chosen.now }
    {
        match self {
            Name::Run => {
                if chosen[6].is_some() {
                    Name::Timed
                } else {
                    Name::Run
                }
            }
            _ => self,
        }
    }

    // The command's choices where no option makes them.
    pub(crate) fn defaults(self) -> &'static [Value]
        ensures defaults { result.now ≡ defaults_of self }
        ensures few { length result.now ≤ 17 }
    {
        match self {
            Name::Asm => &ASM_DEFAULTS,
            Name::Run => &RUN_DEFAULTS,
            Name::Timed => &TIMED_DEFAULTS,
            Name::Replay => &REPLAY_DEFAULTS,
            Name::Audit => &AUDIT_DEFAULTS,
            Name::Gen => &GEN_DEFAULTS,
            Name::Route => &ROUTE_DEFAULTS,
            Name::Save => &SAVE_DEFAULTS,
            Name::Resume => &RESUME_DEFAULTS,
            Name::Outcomes => &OUTCOMES_DEFAULTS,
            Name::Dis => &NO_DEFAULTS,
            Name::Schedule => &SCHEDULE_DEFAULTS,
            Name::Time => &TIME_DEFAULTS,
        }
    }

    // The rule over the command's numbers, where it has one.
    pub(crate) fn rule(self) -> Option<Rule>
        ensures { result ≡ rule_of self }
    {
        match self {
            Name::Gen => Some(GEN_RULE),
            _ => None,
        }
    }

    // The place of a value that the others don't allow.
    pub(crate) fn misfit(self, chosen: &Chosen) -> Option<u32>
        ensures { result ≡ option_and_then (λ rule. misfit_by rule chosen.now (defaults_of self)) (rule_of self) }
    {
        self.rule()?.misfit(chosen, self.defaults())
    }

    // What makes a choice of the command: an option's value, or else the default.
    fn value(self, chosen: &Chosen, choice: usize) -> Value
        requires allowed { ValuesAreAllowed (allowed_of self) chosen.now }
        requires choice { choice < length (defaults_of self) }
        ensures value { result ≡ value_by chosen.now (defaults_of self) choice }
        ensures allowed { IsTrue (is_allowed (allowed_of self) choice result) }
    {
        value_of(chosen, self.defaults(), choice)
    }

    // What is asked for with these choices, and with the default of each that isn't made.
    pub(crate) fn asked(self, chosen: &Chosen) -> Asked
        requires allowed { ValuesAreAllowed (allowed_of self) chosen.now }
        requires fits { option_and_then (λ rule. misfit_by rule chosen.now (defaults_of self)) (rule_of self) ≡ None }
        ensures asked { asked_of self (values_by 0 chosen.now (defaults_of self)) ≡ Some result }
        ensures within { AskedIsWithin result }
    {
        match self {
            Name::Asm => Asked::Alone(Command::Asm {
                write: self.value(chosen, 0).asm_form(),
            }),
            Name::Run => drawn_run(chosen),
            Name::Timed => timed_run(chosen),
            Name::Replay => Asked::Alone(Command::Replay {
                write: self.value(chosen, 0).form(),
            }),
            Name::Audit => Asked::Alone(Command::Audit {
                write: self.value(chosen, 0).audit_form(),
            }),
            Name::Dis => Asked::Alone(Command::Dis),
            Name::Gen => Asked::Alone(Command::Gen {
                seed: self.value(chosen, 0).number(),
                width: self.value(chosen, 1).number() as u8,
                height: self.value(chosen, 2).number() as u8,
                size: self.value(chosen, 3).number() as u32,
            }),
            Name::Route => Asked::Alone(Command::Route {
                seed: self.value(chosen, 0).number(),
            }),
            Name::Save => Asked::Alone(Command::Save {
                at: self.value(chosen, 0).number() as u32,
            }),
            Name::Resume => Asked::Alone(Command::Resume {
                seed: self.value(chosen, 0).number(),
                evict: self.value(chosen, 1).number() as u8,
                write: self.value(chosen, 2).form(),
            }),
            Name::Outcomes => Asked::Alone(Command::Outcomes {
                most: self.value(chosen, 0).number() as u32,
            }),
            Name::Schedule => Asked::Alone(Command::Schedule {
                params: Params::of(
                    self.value(chosen, 0).number() as u16,
                    self.value(chosen, 1).number() as u32,
                    self.value(chosen, 2).number() as u32,
                    0,
                ),
            }),
            Name::Time => Asked::Alone(Command::Time {
                costs: Costs {
                    hit: self.value(chosen, 1).number() as u16,
                    switch: self.value(chosen, 2).number() as u16,
                    hop: self.value(chosen, 3).number() as u16,
                    send: self.value(chosen, 4).number() as u16,
                    data: self.value(chosen, 5).number() as u16,
                    home: self.value(chosen, 6).number() as u16,
                    fill: self.value(chosen, 7).number() as u16,
                    trap: self.value(chosen, 8).number() as u16,
                    inv: self.value(chosen, 9).number() as u16,
                    retry: self.value(chosen, 10).number() as u16,
                    seed: self.value(chosen, 0).number(),
                },
                write: self.value(chosen, 11).time_form(),
            }),
        }
    }
}

impl Value {
    // The number that it is, and 0 where it is none.
    fn number_or_zero(self) -> u64
        ensures { result ≡ number_in self }
    {
        match self {
            Value::Number(number) => number,
            _ => 0,
        }
    }

    // The number that it is.
    fn number(self) -> u64
        requires { IsNumber self }
        ensures { self ≡ values.Number result }
    {
        match self {
            Value::Number(number) => number,
            _ => unreachable!(),
        }
    }

    // The order of a run's events that it is.
    fn how(self) -> How
        requires { IsHow self }
        ensures { self ≡ values.How result }
    {
        match self {
            Value::How(how) => how,
            _ => unreachable!(),
        }
    }

    // The form of an assembled source that it is.
    fn asm_form(self) -> AsmForm
        requires { IsAsmForm self }
        ensures { self ≡ values.AsmForm result }
    {
        match self {
            Value::AsmForm(form) => form,
            _ => unreachable!(),
        }
    }

    // The form of an audit that it is.
    fn audit_form(self) -> AuditForm
        requires { IsAuditForm self }
        ensures { self ≡ values.AuditForm result }
    {
        match self {
            Value::AuditForm(form) => form,
            _ => unreachable!(),
        }
    }

    // The form of a run's times that it is.
    fn time_form(self) -> TimeForm
        requires { IsTimeForm self }
        ensures { self ≡ values.TimeForm result }
    {
        match self {
            Value::TimeForm(form) => form,
            _ => unreachable!(),
        }
    }

    // The form of a run that it is.
    fn form(self) -> Form
        requires { IsForm self }
        ensures { self ≡ values.Form result }
    {
        match self {
            Value::Form(form) => form,
            _ => unreachable!(),
        }
    }

    // The form of a run that isn't timed, where it may have been.
    fn run_form(self) -> Form
        requires { IsRunForm self }
        ensures { self ≡ values.TimedForm (timed.Run result) }
    {
        match self {
            Value::TimedForm(TimedForm::Run(form)) => form,
            _ => unreachable!(),
        }
    }

    // The form of a timed run that it is.
    fn timed_form(self) -> TimedForm
        requires { IsTimedForm self }
        ensures { self ≡ values.TimedForm result }
    {
        match self {
            Value::TimedForm(form) => form,
            _ => unreachable!(),
        }
    }
}
