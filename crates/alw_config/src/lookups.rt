ghost use Rattle.std.specs.Prelude.{◌≡◌, ◌≤◌, map, nat_le, ◌==◌, ◌&&◌, option_map};
ghost use Rattle.std.specs.List.{list_any};
ghost use Rattle.alw_image.specs.Parameters.{set_counts};
ghost use Rattle.alw_config.specs.declared.rows.Value.TheVariants as values;
ghost use Rattle.alw_config.specs.declared.rows.How.TheVariants as hows;
ghost use Rattle.alw_config.specs.declared.commands.TimedForm.TheVariants as timed;
ghost use Rattle.alw_config.specs.Values.{row_of, number_if, pointers_of, value_of, asm_forms, audit_forms, time_forms, forms, timed_forms};

use crate::commands::TimedForm;
use crate::rows::{ASM_FORMS, AUDIT_FORMS, FORMS, How, Kind, Row, TIME_FORMS, TIMED_FORMS, Value};
use alw_image::{FEW_POINTERS, MOST_POINTERS, SET_COUNTS};
use alw_num::MOST_NODES;
use alw_text::decimal;

// What a name stands for in a table. None exactly where no row has it.
pub(crate) fn row_of<T: Copy>(rows: &[Row<T>], name: &[u8]) -> Option<T>
    ensures { result ≡ row_of (map (λ row. (row.0.now, row.1)) rows.now) name.now }
{
    for (spelling, meaning) in rows {
        if *spelling == name {
            return Some(*meaning);
        }
    }
    None
}

impl Kind {
    // What a word stands for as a value of this kind. None exactly where it is none.
    pub(crate) fn value(self, word: &[u8]) -> Option<Value>
        ensures { result ≡ value_of self word.now }
    {
        match self {
            Kind::Seed => Some(Value::How(How::Seed(number_between(word, 0, u64::MAX)?))),
            Kind::Workers => Some(Value::How(How::Workers(
                number_between(word, 1, u64::from(MOST_NODES))? as u32,
            ))),
            Kind::Between(least, most) => Some(Value::Number(number_between(word, least, most)?)),
            Kind::SetCount => Some(Value::Number(set_count(word)?)),
            Kind::Pointers => Some(Value::Number(pointers(word)?)),
            Kind::AsmForm => Some(Value::AsmForm(row_of(&ASM_FORMS, word)?)),
            Kind::AuditForm => Some(Value::AuditForm(row_of(&AUDIT_FORMS, word)?)),
            Kind::TimeForm => Some(Value::TimeForm(row_of(&TIME_FORMS, word)?)),
            Kind::Form => Some(Value::Form(row_of(&FORMS, word)?)),
            Kind::RunForm => Some(Value::TimedForm(TimedForm::Run(row_of(&FORMS, word)?))),
            Kind::TimedForm => Some(Value::TimedForm(row_of(&TIMED_FORMS, word)?)),
        }
    }
}

// The number of a range that a word spells.
fn number_between(word: &[u8], least: u64, most: u64) -> Option<u64>
    ensures { result ≡ number_if (λ n. nat_le least n && nat_le n most) word.now }
{
    let number = decimal(word)?;
    if least <= number && number <= most {
        Some(number)
    } else {
        None
    }
}

// The number of sets that a word spells.
fn set_count(word: &[u8]) -> Option<u64>
    ensures { result ≡ number_if (λ n. list_any (λ count. n == count) set_counts) word.now }
{
    let number = number_between(word, 4, 4096)?;
    if SET_COUNTS.contains(&(number as u32)) {
        Some(number)
    } else {
        None
    }
}

// How many pointers a word stands for: a few, or as many as there can be.
fn pointers(word: &[u8]) -> Option<u64>
    ensures { result ≡ pointers_of word.now }
{
    if word == b"all".as_slice() {
        Some(u64::from(MOST_POINTERS))
    } else {
        number_between(word, 1, u64::from(FEW_POINTERS))
    }
}
