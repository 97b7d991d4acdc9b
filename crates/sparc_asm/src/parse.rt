ghost use Rattle.std.specs.Prelude.{◌≡◌, ◌<◌, ◌-◌, ◌^◌, [], length, Some, None, IfOk};
ghost use Rattle.std.specs.Option.{option_map};
ghost use Rattle.sparc_asm.specs.Statements.{nothing, arith_of, shift_of, load_of, store_of, branch_of, read_y_of, write_y_of, jmpl_of, sethi_of, sethi_to, compare_of, move_of, test_of, clear_of, set_of, mesh_of, equ_of, start_of, statement_of, TakesOne, perhaps_statement, named, line_with, spelled_line, trap_address, values_of};
ghost use Rattle.sparc_asm.specs.Expressions.{address_of};

use crate::expressions::{
    address_of, expression_of, in_brackets, in_parens, operand_of, register_of,
};
use crate::lexemes::Lexeme;
use crate::mnemonics::{Form, directive_of, form_of};
use crate::names::Name;
use crate::operands::{
    annulled, at_comma, constant, is_y, three_operands, trap_address, values_of,
};
use crate::statements::{Address, Line, Source, Statement};
use alw_num::{NoMemory, Width};
use std::alloc::Global;

// The fields op3 of the synthetic forms.
const OR: u8 = 0x02;

const ORCC: u8 = 0x12;

const SUBCC: u8 = 0x14;

// What the parser makes of operands: None where they don't fit.
type Parsed<'a> = Result<Option<Statement<'a>>, NoMemory>;

fn arith_of<'a>(alloc: Global, op3: u8, lexemes: &[Lexeme<'a>]) -> Parsed<'a>
    requires { length lexemes.now < 2 ^ 32 - 1 }
    ensures { IfOk result (λ statement. statement ≡ arith_of op3 lexemes.now) }
{
    match three_operands(alloc, lexemes)? {
        Some((rs1, operand, rd)) => Ok(Some(Statement::Arith {
            op3,
            rs1,
            operand,
            rd,
        })),
        None => Ok(None),
    }
}

fn shift_of<'a>(alloc: Global, op3: u8, lexemes: &[Lexeme<'a>]) -> Parsed<'a>
    requires { length lexemes.now < 2 ^ 32 - 1 }
    ensures { IfOk result (λ statement. statement ≡ shift_of op3 lexemes.now) }
{
    match three_operands(alloc, lexemes)? {
        Some((rs1, operand, rd)) => Ok(Some(Statement::Shift {
            op3,
            rs1,
            operand,
            rd,
        })),
        None => Ok(None),
    }
}

fn load_of<'a>(alloc: Global, op3: u8, lexemes: &[Lexeme<'a>]) -> Parsed<'a>
    requires { length lexemes.now < 2 ^ 32 - 1 }
    ensures { IfOk result (λ statement. statement ≡ load_of op3 lexemes.now) }
{
    let Some((first, second)) = at_comma(lexemes) else {
        return Ok(None);
    };
    match (in_brackets(alloc, first)?, register_of(second)) {
        (Some(address), Some(rd)) => Ok(Some(Statement::Memory { op3, address, rd })),
        _ => Ok(None),
    }
}

fn store_of<'a>(alloc: Global, op3: u8, lexemes: &[Lexeme<'a>]) -> Parsed<'a>
    requires { length lexemes.now < 2 ^ 32 - 1 }
    ensures { IfOk result (λ statement. statement ≡ store_of op3 lexemes.now) }
{
    let Some((first, second)) = at_comma(lexemes) else {
        return Ok(None);
    };
    match (register_of(first), in_brackets(alloc, second)?) {
        (Some(rd), Some(address)) => Ok(Some(Statement::Memory { op3, address, rd })),
        _ => Ok(None),
    }
}

fn branch_of<'a>(alloc: Global, cond: u8, lexemes: &[Lexeme<'a>]) -> Parsed<'a>
    requires { length lexemes.now < 2 ^ 32 - 1 }
    ensures { IfOk result (λ statement. statement ≡ branch_of cond lexemes.now) }
{
    let (annul, rest) = annulled(lexemes);
    match expression_of(alloc, rest)? {
        Some(target) => Ok(Some(Statement::Branch {
            annul,
            cond,
            target,
        })),
        None => Ok(None),
    }
}

fn read_y_of<'a>(lexemes: &[Lexeme<'a>]) -> Option<Statement<'a>>
    ensures { result ≡ read_y_of lexemes.now }
{
    match lexemes.split_first() {
        Some((Lexeme::Y, behind)) => match behind.split_first() {
            Some((Lexeme::Comma, rest)) => match register_of(rest) {
                Some(rd) => Some(Statement::ReadY { rd }),
                None => None,
            },
            _ => None,
        },
        _ => None,
    }
}

fn write_y_of<'a>(alloc: Global, lexemes: &[Lexeme<'a>]) -> Parsed<'a>
    requires { length lexemes.now < 2 ^ 32 - 1 }
    ensures { IfOk result (λ statement. statement ≡ write_y_of lexemes.now) }
{
    let Some((first, behind)) = at_comma(lexemes) else {
        return Ok(None);
    };
    let Some((second, third)) = at_comma(behind) else {
        return Ok(None);
    };
    match (register_of(first), operand_of(alloc, second)?) {
        (Some(rs1), Some(operand)) if is_y(third) => {
            Ok(Some(Statement::WriteY { rs1, operand }))
        }
        _ => Ok(None),
    }
}

fn jmpl_of<'a>(alloc: Global, lexemes: &[Lexeme<'a>]) -> Parsed<'a>
    requires { length lexemes.now < 2 ^ 32 - 1 }
    ensures { IfOk result (λ statement. statement ≡ jmpl_of lexemes.now) }
{
    let Some((first, second)) = at_comma(lexemes) else {
        return Ok(None);
    };
    match (address_of(alloc, first)?, register_of(second)) {
        (Some(address), Some(rd)) => Ok(Some(Statement::Jmpl { address, rd })),
        _ => Ok(None),
    }
}

fn sethi_of<'a>(alloc: Global, rd: u8, lexemes: &[Lexeme<'a>]) -> Parsed<'a>
    requires { length lexemes.now < 2 ^ 32 - 1 }
    ensures { IfOk result (λ statement. statement ≡ sethi_of rd lexemes.now) }
{
    match lexemes.split_first() {
        Some((Lexeme::High, rest)) => match in_parens(alloc, rest)? {
            Some(value) => Ok(Some(Statement::SethiHigh { value, rd })),
            None => Ok(None),
        },
        _ => match expression_of(alloc, lexemes)? {
            Some(value) => Ok(Some(Statement::Sethi { value, rd })),
            None => Ok(None),
        },
    }
}

fn sethi_to<'a>(alloc: Global, lexemes: &[Lexeme<'a>]) -> Parsed<'a>
    requires { length lexemes.now < 2 ^ 32 - 1 }
    ensures { IfOk result (λ statement. statement ≡ sethi_to lexemes.now) }
{
    let Some((first, second)) = at_comma(lexemes) else {
        return Ok(None);
    };
    match register_of(second) {
        Some(rd) => sethi_of(alloc, rd, first),
        None => Ok(None),
    }
}

fn compare_of<'a>(alloc: Global, lexemes: &[Lexeme<'a>]) -> Parsed<'a>
    requires { length lexemes.now < 2 ^ 32 - 1 }
    ensures { IfOk result (λ statement. statement ≡ compare_of lexemes.now) }
{
    let Some((first, second)) = at_comma(lexemes) else {
        return Ok(None);
    };
    match (register_of(first), operand_of(alloc, second)?) {
        (Some(rs1), Some(operand)) => Ok(Some(Statement::Arith {
            op3: SUBCC,
            rs1,
            operand,
            rd: 0,
        })),
        _ => Ok(None),
    }
}

fn move_of<'a>(alloc: Global, lexemes: &[Lexeme<'a>]) -> Parsed<'a>
    requires { length lexemes.now < 2 ^ 32 - 1 }
    ensures { IfOk result (λ statement. statement ≡ move_of lexemes.now) }
{
    let Some((first, second)) = at_comma(lexemes) else {
        return Ok(None);
    };
    match (operand_of(alloc, first)?, register_of(second)) {
        (Some(operand), Some(rd)) => Ok(Some(Statement::Arith {
            op3: OR,
            rs1: 0,
            operand,
            rd,
        })),
        _ => Ok(None),
    }
}

fn test_of<'a>(lexemes: &[Lexeme<'a>]) -> Option<Statement<'a>>
    ensures { result ≡ test_of lexemes.now }
{
    match register_of(lexemes) {
        Some(number) => Some(Statement::Arith {
            op3: ORCC,
            rs1: 0,
            operand: Source::Register(number),
            rd: 0,
        }),
        None => None,
    }
}

fn clear_of<'a>(lexemes: &[Lexeme<'a>]) -> Option<Statement<'a>>
    ensures { result ≡ clear_of lexemes.now }
{
    match register_of(lexemes) {
        Some(rd) => Some(Statement::Arith {
            op3: OR,
            rs1: 0,
            operand: Source::Register(0),
            rd,
        }),
        None => None,
    }
}

fn set_of<'a>(alloc: Global, lexemes: &[Lexeme<'a>]) -> Parsed<'a>
    requires { length lexemes.now < 2 ^ 32 - 1 }
    ensures { IfOk result (λ statement. statement ≡ set_of lexemes.now) }
{
    let Some((first, second)) = at_comma(lexemes) else {
        return Ok(None);
    };
    match (expression_of(alloc, first)?, register_of(second)) {
        (Some(value), Some(rd)) => Ok(Some(Statement::Set { value, rd })),
        _ => Ok(None),
    }
}

fn mesh_of<'a>(alloc: Global, lexemes: &[Lexeme<'a>]) -> Parsed<'a>
    requires { length lexemes.now < 2 ^ 32 - 1 }
    ensures { IfOk result (λ statement. statement ≡ mesh_of lexemes.now) }
{
    let Some((first, second)) = at_comma(lexemes) else {
        return Ok(None);
    };
    match (expression_of(alloc, first)?, expression_of(alloc, second)?) {
        (Some(width), Some(height)) => Ok(Some(Statement::Mesh { width, height })),
        _ => Ok(None),
    }
}

fn equ_of<'a>(alloc: Global, lexemes: &[Lexeme<'a>]) -> Parsed<'a>
    requires { length lexemes.now < 2 ^ 32 - 1 }
    ensures { IfOk result (λ statement. statement ≡ equ_of lexemes.now) }
{
    match lexemes.split_first() {
        Some((Lexeme::Name(name), behind)) => match behind.split_first() {
            Some((Lexeme::Comma, rest)) => match expression_of(alloc, rest)? {
                Some(value) => {
                    let name = Name::of(name.bytes());
                    Ok(Some(Statement::Equ { name, value }))
                }
                None => Ok(None),
            },
            _ => Ok(None),
        },
        _ => Ok(None),
    }
}

fn start_of<'a>(alloc: Global, lexemes: &[Lexeme<'a>]) -> Parsed<'a>
    requires { length lexemes.now < 2 ^ 32 - 1 }
    ensures { IfOk result (λ statement. statement ≡ start_of lexemes.now) }
{
    let Some((first, behind)) = at_comma(lexemes) else {
        return Ok(None);
    };
    let Some((second, third)) = at_comma(behind) else {
        return Ok(None);
    };
    let (Some(node), Some(slot), Some(address)) = (
        expression_of(alloc, first)?,
        expression_of(alloc, second)?,
        expression_of(alloc, third)?,
    ) else {
        return Ok(None);
    };
    Ok(Some(Statement::Start {
        node,
        slot,
        address,
    }))
}

// A statement without operands.
fn nothing<'a>(found: Statement<'a>, lexemes: &[Lexeme<'a>]) -> Option<Statement<'a>>
    ensures { result ≡ nothing found.entry lexemes.now }
{
    if lexemes.is_empty() {
        Some(found)
    } else {
        None
    }
}

#[tactic(auto, unfolding(crate::specs::Statements::statement_of))]
fn nop_of<'a>(alloc: Global, lexemes: &[Lexeme<'a>]) -> Parsed<'a>
    ensures { IfOk result (λ statement. statement ≡ statement_of Form.Nop lexemes.now) }
{
    let value = constant(alloc, 0)?;
    Ok(nothing(Statement::Sethi { value, rd: 0 }, lexemes))
}

#[tactic(auto, unfolding(crate::specs::Statements::statement_of))]
fn return_leaf_of<'a>(alloc: Global, lexemes: &[Lexeme<'a>]) -> Parsed<'a>
    ensures { IfOk result (λ statement. statement ≡ statement_of Form.ReturnLeaf lexemes.now) }
{
    let address = Address {
        base: 15,
        offset: Source::Number(constant(alloc, 8)?),
    };
    Ok(nothing(Statement::Jmpl { address, rd: 0 }, lexemes))
}

fn trap_of<'a>(alloc: Global, cond: u8, lexemes: &[Lexeme<'a>]) -> Parsed<'a>
    requires { length lexemes.now < 2 ^ 32 - 1 }
    ensures { IfOk result (λ statement. statement ≡ option_map (Statement.Trap cond) (trap_address lexemes.now)) }
{
    match trap_address(alloc, lexemes)? {
        Some(address) => Ok(Some(Statement::Trap { cond, address })),
        None => Ok(None),
    }
}

fn jump_of<'a>(alloc: Global, lexemes: &[Lexeme<'a>]) -> Parsed<'a>
    requires { length lexemes.now < 2 ^ 32 - 1 }
    ensures { IfOk result (λ statement. statement ≡ option_map (λ address. Statement.Jmpl address 0) (address_of lexemes.now)) }
{
    match address_of(alloc, lexemes)? {
        Some(address) => Ok(Some(Statement::Jmpl { address, rd: 0 })),
        None => Ok(None),
    }
}

fn data_of<'a>(alloc: Global, width: Width, lexemes: &[Lexeme<'a>]) -> Parsed<'a>
    requires { length lexemes.now < 2 ^ 32 - 1 }
    ensures { IfOk result (λ statement. statement ≡ option_map (Statement.Data width) (values_of [] lexemes.now)) }
{
    match values_of(alloc, lexemes)? {
        Some(values) => Ok(Some(Statement::Data { width, values })),
        None => Ok(None),
    }
}

// The statement of a form with these operands. None exactly where they don't fit it.
#[tactic(auto, unfolding(crate::specs::Statements::statement_of))]
fn statement_of<'a>(alloc: Global, form: Form, lexemes: &[Lexeme<'a>]) -> Parsed<'a>
    requires { length lexemes.now < 2 ^ 32 - 1 }
    ensures { IfOk result (λ statement. statement ≡ statement_of form lexemes.now) }
{
    match form {
        Form::Arith { op3 } => arith_of(alloc, op3, lexemes),
        Form::Shift { op3 } => shift_of(alloc, op3, lexemes),
        Form::Load { op3 } => load_of(alloc, op3, lexemes),
        Form::Store { op3 } => store_of(alloc, op3, lexemes),
        Form::Branch { cond } => branch_of(alloc, cond, lexemes),
        Form::Trap { cond } => trap_of(alloc, cond, lexemes),
        Form::ReadY => Ok(read_y_of(lexemes)),
        Form::WriteY => write_y_of(alloc, lexemes),
        Form::Jmpl => jmpl_of(alloc, lexemes),
        Form::Sethi => sethi_to(alloc, lexemes),
        Form::Nop => nop_of(alloc, lexemes),
        Form::Compare => compare_of(alloc, lexemes),
        Form::Move => move_of(alloc, lexemes),
        Form::Test => Ok(test_of(lexemes)),
        Form::Clear => Ok(clear_of(lexemes)),
        Form::Jump => jump_of(alloc, lexemes),
        Form::ReturnLeaf => return_leaf_of(alloc, lexemes),
        Form::Set => set_of(alloc, lexemes),
        Form::Mesh => mesh_of(alloc, lexemes),
        Form::Text => Ok(nothing(Statement::Text, lexemes)),
        Form::Data { width } => data_of(alloc, width, lexemes),
        Form::Equ => equ_of(alloc, lexemes),
        Form::Start => start_of(alloc, lexemes),
        Form::Call
        | Form::Contexts
        | Form::Lines
        | Form::Shared
        | Form::Skip
        | Form::Align
        | Form::Always => with_expression(alloc, form, lexemes),
    }
}

// A statement that takes one expression.
#[tactic(auto, unfolding(crate::specs::Statements::statement_of))]
fn with_expression<'a>(alloc: Global, form: Form, lexemes: &[Lexeme<'a>]) -> Parsed<'a>
    requires form { TakesOne form }
    requires short { length lexemes.now < 2 ^ 32 - 1 }
    ensures { IfOk result (λ statement. statement ≡ statement_of form lexemes.now) }
{
    let Some(value) = expression_of(alloc, lexemes)? else {
        return Ok(None);
    };
    Ok(Some(match form {
        Form::Call => Statement::Call { target: value },
        Form::Contexts => Statement::Contexts { count: value },
        Form::Lines => Statement::Lines { count: value },
        Form::Shared => Statement::Shared { offset: value },
        Form::Skip => Statement::Skip { count: value },
        Form::Align => Statement::Align { unit: value },
        _ => Statement::Always { line: value },
    }))
}

// The statement with a form and operands.
fn named<'a>(
    alloc: Global,
    form: Option<Form>,
    lexemes: &[Lexeme<'a>],
) -> Result<Option<Option<Statement<'a>>>, NoMemory>
    requires { length lexemes.now < 2 ^ 32 - 1 }
    ensures { IfOk result (λ statement. statement ≡ named form lexemes.now) }
{
    match form {
        Some(form) => match statement_of(alloc, form, lexemes)? {
            Some(statement) => Ok(Some(Some(statement))),
            None => Ok(None),
        },
        None => Ok(None),
    }
}

// A statement, or nothing.
fn perhaps_statement<'a>(
    alloc: Global,
    lexemes: &[Lexeme<'a>],
) -> Result<Option<Option<Statement<'a>>>, NoMemory>
    requires { length lexemes.now < 2 ^ 32 - 1 }
    ensures { IfOk result (λ statement. statement ≡ perhaps_statement lexemes.now) }
{
    match lexemes.split_first() {
        None => Ok(Some(None)),
        Some((Lexeme::Name(name), rest)) => named(alloc, form_of(name.bytes()), rest),
        Some((Lexeme::Directive(name), rest)) => named(alloc, directive_of(name.bytes()), rest),
        _ => Ok(None),
    }
}

/// The line that lexemes spell: a label with its colon or none, and a statement or none. None
/// exactly where they spell none.
pub fn spelled_line<'a>(alloc: Global, lexemes: &[Lexeme<'a>]) -> Result<Option<Line<'a>>, NoMemory>
    requires { length lexemes.now < 2 ^ 32 - 1 }
    ensures { IfOk result (λ line. line ≡ spelled_line lexemes.now) }
{
    if let Some((Lexeme::Name(name), behind)) = lexemes.split_first() {
        if let Some((Lexeme::Colon, rest)) = behind.split_first() {
            let label = Some(Name::of(name.bytes()));
            return with_label(alloc, label, rest);
        }
    }
    with_label(alloc, None, lexemes)
}

// The line with this label.
fn with_label<'a>(
    alloc: Global,
    label: Option<Name<'a>>,
    lexemes: &[Lexeme<'a>],
) -> Result<Option<Line<'a>>, NoMemory>
    requires { length lexemes.now < 2 ^ 32 - 1 }
    ensures { IfOk result (λ line. line ≡ option_map (line_with label.entry) (perhaps_statement lexemes.now)) }
{
    match perhaps_statement(alloc, lexemes)? {
        Some(statement) => Ok(Some(Line { label, statement })),
        None => Ok(None),
    }
}
